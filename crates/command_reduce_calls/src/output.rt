//! The result of a run, and its report.

ghost use Rattle.std.specs.Prelude.{IfErr, OnOk};
ghost use Rattle.edge_io.specs.Files.{Holds, SameOthers};
ghost use Rattle.edge_io.specs.FileCalls.{WereMade};
ghost use Rattle.command_reduce_calls.specs.Calls.{WriteEnds, result_makes};
ghost use Rattle.command_ends.specs.Status.{WriteFails, write_makes};
ghost use Rattle.command_ends.specs.World.{IsQuiet, seen};

use command_ends::{Refusal, write_file};
use command_words::ReduceLine;
use edge_io::Files;
use reduce_journal::report;
use run_gated::{Reduced, RunFault};
use std::alloc::Global;

/// Makes the output hold the text of a reduction. After `CannotWrite` it may hold anything.
fn write_text<F: Files>(
    line: &ReduceLine<'_>,
    files: &mut F,
    reduced: &Reduced,
) -> Result<(), Refusal>
    ensures written { OnOk result (Holds reduced.now.text.items (F.content files.new line.now.output.now)) }
    ensures quiet { OnOk result (IsQuiet (seen F.content F.faults files.old) (seen F.content F.faults files.new)) }
    ensures others { SameOthers (F.content files.old) (F.content files.new) line.now.output.now }
    ensures refused { IfErr result (λ refusal. WriteFails (seen F.content F.faults files.old) (seen F.content F.faults files.new) refusal) }
    ensures calls { WereMade (write_makes line.now.output.now result) (F.calls files.old) (F.calls files.new) }
{
    write_file(files, line.output, &reduced.text)
}

/// Makes the report of a reduction and writes its result, which is written only where there is one.
pub fn write_result<F: Files>(
    alloc: Global,
    line: &ReduceLine<'_>,
    files: &mut F,
    outcome: Result<Reduced, RunFault>,
) -> Result<Vec<u8>, Refusal>
    ensures ends { WriteEnds line.now.output.now (seen F.content F.faults files.old) (seen F.content F.faults files.new) outcome result }
    ensures calls { WereMade (result_makes line.now.output.now outcome result) (F.calls files.old) (F.calls files.new) }
{
    let reduced = outcome?;
    let text = report(alloc, &reduced.counts)?;
    write_text(line, files, &reduced)?;
    Ok(text)
}
