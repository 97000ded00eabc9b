//! The command `check`, step by step.

ghost use Rattle.std.specs.Prelude.{◌≡◌, IfErr, IfOk, OnOk, codes};
ghost use Rattle.edge_io.specs.Files.{SameFiles};
ghost use Rattle.command_check.specs.Check.{Checks, ConfirmedIn, read_paths};
ghost use Rattle.command_check.specs.inner.Check.{CheckFails, IsCauseRefusal};
ghost use Rattle.command_words.specs.Lines.{check_read};
ghost use Rattle.command_ends.specs.World.{IsQuiet, OnePut, WereRead, seen};

use crate::files::{read_run, read_setup};
use cert_check::{Finding, Why, check_run, one_is_found};
use command_ends::{Refusal, end_with};
use command_words::CheckLine;
use edge_io::{Files, Sink};
use faults::Memory;
use reduce_journal::equal_bytes_have_one_history;
use reduce_trees_input::{input_fault_once, inputs_are_in_language};
use std::alloc::Global;

/// The refusal of files that aren't those of a finished run for this cause; `Memory` where memory runs out.
fn refusal_of(alloc: Global, why: Why) -> Refusal
    ensures { IsCauseRefusal why result }
{
    match format!(in alloc; "perses: check: {why}\n") {
        Ok(line) => Refusal::NotConfirmed(line),
        Err(refused) => Refusal::Memory(Memory::from(refused)),
    }
}

/// The answer where the files are those of a finished run.
fn answer_yes(alloc: Global) -> Result<Vec<u8>, Memory>
    ensures { IfOk result (λ answer. answer.items ≡ codes "check: yes\n") }
{
    Ok(Vec::from_slice(alloc, b"check: yes\n")?)
}

/// The answer, or why there is none.
fn answer_of<F: Files>(
    alloc: Global,
    line: &CheckLine<'_>,
    files: &mut F,
) -> Result<Vec<u8>, Refusal>
    ensures answer { IfOk result (λ answer. answer.items ≡ codes "check: yes\n") }
    ensures found { OnOk result (ConfirmedIn (check_read line.now) (seen F.content F.faults files.old)) }
    ensures quiet { OnOk result (IsQuiet (seen F.content F.faults files.old) (seen F.content F.faults files.new)) }
    ensures same { SameFiles (F.content files.old) (F.content files.new) }
    ensures refused { IfErr result (λ refusal. CheckFails (check_read line.now) (seen F.content F.faults files.old)
        (seen F.content F.faults files.new) (F.calls files.old) (F.calls files.new) refusal) }
    ensures read { OnOk result (WereRead (read_paths (check_read line.now)) (F.calls files.old) (F.calls files.new)) }
{
    let setup = read_setup(alloc, line, files)?;
    let run = read_run(alloc, line, files)?;
    match check_run(alloc, &setup, &run.output, &run.journal)? {
        Finding::Yes => Ok(answer_yes(alloc)?),
        Finding::No(why) => Err(refusal_of(alloc, why)),
    }
}

/// Checks the files of a run as the command line says. The grammar is read first, where there is one, and
/// then the input, which is cut into tokens and parsed by it. The keep texts are looked for in it. Then the
/// result and the journal are read, and what is found of them is put on `out`, in one put. No file is
/// changed, and no script is run.
///
/// By a grammar the input is parsed twice and cut into tokens four times: once here, since a fault of it is
/// an answer of its own, and then by [`check_run`].
pub fn check<F: Files, O: Sink>(
    alloc: Global,
    line: &CheckLine<'_>,
    files: &mut F,
    out: &mut O,
) -> u8
    ensures ends { Checks (check_read line.now) (seen F.content F.faults files.old) (seen F.content F.faults files.new)
        (F.calls files.old) (F.calls files.new) (seen O.put_so_far O.faults out.old) (seen O.put_so_far O.faults out.new) result }
    ensures one_put { OnePut (O.puts out.old) (O.puts out.new) }
{
    input_fault_once();
    inputs_are_in_language();
    equal_bytes_have_one_history();
    one_is_found();
    let outcome = answer_of(alloc, line, files);
    end_with(out, &outcome)
}
