//! The command `selftest`.

ghost use Rattle.std.specs.Prelude.{◌≤◌, IfErr, IfOk};
ghost use Rattle.command_words.specs.Lines.{selftest_read};
ghost use Rattle.command_selftest.specs.Selftest.{RunsSelftest, SummarizesCase};
ghost use Rattle.command_selftest.specs.inner.Selftest.{SelftestFails};
ghost use Rattle.command_ends.specs.World.{OnePut, seen};

use case_reduction::case_summary;
use command_ends::{Refusal, end_with};
use command_words::SelftestLine;
use edge_io::Sink;
use std::alloc::Global;
use std::sync::Wait;
use std::thread::Threads;

/// The summary of the program's reduction.
fn summary_of<W: Threads + Wait + Sync>(
    rt: &W,
    alloc: Global,
    line: SelftestLine,
) -> Result<Vec<u8>, Refusal>
    requires least { 1 ≤ line.size }
    requires most { line.size ≤ 1500 }
    ensures summary { IfOk result (λ text. SummarizesCase (selftest_read line) text.items) }
    ensures refused { IfErr result SelftestFails }
{
    let summary = case_summary(rt, alloc, line.number, line.size, line.mode)?;
    Ok(summary)
}

/// Reduces a generated program in memory, puts the summary on `out`, in one put, or the line that says
/// that memory ran out, and gives the status. Where the summary can't be put, nothing follows.
pub fn selftest<O: Sink, W: Threads + Wait + Sync>(
    rt: &W,
    alloc: Global,
    line: SelftestLine,
    out: &mut O,
) -> u8
    requires least { 1 ≤ line.size }
    requires most { line.size ≤ 1500 }
    ensures ends { RunsSelftest (selftest_read line) (seen O.put_so_far O.faults out.old) (seen O.put_so_far O.faults out.new) result }
    ensures one_put { OnePut (O.puts out.old) (O.puts out.new) }
{
    let outcome = summary_of(rt, alloc, line);
    end_with(out, &outcome)
}
