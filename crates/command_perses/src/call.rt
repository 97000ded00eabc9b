//! The top call.

ghost use Rattle.std.specs.Prelude.{◌≡◌, ◌⊎◌, false, None, Some, IfErr, IfOk, length, map, string_bytes};
ghost use Rattle.command_perses.specs.Call.{NamesNoFile, ReachesNoGate, RunsCommand, world};
ghost use Rattle.command_perses.specs.Confirmed.{ResultsAreConfirmed};
ghost use Rattle.command_perses.specs.inner.Call.{WordsFail};
ghost use Rattle.command_perses.specs.Headline.{Headline};
ghost use Rattle.command_words.specs.Commands.{Command, ReduceOptions, command_line_of, names_command};
ghost use Rattle.command_words.specs.Lines.{IsSized, command_read};
ghost use Rattle.command_ends.specs.World.{OnePut};
ghost use Rattle.run_gated.specs.Workers.{AreIdle};

use crate::laws::results_are_confirmed;
use command_check::check;
use command_ends::{Ended, Refusal, end_refused};
use command_normal::normal;
use command_reduce::reduce;
use command_selftest::selftest;
use command_words::{CommandLine, read_words};
use edge_io::{Files, Sink};
use reduce_journal::equal_bytes_have_one_history;
use run_problem::answers_are_bounded;
use script_gate_trait::Gate;
use std::alloc::Global;
use std::sync::Wait;
use std::thread::Threads;
use worker_pool::Worker;

/// The command line that the words are, or why there is none.
fn read_line<'a>(alloc: Global, words: &'a [String]) -> Result<CommandLine<'a>, Refusal>
    ensures line { IfOk result (λ line. Some (command_read line) ≡ command_line_of (map string_bytes words.entry.now)) }
    ensures size { IfOk result IsSized }
    ensures refused { IfErr result (WordsFail (map string_bytes words.entry.now)) }
{
    match read_words(alloc, words) {
        Err(memory) => Err(Refusal::Memory(memory)),
        Ok(None) => Err(Refusal::Usage),
        Ok(Some(line)) => Ok(line),
    }
}

/// Does what the words ask for. Of `reduce` read `Headline` first: the result, the verdicts on which it
/// rests, the journal, and when a run succeeds. What is promised at each status is stated with the command:
/// `ReduceEnds` for `reduce`, `CheckEnds` for `check`, `NormalEnds` for `normal`, `SelftestEnds` for
/// `selftest`. A run of `reduce` that came to its result is confirmed by what `check` looks at, where no
/// lines are named that must stay (`ResultsAreConfirmed`). Words that are no command line have status 2,
/// and no others, but where memory ran out before they were read, which is status 1; words that don't name a
/// command have status 2 alone. `reduce` opens the journal; no other command touches it. The workers are
/// numbered from 1 in order; `reduce` uses as many as the words say, from the first on.
pub fn perses<F: Files, G: Gate + Send, J: Sink + Drop + Send, O: Sink, W: Threads + Wait + Sync>(
    rt: &W,
    alloc: Global,
    words: &[String],
    files: &mut F,
    workers: &mut [Worker<G>],
    journal: J,
    out: &mut O,
) -> Ended<J>
    requires idle { AreIdle workers.old }
    requires sixteen { length workers.old ≡ 16 }
    ensures idle { AreIdle workers.new }
    ensures as_many { length workers.new ≡ length workers.old }
    ensures headline { (options : ReduceOptions) → command_line_of (map string_bytes words.now) ≡ Some (Command.reduce options)
        → Headline G.may_say options
        (world F.content F.calls F.faults G.log G.faults J.put_so_far J.faults O.put_so_far O.faults files.old workers.old journal out.old)
        (world F.content F.calls F.faults G.log G.faults J.put_so_far J.faults O.put_so_far O.faults files.new workers.new result.journal out.new)
        result.status }
    ensures runs { RunsCommand G.may_say
        (world F.content F.calls F.faults G.log G.faults J.put_so_far J.faults O.put_so_far O.faults files.old workers.old journal out.old)
        (world F.content F.calls F.faults G.log G.faults J.put_so_far J.faults O.put_so_far O.faults files.new workers.new result.journal out.new)
        result.status (command_line_of (map string_bytes words.now)) }
    ensures handed_in { ReachesNoGate (command_line_of (map string_bytes words.now)) result.status
        → (workers.new ≡ workers.old) × (result.journal ≡ journal) }
    ensures files_handed_in { NamesNoFile (command_line_of (map string_bytes words.now)) → files.new ≡ files.old }
    ensures one_put { OnePut (O.puts out.old) (O.puts out.new) }
    ensures confirmed { ResultsAreConfirmed G.may_say }
    ensures usage { result.status ≡ 2 → command_line_of (map string_bytes words.now) ≡ None }
    ensures no_other { command_line_of (map string_bytes words.now) ≡ None → (result.status ≡ 2) ⊎ (result.status ≡ 1) }
    ensures nameless { names_command (map string_bytes words.now) ≡ false → result.status ≡ 2 }
{
    equal_bytes_have_one_history();
    answers_are_bounded();
    results_are_confirmed::<G>();
    match read_line(alloc, words) {
        Err(refusal) => Ended {
            status: end_refused(out, &refusal),
            journal,
        },
        Ok(CommandLine::Reduce(line)) => reduce(rt, alloc, &line, files, workers, journal, out),
        Ok(CommandLine::Check(line)) => Ended {
            status: check(alloc, &line, files, out),
            journal,
        },
        Ok(CommandLine::Normal(grammar)) => Ended {
            status: normal(alloc, grammar, files, out),
            journal,
        },
        Ok(CommandLine::Selftest(line)) => Ended {
            status: selftest(rt, alloc, line, out),
            journal,
        },
    }
}
