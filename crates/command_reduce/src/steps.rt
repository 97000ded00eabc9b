//! The command `reduce`, step by step.

ghost use Rattle.std.specs.Prelude.{◌≡◌, ◌≤◌, true, IfErr, IfOk, OnOk, length};
ghost use Rattle.edge_io.specs.Files.{SameFiles};
ghost use Rattle.line_guard.specs.MustStay.{stays_admit};
ghost use Rattle.run_gated.specs.Run.{run_of};
ghost use Rattle.run_gated.specs.Workers.{AreIdle};
ghost use Rattle.run_problem.specs.Problem.{Problem};
ghost use Rattle.run_problem.specs.Read.{IsReadAs, IsReady, numbers_read, start_read};
ghost use Rattle.run_problem.specs.Ends.{IsRunOf};
ghost use Rattle.command_problem.specs.Problem.{ProblemRead};
ghost use Rattle.command_reduce.specs.Reduce.{EndsBeforeTheRun, Reduces, problem_in, read_paths};
ghost use Rattle.command_reduce.specs.Resume.{IsKnownOf};
ghost use Rattle.command_reduce.specs.inner.Reduce.{ReduceSteps};
ghost use Rattle.command_reduce.specs.inner.Read.{AcceptCalls, AcceptFails, admits_read, stays_read};
ghost use Rattle.command_reduce_calls.specs.Stays.{AcceptsStart, StaysFail};
ghost use Rattle.command_reduce.specs.inner.Run.{IsSoundOpened, IsSoundStarted};
ghost use Rattle.command_words.specs.Lines.{reduce_read};
ghost use Rattle.command_ends.specs.Status.{status_of};
ghost use Rattle.command_ends.specs.World.{IsQuiet, OnePut, WereRead, seen, seen_gates};

use crate::read::read_problem;
use crate::resume::read_kept;
use command_ends::{Ended, Refusal, end_with};
use command_reduce_calls::{
    guard_of_lines, guard_of_tokens, open_gates, open_journal, without_gate, write_result,
};
use command_words::ReduceLine;
use edge_io::{Files, Sink};
use keep_guard::Guard;
use line_guard::{MustStay, all_keep_protected};
use reduce_journal::{Event, digest_of};
use reduce_trees_input::{input_fault_once, inputs_are_in_language};
use run_gated::{Known, Ran};
use run_problem::{ReadProblem, run_problem};
use script_gate_trait::Gate;
use std::alloc::Global;
use std::sync::Wait;
use std::thread::Threads;
use token_print::tokens_are_in_order;
use worker_pool::Worker;

/// Opens the journal and reduces what was read, by these workers, whose gates are open.
fn run_opened<G: Gate + Send, J: Sink + Drop + Send, W: Threads + Wait + Sync>(
    rt: &W,
    alloc: Global,
    line: &ReduceLine<'_>,
    problem: ReadProblem,
    guard: Guard<MustStay<'_>>,
    workers: &mut [Worker<G>],
    journal: J,
    known: Known,
) -> Ran<J>
    requires ready { IsReady problem }
    requires kept { stays_admit guard (numbers_read problem) (start_read problem) ≡ true }
    requires idle { AreIdle workers.old }
    ensures idle { AreIdle workers.new }
    ensures as_many { length workers.new ≡ length workers.old }
    ensures sound { IsSoundOpened ((reduce_read line.now).journal) G.may_say
        (run_of G.log G.faults J.put_so_far J.faults workers.old workers.new journal known result) }
    ensures problem { (one : Problem) → IsReadAs (stays_admit guard.entry) problem one
        → IsRunOf (stays_admit guard.entry) one (run_of G.log G.faults J.put_so_far J.faults workers.old workers.new journal known result) }
{
    let mut journal = journal;
    match open_journal(alloc, &mut journal, line) {
        Ok(()) => run_problem(rt, alloc, problem, guard, workers, journal, known),
        Err(fault) => Ran::refused(alloc, journal, fault),
    }
}

/// Opens the gates of these workers, after all that can be refused, and by them reduces what was read.
/// Where one can't be opened the journal isn't either, so that an older one stays.
fn reduce_start<G: Gate + Send, J: Sink + Drop + Send, W: Threads + Wait + Sync>(
    rt: &W,
    alloc: Global,
    line: &ReduceLine<'_>,
    problem: ReadProblem,
    guard: Guard<MustStay<'_>>,
    workers: &mut [Worker<G>],
    journal: J,
    known: Known,
) -> Ran<J>
    requires ready { IsReady problem }
    requires kept { stays_admit guard (numbers_read problem) (start_read problem) ≡ true }
    requires idle { AreIdle workers.old }
    requires jobs { length workers.old ≡ line.now.jobs }
    ensures idle { AreIdle workers.new }
    ensures as_many { length workers.new ≡ length workers.old }
    ensures sound { IsSoundStarted (reduce_read line.now) G.may_say
        (run_of G.log G.faults J.put_so_far J.faults workers.old workers.new journal known result) }
    ensures problem { (one : Problem) → IsReadAs (stays_admit guard.entry) problem one → IsRunOf (stays_admit guard.entry) one
        (run_of G.log G.faults J.put_so_far J.faults workers.old workers.new journal known result) }
{
    match open_gates(workers, line) {
        Ok(()) => run_opened(rt, alloc, line, problem, guard, workers, journal, known),
        Err(fault) => without_gate(alloc, journal, fault),
    }
}

/// The guard of what must stay of what was read: each keep text occurs in its text, and each line that is
/// named is there.
fn guard_of<'a>(
    alloc: Global,
    line: &ReduceLine<'a>,
    problem: &ReadProblem,
) -> Result<Guard<MustStay<'a>>, Refusal>
    requires { IsReady problem.now }
    ensures guard { IfOk result (λ guard. guard ≡ stays_read (reduce_read line.now) problem.now) }
    ensures accepts { OnOk result (AcceptsStart (reduce_read line.now) (start_read problem.now)) }
    ensures refused { IfErr result (λ refusal. StaysFail (reduce_read line.now) (start_read problem.now) refusal) }
{
    tokens_are_in_order();
    match problem {
        ReadProblem::Lines(start) => guard_of_lines(alloc, line, start),
        ReadProblem::Tree { found, .. } => {
            guard_of_tokens(alloc, line, found.text.as_bytes(), &found.tokens)
        }
    }
}

/// What is reduced, the guard of what must stay of it, and what is known of it: its digest, and the
/// verdicts of the journal that is resumed.
fn accept<'a, F: Files>(
    alloc: Global,
    line: &ReduceLine<'a>,
    files: &mut F,
) -> Result<(ReadProblem, Guard<MustStay<'a>>, Known), Refusal>
    ensures problem { IfOk result (λ accepted. ProblemRead (problem_in (reduce_read line.now)) (seen F.content F.faults files.old)
        (IsReadAs (admits_read (reduce_read line.now) accepted.0) accepted.0)) }
    ensures ready { IfOk result (λ accepted. IsReady accepted.0) }
    ensures guard { IfOk result (λ accepted. accepted.1 ≡ stays_read (reduce_read line.now) accepted.0) }
    ensures accepts { IfOk result (λ accepted. AcceptsStart (reduce_read line.now) (start_read accepted.0)) }
    ensures kept { IfOk result (λ accepted. stays_admit accepted.1 (numbers_read accepted.0) (start_read accepted.0) ≡ true) }
    ensures known { IfOk result (λ accepted. IsKnownOf (reduce_read line.now) (seen F.content F.faults files.old) (start_read accepted.0) accepted.2) }
    ensures quiet { OnOk result (IsQuiet (seen F.content F.faults files.old) (seen F.content F.faults files.new)) }
    ensures same { SameFiles (F.content files.old) (F.content files.new) }
    ensures refused { IfErr result (λ refusal. AcceptFails (reduce_read line.now) (seen F.content F.faults files.old)
        (seen F.content F.faults files.new) refusal) }
    ensures read { OnOk result (WereRead (read_paths (reduce_read line.now)) (F.calls files.old) (F.calls files.new)) }
    ensures calls { IfErr result (AcceptCalls (reduce_read line.now) (F.calls files.old) (F.calls files.new)) }
{
    all_keep_protected();
    let problem = read_problem(alloc, line, files)?;
    let guard = guard_of(alloc, line, &problem)?;
    let start = digest_of(problem.start());
    let kept = read_kept(alloc, files, line.resume, &start)?;
    Ok((problem, guard, Known { start, kept }))
}

/// What the steps of `reduce` come to: the journal, what was recorded and committed, and the report or why
/// there is none.
struct Steps<J> {
    journal: J,
    events: Vec<Event>,
    outcome: Result<Vec<u8>, Refusal>,
}

/// The steps of `reduce` after the words: the grammar, the input, its tokens and tree, what must stay,
/// the reduction, and the result, which is written only at the end.
fn reduce_steps<F: Files, G: Gate + Send, J: Sink + Drop + Send, W: Threads + Wait + Sync>(
    rt: &W,
    alloc: Global,
    line: &ReduceLine<'_>,
    files: &mut F,
    workers: &mut [Worker<G>],
    journal: J,
) -> Steps<J>
    requires least { 1 ≤ line.now.jobs }
    requires idle { AreIdle workers.old }
    requires enough { line.now.jobs ≤ length workers.old }
    ensures idle { AreIdle workers.new }
    ensures as_many { length workers.new ≡ length workers.old }
    ensures steps { ReduceSteps (reduce_read line.now) G.may_say result.events.items
        (record {
          files = seen F.content F.faults files.old;
          calls = F.calls files.old;
          gates = seen_gates G.log G.faults workers.old;
          journal = seen J.put_so_far J.faults journal;
        })
        (record {
          files = seen F.content F.faults files.new;
          calls = F.calls files.new;
          gates = seen_gates G.log G.faults workers.new;
          journal = seen J.put_so_far J.faults result.journal;
        })
        result.outcome }
    ensures handed_in { IfErr result.outcome (λ refusal. EndsBeforeTheRun (status_of refusal) → (workers.new ≡ workers.old) × (result.journal ≡ journal)) }
{
    match accept(alloc, line, files) {
        Err(refusal) => Steps {
            journal,
            events: Vec::new(alloc),
            outcome: Err(refusal),
        },
        Ok((problem, guard, known)) => {
            let Ran {
                journal,
                events,
                outcome,
            } = reduce_start(
                rt,
                alloc,
                line,
                problem,
                guard,
                &mut workers[..line.jobs as usize],
                journal,
                known,
            );
            let outcome = write_result(alloc, line, files, outcome);
            Steps {
                journal,
                events,
                outcome,
            }
        }
    }
}

/// Reduces a file as the command line says, in this order: the grammar is read, where there is one;
/// the input is read, and cut into tokens and parsed by the grammar; the keep texts are looked for in
/// it, and the lines that are named; the journal that is resumed is read, where one is; the gates of as
/// many workers as the command line says are opened, and the journal; the gates are asked, one of them for
/// each text, and each verdict is written into the journal before it is used; the result is written; and
/// its report is put on `out`. A start whose verdict is no ends the run. The other workers do nothing.
pub fn reduce<F: Files, G: Gate + Send, J: Sink + Drop + Send, O: Sink, W: Threads + Wait + Sync>(
    rt: &W,
    alloc: Global,
    line: &ReduceLine<'_>,
    files: &mut F,
    workers: &mut [Worker<G>],
    journal: J,
    out: &mut O,
) -> Ended<J>
    requires least { 1 ≤ line.now.jobs }
    requires idle { AreIdle workers.old }
    requires enough { line.now.jobs ≤ length workers.old }
    ensures idle { AreIdle workers.new }
    ensures as_many { length workers.new ≡ length workers.old }
    ensures reduces { Reduces (reduce_read line.now) G.may_say
        (record {
          files = seen F.content F.faults files.old;
          calls = F.calls files.old;
          gates = seen_gates G.log G.faults workers.old;
          journal = seen J.put_so_far J.faults journal;
          out = seen O.put_so_far O.faults out.old;
        })
        (record {
          files = seen F.content F.faults files.new;
          calls = F.calls files.new;
          gates = seen_gates G.log G.faults workers.new;
          journal = seen J.put_so_far J.faults result.journal;
          out = seen O.put_so_far O.faults out.new;
        })
        result.status }
    ensures handed_in { EndsBeforeTheRun result.status → (workers.new ≡ workers.old) × (result.journal ≡ journal) }
    ensures one_put { OnePut (O.puts out.old) (O.puts out.new) }
{
    input_fault_once();
    inputs_are_in_language();
    let Steps {
        journal,
        events: _,
        outcome,
    } = reduce_steps(rt, alloc, line, files, workers, journal);
    Ended {
        status: end_with(out, &outcome),
        journal,
    }
}
