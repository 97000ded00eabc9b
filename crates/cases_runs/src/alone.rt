//! Runs of one worker. Where nothing ends one before its time, and yes is the answer if there is a `b`, its journal
//! is the worked one.

ghost use Rattle.std.specs.Prelude.{◌≡◌, [], IfOk, IfSome};

use crate::case::{Case, kept_in};
use crate::journals::read;
use crate::shown::{START, add_bytes};
use crate::small_step::SmallStep;
use crate::{first_of, number_of};
use edge_io::{MemSink, Sink};
use faults::Memory;
use gate_permits::Texts;
use ordered_commit::{Board, Outcome, PoolFault, Refused};
use reduce_journal::digest_of;
use reduce_step::Step;
use script_gate_trait::{Gate, ListGate, RuleGate, Said};
use std::alloc::{AllocError, Global};
use std::sync::Wait;
use verdict_table::Kept;
use worker_pool::run_alone;

/// What a run comes to, or what is handed back where there is no board.
type Came = Result<Outcome<SmallStep, MemSink>, Refused<SmallStep, MemSink>>;

/// A journal that takes so many bytes, and whose put of this number fails, from 1.
pub(crate) fn sink_of(alloc: Global, size: u64, failing: u64) -> Result<MemSink, Memory>
    ensures { IfOk result (λ sink. IfSome (⟦<MemSink as Sink>⟧.put_so_far sink) (λ put. put.bytes ≡ [])) }
{
    MemSink::new(alloc, size, Vec::from_slice(alloc, &[failing])?)
}

fn said_of(word: &str) -> Said {
    match word {
        "yes" => Said::Yes,
        "no" => Said::No,
        _ => Said::Fail,
    }
}

/// A gate that gives these answers, of which the last one comes again and again.
pub(crate) fn list_gate(alloc: Global, answers: &str) -> Result<ListGate, Memory> {
    let mut said = Vec::new(alloc);
    let mut last = Said::Fail;
    for word in answers.split(',') {
        last = said_of(word);
        said.push(last)?;
    }
    Ok(ListGate::new(alloc, said, last))
}

/// The run over this gate, with a journal that takes so many bytes, and whose put of this number fails, from 1;
/// and with these kept verdicts.
fn run_over<G: Gate, W: Wait>(
    rt: &W,
    alloc: Global,
    gate: &mut G,
    size: u64,
    failing: u64,
    kept: Kept,
) -> Result<Came, Memory> {
    let journal = sink_of(alloc, size, failing)?;
    run_with(rt, alloc, gate, journal, kept)
}

/// The run over this gate, with this journal, which is empty, and these kept verdicts.
fn run_with<G: Gate, W: Wait>(
    rt: &W,
    alloc: Global,
    gate: &mut G,
    journal: MemSink,
    kept: Kept,
) -> Result<Came, Memory>
    requires { IfSome (⟦<MemSink as Sink>⟧.put_so_far journal) (λ put. put.bytes ≡ []) }
{
    let texts = Texts::new(alloc)?;
    let front = SmallStep::new(alloc);
    let start = digest_of(START);
    match Board::<SmallStep, G, MemSink>::new(alloc, front, journal, 1, start, kept) {
        Err(refused) => Ok(Err(refused)),
        Ok((board, seats)) => Ok(Ok(run_alone(rt, &texts, board, seats, gate))),
    }
}

/// Adds how a run ended.
fn add_end(out: &mut String, fault: Option<PoolFault>) -> Result<(), AllocError> {
    match fault {
        None => out.push_str("ended"),
        Some(PoolFault::Script { worker }) => write!(out, "script of worker {worker} failed"),
        Some(PoolFault::Journal) => out.push_str("journal failed"),
        Some(PoolFault::Memory(_)) => out.push_str("out of memory"),
    }
}

/// Adds how a board ended, how many events it has, and its journal.
pub(crate) fn add_outcome(
    out: &mut String,
    outcome: &Outcome<SmallStep, MemSink>,
) -> Result<(), Memory> {
    add_end(out, outcome.fault)?;
    write!(out, ", events {}: ", outcome.events.len())?;
    Ok(add_bytes(out, outcome.journal.bytes())?)
}

/// Adds why there is no board, and the journal that is handed back.
pub(crate) fn add_refused(
    out: &mut String,
    refused: &Refused<SmallStep, MemSink>,
) -> Result<(), Memory> {
    out.push_str("no board, ")?;
    add_end(out, Some(refused.fault.into()))?;
    out.push_str(": ")?;
    Ok(add_bytes(out, refused.journal.bytes())?)
}

/// Whether the reducer asks something.
fn asks_more(came: &Came) -> bool {
    match came {
        Ok(outcome) => outcome.front.asks().is_some(),
        Err(refused) => refused.front.asks().is_some(),
    }
}

/// A run: its gate, how many bytes its journal takes, and the put that fails, from 1; and whether it is shown whether
/// the reducer asks something, in place of what the run comes to.
#[derive(Clone, Copy)]
struct Run<'a> {
    gate: &'a str,
    size: u64,
    failing: u64,
    shows_more: bool,
}

/// The run of `GATE SIZE N`.
fn run_of(text: &str, shows_more: bool) -> Run<'_> {
    let (gate, text) = first_of(text);
    let (size, failing) = first_of(text);
    Run {
        gate,
        size: number_of(size),
        failing: number_of(failing),
        shows_more,
    }
}

/// Adds what a run comes to, or whether the reducer asks something.
fn add_came(out: &mut String, came: &Came, shows_more: bool) -> Result<(), Memory> {
    if shows_more {
        return Ok(out.push_str(if asks_more(came) { "more" } else { "no more" })?);
    }
    match came {
        Ok(outcome) => add_outcome(out, outcome),
        Err(refused) => add_refused(out, refused),
    }
}

/// Adds what is shown of the run over this gate.
fn add_over<G: Gate, W: Wait>(
    out: &mut String,
    rt: &W,
    alloc: Global,
    case: &Case,
    gate: &mut G,
    run: Run<'_>,
) -> Result<(), Memory> {
    let kept = case.kept(alloc)?;
    let came = run_over(rt, alloc, gate, run.size, run.failing, kept)?;
    add_came(out, &came, run.shows_more)
}

/// Adds how many texts were asked, where what the run comes to is shown.
fn add_asked(out: &mut String, asked: usize, run: Run<'_>) -> Result<(), Memory> {
    if run.shows_more {
        return Ok(());
    }
    Ok(write!(out, "\nasked {asked}")?)
}

/// How many texts the gate was asked about.
fn count_of(gate: &RuleGate<98>) -> usize {
    match gate.log() {
        Some(log) => log.asked.len(),
        None => 0,
    }
}

fn add_by_rule<W: Wait>(
    out: &mut String,
    rt: &W,
    alloc: Global,
    case: &Case,
    run: Run<'_>,
) -> Result<(), Memory> {
    let mut gate = RuleGate::<98>::new(alloc, true);
    add_over(out, rt, alloc, case, &mut gate, run)?;
    add_asked(out, count_of(&gate), run)
}

fn add_by_list<W: Wait>(
    out: &mut String,
    rt: &W,
    alloc: Global,
    case: &Case,
    run: Run<'_>,
) -> Result<(), Memory> {
    let mut gate = list_gate(alloc, run.gate)?;
    add_over(out, rt, alloc, case, &mut gate, run)?;
    add_asked(out, gate.log().asked.len(), run)
}

fn add_by_gate<W: Wait>(
    out: &mut String,
    rt: &W,
    alloc: Global,
    case: &Case,
    run: Run<'_>,
) -> Result<(), Memory> {
    if run.gate == "b" {
        return add_by_rule(out, rt, alloc, case, run);
    }
    add_by_list(out, rt, alloc, case, run)
}

/// Adds what a run comes to, and how many texts are asked.
pub(crate) fn add_run_alone<W: Wait>(
    out: &mut String,
    rt: &W,
    alloc: Global,
    case: &Case,
    text: &str,
) -> Result<(), Memory> {
    add_by_gate(out, rt, alloc, case, run_of(text, false))
}

/// Adds whether the reducer asks something after a run.
pub(crate) fn add_more<W: Wait>(
    out: &mut String,
    rt: &W,
    alloc: Global,
    case: &Case,
    text: &str,
) -> Result<(), Memory> {
    add_by_gate(out, rt, alloc, case, run_of(text, true))
}

/// The journal that a run leaves, and its fault.
fn left_by(came: &Came) -> (&MemSink, Option<PoolFault>) {
    match came {
        Ok(outcome) => (&outcome.journal, outcome.fault),
        Err(refused) => (&refused.journal, Some(refused.fault.into())),
    }
}

fn add_left_by(out: &mut String, alloc: Global, came: &Came) -> Result<(), Memory> {
    let (journal, fault) = left_by(came);
    let can_be_read = read(alloc, journal.bytes()).is_ok();
    add_end(out, fault)?;
    out.push_str(if can_be_read {
        ", can be read: "
    } else {
        ", can't be read: "
    })?;
    Ok(add_bytes(out, journal.bytes())?)
}

/// Adds how a run ends whose gate says yes where there is a `b`, and whose journal takes so many bytes, and the put of
/// this number fails; whether what is left can be read; and what it is.
pub(crate) fn add_left<W: Wait>(
    out: &mut String,
    rt: &W,
    alloc: Global,
    text: &str,
) -> Result<(), Memory> {
    let (size, failing) = first_of(text);
    let came = run_over(
        rt,
        alloc,
        &mut RuleGate::<98>::new(alloc, false),
        number_of(size),
        number_of(failing),
        Kept::new(alloc),
    )?;
    add_left_by(out, alloc, &came)
}

/// How many of the five texts that the run asks have a kept verdict.
fn known_texts(kept: &Kept) -> usize {
    let mut known: usize = 0;
    for text in [START, b"", b"a=1;\n", b"b=2;c=3;", b"b=2;\n"] {
        if kept.find(text).is_some() {
            known = known.saturating_add(1);
        }
    }
    known
}

/// Whether the run came to the end.
fn has_ended(came: &Came) -> bool {
    match came {
        Ok(outcome) => {
            outcome.fault == None && outcome.events.len() == 11 && outcome.front.asks().is_none()
        }
        Err(_) => false,
    }
}

/// Adds how many texts are known, and whether the run came to the end.
fn add_ended(out: &mut String, known: usize, came: &Came) -> Result<(), Memory> {
    let ended = if has_ended(came) {
        "ended"
    } else {
        "not ended"
    };
    Ok(write!(out, "known {known}, {ended}")?)
}

/// Adds how many of the five texts have a verdict of this journal, and whether the run with these over the gate ends.
fn add_ended_after<W: Wait>(
    out: &mut String,
    rt: &W,
    alloc: Global,
    gate: &mut RuleGate<98>,
    journal: &[u8],
) -> Result<(), Memory> {
    let kept = kept_in(alloc, journal)?;
    let known = known_texts(&kept);
    let came = run_over(rt, alloc, gate, 1000, 0, kept)?;
    add_ended(out, known, &came)
}

/// Adds that, and how many texts were asked.
fn add_resumed_at<W: Wait>(
    out: &mut String,
    rt: &W,
    alloc: Global,
    journal: &[u8],
) -> Result<(), Memory> {
    let mut gate = RuleGate::<98>::new(alloc, true);
    add_ended_after(out, rt, alloc, &mut gate, journal)?;
    Ok(write!(out, ", asked {}\n", count_of(&gate))?)
}

/// Adds that for each cut of these bytes that has the first so many.
fn add_each_resumed<W: Wait>(
    out: &mut String,
    rt: &W,
    alloc: Global,
    bytes: &[u8],
    least: usize,
) -> Result<(), Memory> {
    for end in least..=bytes.len() {
        if let Some(journal) = bytes.get(..end) {
            write!(out, "{end}: ")?;
            add_resumed_at(out, rt, alloc, journal)?;
        }
    }
    Ok(())
}

/// Adds, for each cut of a journal with its whole beginning, how many texts are known, whether a run that resumes it
/// ends, and how many texts are asked.
pub(crate) fn add_resumed<W: Wait>(
    out: &mut String,
    rt: &W,
    alloc: Global,
    case: &Case,
    text: &str,
) -> Result<(), Memory> {
    let bytes = case.bytes(alloc, text)?;
    add_each_resumed(out, rt, alloc, &bytes, case.begin.len())
}
