//! Runs over the reduction of eight lines to the one that has a `b`.
//!
//! Two wrong bodies meet every contract of `run_workers`, and tests alone see them: one that runs one
//! script at a time fails `runs_two_and_four_scripts_at_once`, and one that is always out of memory
//! `comes_to_the_same_with_any_number_of_workers`.

ghost use Rattle.std.specs.Prelude.{◌≡◌, ◌≤◌, [], All, IfOk, IfSome, IsTrue, None, length};

use crate::hold_count::HoldCount;
use crate::hold_gate::HoldGate;
use edge_io::{MemSink, Sink};
use faults::{Limit, Memory};
use keep_guard::{Guard, KeepTexts};
use ordered_commit::{Board, Outcome, PoolFault};
use reduce_core::line_reducer;
use reduce_journal::{Event, Journal, JournalFault, digest_of, read_journal};
use reduce_rounds::ReducerStep;
use reduce_step::TEXT_LIMIT;
use script_gate_trait::{Bytes, Gate, GateFault, ListGate, RuleGate, Said, Verdict};
use std::alloc::Global;
use std::sync::{Arc, Wait};
use std::test::Fail;
use std::thread::Threads;
use verdict_table::Kept;
use worker_pool::{Worker, run_workers};

/// What is reduced.
const START: &[u8] = b"a\nb\nc\nd\ne\nf\ng\nh\n";

/// What remains of it.
const RESULT: &[u8] = b"b\n";

/// What a run has come to.
#[derive(Drop)]
struct Came {
    fault: Option<PoolFault>,
    text: Vec<u8>,
    journal: Vec<u8>,
    events: Vec<Event>,
}

/// Whether no worker has a seat.
fn are_free<G: Gate>(workers: &[Worker<G>]) -> bool
    ensures { IsTrue result → All (λ w. w.seat ≡ None) workers.now }
{
    workers.iter().all(|worker| worker.seat.is_none())
}

/// Whether there are 1 to 16 workers, of which none has a seat.
fn are_ready<G: Gate>(workers: &[Worker<G>]) -> bool
    ensures some { IsTrue result → (1 ≤ length workers.now) × (length workers.now ≤ 16) }
    ensures unseated { IsTrue result → All (λ w. w.seat ≡ None) workers.now }
{
    let count = workers.len();
    if count == 0 || count > 16 {
        return false;
    }
    are_free(workers)
}

/// A journal whose puts of these numbers fail, from 1.
fn sink_of(alloc: Global, fail: &[u64]) -> Result<MemSink, Fail>
    ensures { IfOk result (λ sink. IfSome (⟦<MemSink as Sink>⟧.put_so_far sink) (λ put. put.bytes ≡ [])) }
{
    Ok(MemSink::new(alloc, 10000, Vec::from_slice(alloc, fail)?)?)
}

/// The verdicts of a journal; none where there is no journal.
fn known_from(alloc: Global, journal: Option<&[u8]>) -> Result<Kept, Fail> {
    match journal {
        None => Ok(Kept::new(alloc)),
        Some(bytes) => kept_in(alloc, bytes),
    }
}

/// What these workers come to. The puts of these numbers into the journal fail, from 1.
fn run_of<G: Gate + Send, W: Threads + Wait + Sync>(
    rt: &W,
    alloc: Global,
    workers: &mut [Worker<G>],
    fail: &[u64],
) -> Result<Came, Fail> {
    run_with(rt, alloc, workers, fail, None)
}

/// What they come to with the verdicts of this earlier journal, if there is one.
fn run_with<G: Gate + Send, W: Threads + Wait + Sync>(
    rt: &W,
    alloc: Global,
    workers: &mut [Worker<G>],
    fail: &[u64],
    earlier: Option<&[u8]>,
) -> Result<Came, Fail> {
    if !are_ready(workers) {
        return Err("1 to 16 workers, of which none has a seat")?;
    }
    let guard = Guard::new(KeepTexts::new(alloc));
    run_by(rt, alloc, workers, &guard, fail, earlier)
}

/// What they come to by the reducer of the start that has this guard.
fn run_by<G: Gate + Send, W: Threads + Wait + Sync>(
    rt: &W,
    alloc: Global,
    workers: &mut [Worker<G>],
    guard: &Guard<KeepTexts<'_>>,
    fail: &[u64],
    earlier: Option<&[u8]>,
) -> Result<Came, Fail>
    requires some { (1 ≤ length workers.old) × (length workers.old ≤ 16) }
    requires unseated { All (λ w. w.seat ≡ None) workers.old }
{
    if START.len() > TEXT_LIMIT {
        return Err("a start of few bytes")?;
    }
    let reducer = line_reducer(alloc, START, guard)?;
    run_over(rt, alloc, workers, reducer, fail, earlier)
}

/// What they come to by this reducer, which is new.
fn run_over<S: ReducerStep + Drop + Send, G: Gate + Send, W: Threads + Wait + Sync>(
    rt: &W,
    alloc: Global,
    workers: &mut [Worker<G>],
    reducer: S,
    fail: &[u64],
    earlier: Option<&[u8]>,
) -> Result<Came, Fail>
    requires some { (1 ≤ length workers.old) × (length workers.old ≤ 16) }
    requires unseated { All (λ w. w.seat ≡ None) workers.old }
    requires first { S.first reducer ≡ S.plan reducer }
{
    let kept = known_from(alloc, earlier)?;
    let journal = sink_of(alloc, fail)?;
    let start = digest_of(START);
    let count = workers.len() as u32;
    let Ok((board, seats)) = Board::new(alloc, reducer, journal, count, start, kept) else {
        return Err("a board")?;
    };
    let outcome = run_workers(rt, board, seats, workers);
    came_of(alloc, outcome)
}

/// What is left of the outcome of a run.
fn came_of<R: ReducerStep + Drop>(
    alloc: Global,
    outcome: Outcome<R, MemSink>,
) -> Result<Came, Fail> {
    let (text, journal) = copies_of(alloc, outcome.front.result(), outcome.journal.bytes())?;
    Ok(Came {
        fault: outcome.fault,
        text,
        journal,
        events: outcome.events,
    })
}

/// Copies of a text and of a journal.
fn copies_of(alloc: Global, text: &[u8], journal: &[u8]) -> Result<(Vec<u8>, Vec<u8>), Fail> {
    Ok((
        Vec::from_slice(alloc, text)?,
        Vec::from_slice(alloc, journal)?,
    ))
}

/// The record of this number, from 1.
fn record_of(events: &[Event], number: u64) -> Option<(&[u8], Verdict)> {
    let mut count: u64 = 0;
    for event in events {
        if let Event::Recorded { text, verdict, .. } = event {
            count = count.saturating_add(1);
            if count == number {
                return Some((text.as_slice(), *verdict));
            }
        }
    }
    None
}

/// How many records there are of this text, or of all texts.
fn record_count(events: &[Event], wanted: Option<&[u8]>) -> u64 {
    let mut count: u64 = 0;
    for event in events {
        if let Event::Recorded { text, .. } = event {
            if wanted.is_none() || wanted == Some(text.as_slice()) {
                count = count.saturating_add(1);
            }
        }
    }
    count
}

/// Whether the first record is of the start, and no text has two.
fn are_records(events: &[Event]) -> bool {
    for event in events {
        if let Event::Recorded { text, .. } = event {
            if record_count(events, Some(text.as_slice())) != 1 {
                return false;
            }
        }
    }
    match record_of(events, 1) {
        Some((text, _)) => text == START,
        None => false,
    }
}

/// What the reducer was answered, in order: of each commit the verdict and the text, and a byte that no
/// text has.
fn answers_of(alloc: Global, events: &[Event]) -> Result<Vec<u8>, Fail> {
    let mut answers = Vec::new(alloc);
    for event in events {
        if let Event::Committed { number } = event {
            let Some((text, verdict)) = record_of(events, *number) else {
                return Err("a commit names a record")?;
            };
            answers.push(if verdict == Verdict::Yes { b'y' } else { b'n' })?;
            answers.extend_from_slice(text)?;
            answers.push(255)?;
        }
    }
    Ok(answers)
}

/// Whether two events are the same.
fn is_same(event: &Event, other: &Event) -> bool {
    match (event, other) {
        (
            Event::Recorded {
                text,
                verdict,
                kept,
            },
            Event::Recorded {
                text: same,
                verdict: said,
                kept: was_kept,
            },
        ) => { text.as_slice() == same.as_slice() && *verdict == *said && *kept == *was_kept }
        (Event::Committed { number }, Event::Committed { number: same }) => *number == *same,
        _ => false,
    }
}

/// Whether these events are the same.
fn are_same(events: &[Event], others: &[Event]) -> bool {
    if events.len() != others.len() {
        return false;
    }
    for (event, other) in events.iter().zip(others.iter()) {
        if !is_same(event, other) {
            return false;
        }
    }
    true
}

/// What can be read of a journal.
fn read(alloc: Global, journal: &[u8]) -> Result<Journal, JournalFault> {
    let bytes = Bytes::from_slice(alloc, journal)?;
    read_journal(alloc, &bytes)
}

/// Whether the journal can be read, its last event is whole, and its events are those of the outcome.
fn is_journal(alloc: Global, came: &Came) -> bool {
    match read(alloc, &came.journal) {
        Ok(read) => read.torn == 0 && are_same(&read.events, &came.events),
        Err(_) => false,
    }
}

/// So many workers, whose gates say yes where there is a `b`.
fn by_rule(alloc: Global, count: u32) -> Result<Vec<Worker<RuleGate<98>>>, Fail> {
    let mut workers = Vec::new(alloc);
    for earlier in 0..count {
        workers.push(Worker::new(RuleGate::new(alloc, true), earlier + 1))?;
    }
    Ok(workers)
}

/// How many texts the gates of these workers were asked about.
fn asked_by_rule(workers: &[Worker<RuleGate<98>>]) -> u64 {
    let mut asked: u64 = 0;
    for worker in workers {
        if let Some(log) = worker.gate.log() {
            asked = asked.saturating_add(log.asked.len() as u64);
        }
    }
    asked
}

/// Whether a run has come to the result without a fault, its reducer was given these answers, and its
/// journal and its events fit together.
fn is_whole(alloc: Global, came: &Came, answers: &[u8]) -> Result<bool, Fail> {
    let given = answers_of(alloc, &came.events)?;
    Ok(
        came.fault == None
            && came.text.as_slice() == RESULT
            && given.as_slice() == answers
            && are_records(&came.events)
            && is_journal(alloc, came),
    )
}

/// Whether so many workers come to the same with these answers, and each record is of one ask.
fn comes_to_the_same<W: Threads + Wait + Sync>(
    rt: &W,
    alloc: Global,
    count: u32,
    answers: &[u8],
) -> Result<bool, Fail> {
    let mut workers = by_rule(alloc, count)?;
    let came = run_of(rt, alloc, &mut workers, &[])?;
    let records = record_count(&came.events, None);
    Ok(is_whole(alloc, &came, answers)? && records == asked_by_rule(&workers))
}

/// The answers that the reducer is given by one worker.
fn answers_alone<W: Threads + Wait + Sync>(rt: &W, alloc: Global) -> Result<Vec<u8>, Fail> {
    let alone = run_of(rt, alloc, &mut by_rule(alloc, 1)?, &[])?;
    answers_of(alloc, &alone.events)
}

#[test]
fn comes_to_the_same_with_any_number_of_workers(rt: HostRuntime) -> Result<(), Fail> {
    let answers = answers_alone(&rt, rt.alloc())?;
    for count in [1, 2, 4, 16] {
        assert!(rt; comes_to_the_same(&rt, rt.alloc(), count, &answers)?);
    }
    Ok(())
}

/// What so many workers come to with gates that hold their asks until more than so many have begun.
fn held<W: Threads + Wait + Sync>(rt: &W, alloc: Global, width: u32) -> Result<Came, Fail> {
    let shared = Arc::new(alloc, HoldCount::new(width))?;
    let mut workers = Vec::new(alloc);
    for earlier in 0..width {
        let gate = HoldGate::<98>::new(alloc, Arc::try_clone(&shared)?);
        workers.push(Worker::new(gate, earlier + 1))?;
    }
    run_of(rt, alloc, &mut workers, &[])
}

/// Whether those come to the result without a fault.
fn ends_held<W: Threads + Wait + Sync>(rt: &W, alloc: Global, width: u32) -> Result<bool, Fail> {
    let came = held(rt, alloc, width)?;
    Ok(came.fault == None && came.text.as_slice() == RESULT)
}

#[test]
fn runs_two_and_four_scripts_at_once(rt: HostRuntime) -> Result<(), Fail> {
    for width in [2, 4] {
        assert!(rt; ends_held(&rt, rt.alloc(), width)?);
    }
    Ok(())
}

/// What four workers come to if each ask of the gate of this worker has this fault. Their asks are held until
/// more than so many have begun: where these are four, the run can't end before that gate is asked.
fn faulty<W: Threads + Wait + Sync>(
    rt: &W,
    alloc: Global,
    width: u32,
    worker: u32,
    fault: GateFault,
) -> Result<Came, Fail> {
    let shared = Arc::new(alloc, HoldCount::new(width))?;
    let mut workers = Vec::new(alloc);
    for number in 1..5 {
        let count = Arc::try_clone(&shared)?;
        let gate = if number == worker {
            HoldGate::<98>::faulty(alloc, count, fault)
        } else {
            HoldGate::<98>::new(alloc, count)
        };
        workers.push(Worker::new(gate, number))?;
    }
    run_of(rt, alloc, &mut workers, &[])
}

/// Whether that run, whose asks are held, keeps this fault, and its journal is whole.
fn keeps<W: Threads + Wait + Sync>(
    rt: &W,
    alloc: Global,
    worker: u32,
    fault: GateFault,
    kept: PoolFault,
) -> Result<bool, Fail> {
    let came = faulty(rt, alloc, 4, worker, fault)?;
    Ok(came.fault == Some(kept) && is_journal(alloc, &came))
}

#[test]
fn keeps_the_fault_of_one_worker(rt: HostRuntime) -> Result<(), Fail> {
    for worker in 1..5 {
        let failed = PoolFault::Script { worker };
        assert!(rt; keeps(&rt, rt.alloc(), worker, GateFault::Failed, failed)?);
    }
    let memory = Memory::over(Limit::Numbers, usize::MAX);
    assert!(rt;
        keeps(
            &rt,
            rt.alloc(),
            3,
            GateFault::Memory(memory),
            PoolFault::Memory(memory)
        )?
    );
    Ok(())
}

/// Whether that run, whose asks aren't held, comes to the result, or keeps the fault of the worker's script.
fn ends_or_keeps<W: Threads + Wait + Sync>(
    rt: &W,
    alloc: Global,
    worker: u32,
) -> Result<bool, Fail> {
    let came = faulty(rt, alloc, 0, worker, GateFault::Failed)?;
    let has_ended = came.fault == None && came.text.as_slice() == RESULT;
    let has_failed = came.fault == Some(PoolFault::Script { worker });
    Ok((has_ended || has_failed) && is_journal(alloc, &came))
}

#[test]
fn ends_or_names_the_worker_whose_script_fails(rt: HostRuntime) -> Result<(), Fail> {
    for worker in 1..5 {
        assert!(rt; ends_or_keeps(&rt, rt.alloc(), worker)?);
    }
    Ok(())
}

/// Four workers, whose gates say yes and then no; but the third one's fails at its second ask, if it has
/// one.
fn failing_later(alloc: Global) -> Result<Vec<Worker<ListGate>>, Fail> {
    let mut workers = Vec::new(alloc);
    for number in 1..5 {
        let later = if number == 3 { Said::Fail } else { Said::No };
        let answers = Vec::from_slice(alloc, &[Said::Yes])?;
        workers.push(Worker::new(ListGate::new(alloc, answers, later), number))?;
    }
    Ok(workers)
}

/// How many texts the gates of these workers were asked about.
fn asked_in_order(workers: &[Worker<ListGate>]) -> u64 {
    let mut asked: u64 = 0;
    for worker in workers {
        asked = asked.saturating_add(worker.gate.log().asked.len() as u64);
    }
    asked
}

/// Whether these workers come to no fault or to that of the third one's script, and their records are
/// those of their asks.
fn stops_or_ends<W: Threads + Wait + Sync>(rt: &W, alloc: Global) -> Result<bool, Fail> {
    let mut workers = failing_later(alloc)?;
    let came = run_of(rt, alloc, &mut workers, &[])?;
    let failed = Some(PoolFault::Script { worker: 3 });
    Ok(
        (came.fault == None || came.fault == failed)
            && are_records(&came.events)
            && is_journal(alloc, &came)
            && record_count(&came.events, None) == asked_in_order(&workers),
    )
}

/// The others go on with what they ask.
#[test]
fn stops_where_a_script_fails_now_and_then(rt: HostRuntime) -> Result<(), Fail> {
    assert!(rt; stops_or_ends(&rt, rt.alloc())?);
    Ok(())
}

/// Whether so many workers stop with a journal that can be read, where its seventh put fails.
fn stops_with_the_journal<W: Threads + Wait + Sync>(
    rt: &W,
    alloc: Global,
    count: u32,
) -> Result<bool, Fail> {
    let came = run_of(rt, alloc, &mut by_rule(alloc, count)?, &[7])?;
    Ok(came.fault == Some(PoolFault::Journal) && read(alloc, &came.journal).is_ok())
}

#[test]
fn stops_where_the_journal_breaks_off(rt: HostRuntime) -> Result<(), Fail> {
    for count in [1, 2, 4, 16] {
        assert!(rt; stops_with_the_journal(&rt, rt.alloc(), count)?);
    }
    Ok(())
}

/// So many workers, whose gates fail at each ask.
fn failing(alloc: Global, count: u32) -> Result<Vec<Worker<ListGate>>, Fail> {
    let mut workers = Vec::new(alloc);
    for earlier in 0..count {
        let gate = ListGate::new(alloc, Vec::new(alloc), Said::Fail);
        workers.push(Worker::new(gate, earlier + 1))?;
    }
    Ok(workers)
}

/// The verdicts of a journal.
fn kept_in(alloc: Global, journal: &[u8]) -> Result<Kept, Fail> {
    Ok(read(alloc, journal)?.kept(alloc)?)
}

/// A journal of version 1 with the events of this one of version 2.
fn in_version_1(alloc: Global, journal: &[u8]) -> Result<Vec<u8>, Fail> {
    let Some(events) = journal.get(84..) else {
        return Err("a head of 84 bytes")?;
    };
    let mut bytes = Vec::from_slice(alloc, b"perses-journal 1\n")?;
    bytes.extend_from_slice(events)?;
    Ok(bytes)
}

/// Whether a record is kept exactly where an earlier run's journal has its text, and then with that verdict.
fn are_kept_from(earlier: &Kept, events: &[Event]) -> bool {
    for event in events {
        if let Event::Recorded {
            text,
            verdict,
            kept,
        } = event
        {
            let known = earlier.find(text.as_slice());
            if *kept != known.is_some() || (*kept && known != Some(*verdict)) {
                return false;
            }
        }
    }
    true
}

/// How many records are kept.
fn kept_count(events: &[Event]) -> u64 {
    let mut count: u64 = 0;
    for event in events {
        if matches!(event, Event::Recorded { kept: true, .. }) {
            count = count.saturating_add(1);
        }
    }
    count
}

/// What so many workers come to whose gates fail at each ask, and how many texts these were asked about.
fn resumed_failing<W: Threads + Wait + Sync>(
    rt: &W,
    alloc: Global,
    count: u32,
    fail: &[u64],
    journal: &[u8],
) -> Result<(Came, u64), Fail> {
    let mut workers = failing(alloc, count)?;
    let came = run_with(rt, alloc, &mut workers, fail, Some(journal))?;
    Ok((came, asked_in_order(&workers)))
}

/// Whether a run with the verdicts of this journal has come to the same with these answers, and each record
/// that isn't kept is of one of so many asks.
fn is_resumed(
    alloc: Global,
    came: &Came,
    asked: u64,
    journal: &[u8],
    answers: &[u8],
) -> Result<bool, Fail> {
    let is_whole = is_whole(alloc, came, answers)?;
    let records = record_count(&came.events, None);
    let is_asked = records == asked.saturating_add(kept_count(&came.events));
    let earlier = kept_in(alloc, journal)?;
    Ok(is_whole && is_asked && are_kept_from(&earlier, &came.events))
}

/// Whether so many workers with the verdicts of a whole run ask nothing, and come to the same with these
/// answers.
fn resumes_without_an_ask<W: Threads + Wait + Sync>(
    rt: &W,
    alloc: Global,
    count: u32,
    journal: &[u8],
    answers: &[u8],
) -> Result<bool, Fail> {
    let (came, asked) = resumed_failing(rt, alloc, count, &[], journal)?;
    let is_resumed = is_resumed(alloc, &came, asked, journal, answers)?;
    Ok(is_resumed && asked == 0)
}

/// Whether any number of workers do.
fn resume_without_an_ask<W: Threads + Wait + Sync>(
    rt: &W,
    alloc: Global,
    journal: &[u8],
    answers: &[u8],
) -> Result<bool, Fail> {
    for count in [1, 2, 4, 16] {
        if !resumes_without_an_ask(rt, alloc, count, journal, answers)? {
            return Ok(false);
        }
    }
    Ok(true)
}

/// Whether they do with the journal of this whole run, and with that in version 1.
fn resume_after<W: Threads + Wait + Sync>(
    rt: &W,
    alloc: Global,
    whole: &Came,
) -> Result<(bool, bool), Fail> {
    let answers = answers_of(alloc, &whole.events)?;
    let second = resume_without_an_ask(rt, alloc, &whole.journal, &answers)?;
    let journal = in_version_1(alloc, &whole.journal)?;
    let first = resume_without_an_ask(rt, alloc, &journal, &answers)?;
    Ok((second, first))
}

#[test]
fn asks_nothing_that_is_kept(rt: HostRuntime) -> Result<(), Fail> {
    let whole = run_of(&rt, rt.alloc(), &mut by_rule(rt.alloc(), 4)?, &[])?;
    assert_eq!(rt; resume_after(&rt, rt.alloc(), &whole)?, (true, true));
    Ok(())
}

/// Whether so many workers with the verdicts of this journal, in which all are kept, ask nothing and stop
/// where the put of this number fails: with a beginning of it, and the events that are whole there.
fn stops_in_a_recall<W: Threads + Wait + Sync>(
    rt: &W,
    alloc: Global,
    count: u32,
    put: u64,
    journal: &[u8],
) -> Result<bool, Fail> {
    let (came, asked) = resumed_failing(rt, alloc, count, &[put], journal)?;
    Ok(
        came.fault == Some(PoolFault::Journal)
            && journal.starts_with(came.journal.as_slice())
            && has_events(alloc, &came.journal, &came.events)
            && asked == 0,
    )
}

/// Whether these events are whole in the journal, and no others.
fn has_events(alloc: Global, journal: &[u8], events: &[Event]) -> bool {
    match read(alloc, journal) {
        Ok(read) => are_same(&read.events, events),
        Err(_) => false,
    }
}

/// The journal of so many workers, whose gates say yes where there is a `b`. The puts of these numbers fail,
/// from 1.
fn left_by<W: Threads + Wait + Sync>(
    rt: &W,
    alloc: Global,
    count: u32,
    fail: &[u64],
) -> Result<Vec<u8>, Fail> {
    let came = run_of(rt, alloc, &mut by_rule(alloc, count)?, fail)?;
    Ok(came.journal)
}

/// The journal of one worker, in which all records are kept.
fn recalled<W: Threads + Wait + Sync>(rt: &W, alloc: Global) -> Result<Vec<u8>, Fail> {
    let journal = left_by(rt, alloc, 1, &[])?;
    let (came, _) = resumed_failing(rt, alloc, 1, &[], &journal)?;
    Ok(came.journal)
}

#[test]
fn stops_where_a_recall_breaks_off(rt: HostRuntime) -> Result<(), Fail> {
    let journal = recalled(&rt, rt.alloc())?;
    for put in 2..15 {
        for count in [1, 2, 16] {
            assert!(rt; stops_in_a_recall(&rt, rt.alloc(), count, put, &journal)?);
        }
    }
    Ok(())
}

/// What so many workers come to whose gates say yes where there is a `b`, and how many texts these were asked
/// about.
fn resumed_by_rule<W: Threads + Wait + Sync>(
    rt: &W,
    alloc: Global,
    count: u32,
    journal: &[u8],
) -> Result<(Came, u64), Fail> {
    let mut workers = by_rule(alloc, count)?;
    let came = run_with(rt, alloc, &mut workers, &[], Some(journal))?;
    Ok((came, asked_by_rule(&workers)))
}

/// Whether so many workers go on where the journal of a run broke off, ask once for each record that isn't
/// kept, and come to the same with these answers.
fn goes_on_after<W: Threads + Wait + Sync>(
    rt: &W,
    alloc: Global,
    count: u32,
    put: u64,
    answers: &[u8],
) -> Result<bool, Fail> {
    let journal = left_by(rt, alloc, count, &[put])?;
    let (came, asked) = resumed_by_rule(rt, alloc, count, &journal)?;
    is_resumed(alloc, &came, asked, &journal, answers)
}

#[test]
fn resumes_what_another_run_left(rt: HostRuntime) -> Result<(), Fail> {
    let answers = answers_alone(&rt, rt.alloc())?;
    for put in [2, 7, 12, 30] {
        for count in [1, 2, 16] {
            assert!(rt; goes_on_after(&rt, rt.alloc(), count, put, &answers)?);
        }
    }
    Ok(())
}
