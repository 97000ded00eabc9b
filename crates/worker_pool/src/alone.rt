//! The run of an only worker.

ghost use Rattle.std.specs.Prelude.{◌≡◌, [], IfSome, None, Some, option_map};
ghost use Rattle.verdict_table.specs.TableState.{texts_of, verdict_in};
ghost use Rattle.reduce_journal.specs.History.{asked_records_of, records_of};
ghost use Rattle.reduce_journal.specs.Journal.{journal_text};
ghost use Rattle.ordered_commit.specs.Replay.{replay};
ghost use Rattle.ordered_commit.specs.declared.fault.PoolFault.TheVariants.{Journal};
ghost use Rattle.ordered_commit.specs.Kept.{BrokeWhereDue, IsJournal};
ghost use Rattle.ordered_commit.specs.Made.{new_board};
ghost use Rattle.ordered_commit.specs.Seats.{new_seats};
ghost use Rattle.ordered_commit.specs.Writes.{HasSameName};
ghost use Rattle.worker_pool.specs.RunHistory.{BeginsWith, EndsAtFirst, IsHistoryOf, IsSequential, with_all_asked};
ghost use Rattle.worker_pool.specs.RunEnds.{IsCaused, ReducerEnds};
ghost use Rattle.worker_pool.specs.UnderWay.{AreJournalBytes};

use crate::alone_turns::{commit_all, turn};
use edge_io::Sink;
use gate_permits::Texts;
use ordered_commit::{Board, Outcome, Seat};
use reduce_step::Step;
use script_gate_trait::Gate;
use std::sync::Wait;

/// Asks the gate for what the reducer asks, once for each text that has no kept verdict, until it asks
/// nothing more. It writes the history into the journal as it comes: a verdict when it comes or is recalled,
/// and an answer before the reducer is given it. A fault ends the run at once, and is in the outcome.
///
/// The board is a new one of one worker, with its seat. Beside the answers of the reducer and of the gate,
/// an answer costs a look into the table, which is a search of its records and a copy of the text.
pub fn run_alone<S: Step + Drop, G: Gate, J: Sink + Drop, W: Wait>(
    rt: &W,
    texts: &Texts,
    board: Board<S, G, J>,
    seats: Vec<Seat>,
    gate: &mut G,
) -> Outcome<S, J>
    requires new { board ≡ new_board 1 board.start board.kept board.front board.journal }
    requires seats { seats.items ≡ new_seats 1 }
    requires first { S.first board.front ≡ S.plan board.front }
    requires head { IfSome (J.put_so_far board.journal) (λ put. put.bytes ≡ journal_text board.start []) }

    // The history and its records, whatever ended the run.
    ensures history { IsHistoryOf G.may_say (verdict_in board.kept) (S.first board.front) result.events.items }
    ensures sequential { IsSequential (verdict_in board.kept) result.fault (S.first board.front) result.events.items }
    ensures begun { BeginsWith (S.first board.front) (records_of result.events.items) }
    ensures one { EndsAtFirst (S.first board.front) (records_of result.events.items) }
    ensures asked { G.log gate.new ≡ option_map (with_all_asked (texts_of (asked_records_of result.events.items))) (G.log gate.old) }

    // The end, by the fault.
    ensures first { S.first result.front ≡ S.first board.front }
    ensures ended { ReducerEnds result.fault (S.first board.front) (S.plan result.front) (records_of result.events.items) }
    ensures replayed { result.fault ≡ None → S.plan result.front ≡ replay (S.first board.front) result.events.items }
    ensures caused { IsCaused result.fault (G.faults gate.old) (G.faults gate.new) (J.faults board.journal) (J.faults result.journal) }
    ensures journal { IfSome (J.put_so_far result.journal)
        (λ put. AreJournalBytes board.start (verdict_in board.kept) result.fault result.events.items put.bytes) }
    ensures kept { IfSome (J.put_so_far result.journal) (λ put. IsJournal board.start result.fault result.events.items put.bytes) }
    ensures due { result.fault ≡ Some Journal
        → IfSome (J.put_so_far result.journal) (λ put. BrokeWhereDue (S.first board.front) board.start board.kept result.events.items put.bytes) }
    ensures name { HasSameName J.put_so_far board.journal result.journal }
{
    let mut board = board;
    let mut seats = seats;
    let mut seat = seats[0];
    commit_all(&mut board);
    while turn(rt, texts, &mut board, &mut seat, gate) {}
    seats[0] = seat;
    board.end(seats)
}
