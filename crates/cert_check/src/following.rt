//! The reduction over the records: the same reducer, answered from them.

ghost use Rattle.std.specs.Prelude.{◌≡◌, ◌↔◌, IsTrue, OnOk};
ghost use Rattle.reduce_journal.specs.History.{History, records_of};
ghost use Rattle.reduce_step.specs.Plan.{HasEnded, Plan, follow};
ghost use Rattle.ordered_commit.specs.Replay.{IsLegal};
ghost use Rattle.verdict_table.specs.TableState.{verdict_in};
ghost use Rattle.cert_check.specs.inner.Asked.{MarkedMayBeAsked};
ghost use Rattle.cert_check.specs.inner.Steps.{IsFindingOfEnd};

use crate::asked::{asked_record, mark};
use crate::finding::{Finding, Why};
use faults::Memory;
use reduce_rounds::ReducerStep;
use reduce_step::Step;
use verdict_table::Table;

/// Answers the reducer from the records, until it asks nothing or a text that has no record, and marks
/// those that it asks. Each answer costs a look into the table, and what the reducer's answer costs.
pub(crate) fn follow_records<S: Step>(
    reducer: &mut S,
    table: &Table,
    marks: &mut Vec<bool>,
) -> Result<(), Memory>
    ensures followed { OnOk result (S.plan reducer.new ≡ follow (verdict_in table.now.records) (S.plan reducer.old)) }
    ensures marked { OnOk result ((first : Plan) → MarkedMayBeAsked first (S.plan reducer.old) table.now.records marks.old.items
        → MarkedMayBeAsked first (S.plan reducer.new) table.now.records marks.new.items) }
{
    while let Some((number, verdict)) = asked_record(reducer, table) {
        reducer.answer(verdict)?;
        mark(marks, number);
    }
    Ok(())
}

/// Whether the reducer asks nothing more.
fn has_ended<S: Step>(reducer: &S) -> bool
    ensures { IsTrue result ↔ HasEnded (S.plan reducer.now) }
{
    reducer.asks().is_none()
}

/// What is found of a reducer that was followed over the records: whether it has ended, with another
/// start than no, and with this output.
pub(crate) fn end_of<S: ReducerStep>(reducer: &S, output: &[u8]) -> Finding
    ensures { (first : Plan) (history : History) → IsLegal first history → S.plan reducer.now ≡ follow (verdict_in (records_of history)) first
        → IsFindingOfEnd first output.now history result }
{
    if !has_ended(reducer) {
        return Finding::No(Why::Unfinished);
    }
    if reducer.refused() {
        return Finding::No(Why::StartIsNo);
    }
    if reducer.result() == output {
        return Finding::Yes;
    }
    Finding::No(Why::OtherResult)
}
