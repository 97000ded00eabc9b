//! The records of what a reducer asks, and the marks of those that it has asked.

ghost use Rattle.std.specs.Prelude.{◌≡◌, ◌≢◌, ◌⊎◌, ◌<◌, ℕ, suc, Some, length, set, slice_get, true};
ghost use Rattle.reduce_step.specs.Plan.{asked};
ghost use Rattle.cert_check.specs.inner.Asked.{IsRecordOf};

use reduce_step::Step;
use script_gate_trait::Verdict;
use verdict_table::{Found, Table};

/// The number, from 1, of the record of the text that the reducer asks, and its verdict.
pub(crate) fn asked_record<S: Step>(reducer: &S, table: &Table) -> Option<(u64, Verdict)>
    ensures { IsRecordOf (asked (S.plan reducer.now)) table.now.records result }
{
    let text = reducer.asks()?;
    match table.find(text) {
        Found::Filled {
            number,
            verdict,
            ..
        } => Some((number, verdict)),
        Found::Absent | Found::Claimed(_) => None,
    }
}

/// Sets the mark with this index, from 0.
fn set_mark(marks: &mut Vec<bool>, index: usize)
    requires { index < length marks.old.items }
    ensures { marks.new.items ≡ set marks.old.items index true }
{
    marks[index] = true;
}

/// Marks the record with this number, from 1.
pub(crate) fn mark(marks: &mut Vec<bool>, number: u64)
    requires { number ≢ 0 }
    ensures as_many { length marks.new.items ≡ length marks.old.items }
    ensures others { (index : ℕ) → slice_get marks.new.items index ≡ Some true
        → (suc index ≡ number) ⊎ (slice_get marks.old.items index ≡ Some true) }
{
    let index = number as usize - 1;
    if index >= marks.len() {
        return;
    }
    set_mark(marks, index);
}
