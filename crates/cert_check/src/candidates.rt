//! Which records have texts that may be asked.

ghost use Rattle.std.specs.Prelude.{◌≡◌, ◌↔◌, ℕ, suc, All, IfOk, IsTrue, MatchOption, Some, slice_get, true};
ghost use Rattle.verdict_table.specs.declared.record.Record.{Record as SomeRecord};
ghost use Rattle.ordered_commit.specs.Replay.{record_at};
ghost use Rattle.cert_check.specs.Findings.{IsFirstOther};

use cert_check_texts::Candidates;
use faults::Memory;
use verdict_table::Record;

/// Whether the record with this index, from 0, is marked.
fn is_marked(marks: &[bool], index: usize) -> bool
    ensures { result ≡ true → slice_get marks.now index ≡ Some true }
{
    match marks.get(index) {
        Some(mark) => *mark,
        None => false,
    }
}

/// Whether the text of a record may be asked, if it is that of one that isn't marked.
fn may_be_asked<C: Candidates>(
    candidates: &C,
    is_marked: bool,
    recorded: &Record,
) -> Result<bool, Memory>
    requires { is_marked ≡ true → C.IsCandidate candidates.now recorded.now.text }
    ensures { IfOk result (λ may. IsTrue may ↔ C.IsCandidate candidates.now recorded.now.text) }
{
    if is_marked {
        return Ok(true);
    }
    candidates.is_candidate(recorded.text.as_slice())
}

/// The number, from 1, of the first record whose text may not be asked. Those of marked ones may, so
/// that the others alone are tested.
pub(crate) fn first_other<C: Candidates>(
    candidates: &C,
    marks: &[bool],
    records: &[Record],
) -> Result<Option<u64>, Memory>
    requires { (index : ℕ) (r : SomeRecord) → slice_get marks.now index ≡ Some true → record_at (suc index) records.now ≡ Some r
        → C.IsCandidate candidates.now r.text }
    ensures { IfOk result (λ other. MatchOption other (All (λ r. C.IsCandidate candidates.now r.text) records.now)
        (IsFirstOther (C.IsCandidate candidates.now) records.now)) }
{
    for index in 0..records.len() {
        let may = may_be_asked(candidates, is_marked(marks, index), &records[index])?;
        if !may {
            return Ok(Some(index as u64 + 1));
        }
    }
    Ok(None)
}
