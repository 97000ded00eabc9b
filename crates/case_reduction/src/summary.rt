//! The summary of a reduction.

ghost use Rattle.std.specs.Prelude.{◌≡◌, ◌++◌, IfOk};
ghost use Rattle.reduce_journal.specs.Report.{first_lines};

use faults::Memory;
use reduce_journal::first_lines;
use run_gated::Reduced;
use std::alloc::Global;

/// The summary of a reduction: the first four lines of its report, and the text that is left.
pub(crate) fn summary(alloc: Global, reduced: &Reduced) -> Result<Vec<u8>, Memory>
    ensures { IfOk result (λ text. text.items ≡ first_lines reduced.now.counts ++ reduced.now.text.items) }
{
    let mut text = first_lines(alloc, &reduced.counts)?;
    text.extend_from_slice(&reduced.text)?;
    Ok(text)
}
