//! What follows from what a summary is. The law is a function that does nothing: a caller calls it so
//! that its proof has the law.

ghost use Rattle.case_reduction.specs.Laws.{SummariesAreOne};

use crate::language_laws::mini_is_spelled;
use reduce_trees_input::inputs_are_one;

/// A program has one summary at most in a mode.
pub fn summaries_are_one()
    ensures { SummariesAreOne }
{
    mini_is_spelled();
    inputs_are_one();
}
