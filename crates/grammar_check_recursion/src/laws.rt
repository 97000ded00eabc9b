//! What follows from the definitions.

ghost use Rattle.grammar_check_recursion.specs.Laws.{GroupsFit};

/// A parser rule makes at most four rules more than the size of its alternatives. The function does
/// nothing: a caller calls it so that its proof has the law.
pub fn groups_fit()
    ensures { GroupsFit }
{}
