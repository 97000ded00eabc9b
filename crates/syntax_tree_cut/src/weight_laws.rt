//! What follows of weights. The law is a function that does nothing: a caller calls it so that its
//! proof has the law.

ghost use Rattle.syntax_tree_cut.specs.WeightLaws.{WeightsCountLeaves};

/// A tree has as many leaves as its weight says.
pub fn weights_count_leaves()
    ensures { WeightsCountLeaves }
{}
