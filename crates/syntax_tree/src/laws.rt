//! What follows from the definitions of valid and preferred trees. Each law is a function that does
//! nothing: a caller calls it so that its proof has the law.

ghost use Rattle.syntax_tree.specs.Laws.{ElementsHaveTokens, NumbersDontMatter, PreferredTreesAreOne, PreferredTreesAreValid, ValidTreesAreDerived};

use normal_form::{elements_are_not_empty, spans_by_form};

/// A slot derives the kinds of each tree that is valid for it.
pub fn valid_trees_are_derived()
    ensures { ValidTreesAreDerived }
{}

/// A preferred tree is valid for its symbol, and its leaves are the tokens of its span, with their
/// kinds.
pub fn preferred_trees_are_valid()
    ensures { PreferredTreesAreValid }
{
    spans_by_form();
}

/// There is one preferred tree at most, up to the numbers of its nodes.
pub fn preferred_trees_are_one()
    ensures { PreferredTreesAreOne }
{
    spans_by_form();
}

/// A preferred tree with other numbers is preferred too.
pub fn numbers_dont_matter()
    ensures { NumbersDontMatter }
{}

/// Each element of a star or plus has a leaf, so that a list without one of its elements is smaller.
pub fn elements_have_tokens()
    ensures { ElementsHaveTokens }
{
    elements_are_not_empty();
}
