//! What nodes are by their rules.

ghost use Rattle.std.specs.Prelude.{◌≡◌, ◌↔◌, Some, IsSome, IsTrue};
ghost use Rattle.normal_form.specs.View.{rule_form};
ghost use Rattle.syntax_tree_cut.specs.declared.shape.Shape.TheVariants.{Optional, Regular};
ghost use Rattle.syntax_tree_cut.specs.Shapes.{shape_of_form, shape_of_symbol};
ghost use Rattle.syntax_tree_cut.specs.inner.Shapes.{fewest_of};

use normal_form::{Normal, NormalRule, Sym};

/// What a node of a tree is by its rule, which says which edits there are at it.
#[derive(Clone, Copy, Debug, PartialEq, Eq)]
pub enum Shape {
    /// A token.
    Leaf,

    /// Any number of elements.
    Star,

    /// Elements, at least one.
    Plus,

    /// One content or none.
    Optional,

    /// One of the rule's alternatives.
    Regular,
}

/// The shape of the nodes of a rule.
fn shape_of_rule(rule: &NormalRule) -> Shape
    ensures { result ≡ shape_of_form (rule_form rule.now) }
{
    match rule {
        NormalRule::Regular(_) => Shape::Regular,
        NormalRule::Star(_) => Shape::Star,
        NormalRule::Plus(_) => Shape::Plus,
        NormalRule::Opt(_) => Shape::Optional,
    }
}

/// The shape of the nodes with this symbol.
pub(crate) fn symbol_shape(normal: &Normal, symbol: Sym) -> Shape
    requires { IsSome (shape_of_symbol normal.now symbol) }
    ensures { shape_of_symbol normal.now symbol ≡ Some result }
{
    match symbol {
        Sym::Kind(_) => Shape::Leaf,
        Sym::Set(_) => Shape::Leaf,
        Sym::Rule(rule) => shape_of_rule(&normal.rules()[rule as usize]),
    }
}

/// Whether a node is an optional.
pub(crate) fn is_optional(shape: Option<Shape>) -> bool
    ensures { IsTrue result ↔ (shape ≡ Some Optional) }
{
    matches!(shape, Some(Shape::Optional))
}

/// Whether a node is regular.
pub(crate) fn is_regular(shape: Option<Shape>) -> bool
    ensures { IsTrue result ↔ (shape ≡ Some Regular) }
{
    matches!(shape, Some(Shape::Regular))
}

/// How many elements a list has at least of which one can be deleted; None for what is no list.
pub(crate) fn fewest_elements(shape: Option<Shape>) -> Option<u32>
    ensures { result ≡ fewest_of shape }
{
    match shape {
        Some(Shape::Star) => Some(1),
        Some(Shape::Plus) => Some(2),
        _ => None,
    }
}
