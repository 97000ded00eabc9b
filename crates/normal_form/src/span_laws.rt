//! The laws of spans.

ghost use Rattle.std.specs.Prelude.{ℕ, List};
ghost use Rattle.normal_form.specs.Form.{NormalForm};
ghost use Rattle.normal_form.specs.SpanLaws.{ElementsMoveOn, SpansAreDerived, SpansByForm, SpansJoin};

use crate::form_laws::{elements_are_not_empty, normal_derives_by_form};

/// A symbol derives the kinds between two positions exactly where it derives the list of them, and
/// so do symbols one after another and a symbol any number of times.
pub fn spans_are_derived()
    ensures { (normal : NormalForm) (kinds : List ℕ) → SpansAreDerived normal kinds }
{}

/// How each form of symbol derives between two positions: a kind itself, a set one of its kinds, a
/// regular rule what the alternative with some number does, and so on. Nothing else is derived.
pub fn spans_by_form()
    ensures { (normal : NormalForm) (kinds : List ℕ) → SpansByForm normal kinds }
{
    normal_derives_by_form();
}

/// Symbols one after another, and a symbol any number of times, followed by more of the same.
pub fn spans_join()
    ensures { (normal : NormalForm) (kinds : List ℕ) → SpansJoin normal kinds }
{}

/// In a normal form each element of a star or plus ends after the position where it begins.
pub fn elements_move_on()
    ensures { ElementsMoveOn }
{
    elements_are_not_empty();
}
