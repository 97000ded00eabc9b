//! What follows from the definitions. Each law is a function that does nothing: a caller calls it so
//! that its proof has the law.

ghost use Rattle.normal_form.specs.Form.{NormalForm};
ghost use Rattle.compat_table.specs.Laws.{FitsByForm, FitsThrough, SlotsDeriveMore};

/// What a symbol derives, each slot that it fits derives too.
pub fn slots_derive_more()
    ensures { SlotsDeriveMore }
{}

/// What fits each form of slot beside the slot itself: a set the kinds in it, a regular rule what fits
/// a symbol that can be alone in an alternative, a plus what fits its symbol, a star the pluses of its
/// symbol. Nothing else fits.
pub fn fits_by_form()
    ensures { (form : NormalForm) → FitsByForm form }
{}

/// What fits a symbol that fits a slot fits the slot too, where that symbol isn't a plus.
pub fn fits_through()
    ensures { FitsThrough }
{}
