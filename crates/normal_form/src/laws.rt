//! A grammar and its normal form have equal languages.

ghost use Rattle.normal_form.specs.Laws.{EqualLanguages};

/// Each parser rule of a checked grammar, as it is written, derives the same lists of kinds as its
/// rule in the normal form, direct left recursion included; and so do the two start rules. The
/// function does nothing: a caller calls it so that its proof has the law.
pub fn equal_languages()
    ensures { EqualLanguages }
{}
