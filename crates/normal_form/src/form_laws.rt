//! What holds of every normal form. Each law is a function that does nothing: a caller calls it so
//! that its proof has the law.

ghost use Rattle.normal_form.specs.Form.{NormalForm};
ghost use Rattle.normal_form.specs.FormLaws.{AllCornersEnd, CornerChainsAreShort, ElementsAreNotEmpty, NoLeftRecursion, NormalDerivesByForm};
ghost use Rattle.normal_form.specs.FormLaws.{NumbersAreSmall, PartsAreVisibleKinds, RulesAreFew, SetsAreVisibleKinds, SymbolsAreKnown};

/// A normal form has at most 65,535 rules, each with its name, and its start rule is one of them.
pub fn rules_are_few()
    ensures { RulesAreFew }
{}

/// Each symbol in a rule is one of the grammar's kinds, or one of the form's sets or rules.
pub fn symbols_are_known()
    ensures { SymbolsAreKnown }
{}

/// Each set is some of the grammar's kinds that aren't gap kinds, in their order. It may have none.
pub fn sets_are_visible_kinds()
    ensures { SetsAreVisibleKinds }
{}

/// Some of a grammar's kinds that aren't gap kinds, in their order: their numbers rise strictly, and
/// each is that of such a kind. All of them have each such number.
pub fn parts_are_visible_kinds()
    ensures { PartsAreVisibleKinds }
{}

/// A regular rule has fewer than 2^32 alternatives, and each of them fewer than 2^32 symbols. There
/// are fewer than 2^32 sets, and fewer than 2^32 kinds.
pub fn numbers_are_small()
    ensures { NumbersAreSmall }
{}

/// The symbol of a star or plus doesn't derive the empty list.
pub fn elements_are_not_empty()
    ensures { ElementsAreNotEmpty }
{}

/// No rule is on a cycle of left corners.
pub fn no_left_recursion()
    ensures { NoLeftRecursion }
{}

/// Left corners lead on by fewer steps than there are rules.
pub fn corner_chains_are_short()
    ensures { CornerChainsAreShort }
{}

/// From each rule left corners lead on by finitely many steps alone, so that a recursion from rules
/// to their left corners ends.
pub fn all_corners_end()
    ensures { AllCornersEnd }
{}

/// How each form of symbol derives: a kind itself, a set one of its kinds, a regular rule what one
/// of its alternatives does, and so on. Nothing else is derived.
pub fn normal_derives_by_form()
    ensures { (form : NormalForm) → NormalDerivesByForm form }
{}
