//! What follows from the definitions. Each law is a function that does nothing: a caller calls it so
//! that its proof has the law.

ghost use Rattle.descend_replace.specs.Compatible.{FitsIsDecided};
ghost use Rattle.descend_replace.specs.FitsIn.{FitsInDecides, NullableInDecides};
ghost use Rattle.descend_replace.specs.LevelLaws.{LevelsAreChildren};

/// Each symbol fits each slot or doesn't, in every form: there is a procedure that says which.
pub fn fits_is_decided()
    ensures { FitsIsDecided }
{}

/// `nullable_in` is true exactly where the rule derives the empty list.
pub fn nullable_in_decides()
    ensures { NullableInDecides }
{}

/// `fits_in` is true exactly where the symbol fits the slot.
pub fn fits_in_decides()
    ensures { FitsInDecides }
{}

/// Each level below a tree has the children of the level above it, in their order.
pub fn levels_are_children()
    ensures { LevelsAreChildren }
{}
