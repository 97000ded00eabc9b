//! What keep texts mean. Each law is a function that does nothing, which a caller calls so that its
//! proof has the law.

ghost use Rattle.keep_guard.specs.Keep.{HoldsAllOrMisses, OccursAsPart};

/// Bytes occur in a text exactly where it is some text, then the bytes, then some text.
pub fn occurs_as_part()
    ensures { OccursAsPart }
{}

/// Each keep text occurs exactly where none is the first that is missing.
pub fn holds_all_or_misses()
    ensures { HoldsAllOrMisses }
{}
