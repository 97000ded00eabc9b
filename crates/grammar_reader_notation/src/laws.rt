//! What follows from the definitions. Each law is a function that does nothing: a caller calls it
//! so that its proof has the law.

ghost use Rattle.grammar_reader_notation.specs.Naming.{NamedOnce};
ghost use Rattle.grammar_reader_notation.specs.Reads.{FaultsOnce};

/// A word that can't follow has one name at most.
pub fn named_once()
    ensures { NamedOnce }
{}

/// A text has at most one first word that can't follow, and one fault for it.
pub fn faults_once()
    ensures { FaultsOnce }
{}
