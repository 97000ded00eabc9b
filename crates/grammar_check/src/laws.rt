//! What follows from the table of faults. Each law is a function that does nothing: a caller calls
//! it so that its proof has the law.

ghost use Rattle.grammar_check.specs.Laws.{FirstFaultOnce, NoFaultIsWellFormed, WellFormedHasNoFault};

/// No fault holds of a grammar that is well-formed for its start.
pub fn well_formed_has_no_fault()
    ensures { WellFormedHasNoFault }
{}

/// A grammar of which no fault holds has its start, and is well-formed for it.
pub fn no_fault_is_well_formed()
    ensures { NoFaultIsWellFormed }
{}

/// A grammar has one first fault at most.
pub fn first_fault_once()
    ensures { FirstFaultOnce }
{}
