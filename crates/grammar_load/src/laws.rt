//! What follows from what a fault of bytes is.

ghost use Rattle.grammar_load.specs.Laws.{GrammarFaultOnce};

/// Bytes have one fault at most, other than out of memory, and with one they spell no well-formed
/// grammar. The function does nothing: a caller calls it so that its proof has the law.
pub fn grammar_fault_once()
    ensures { GrammarFaultOnce }
{}
