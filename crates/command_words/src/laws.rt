//! What holds of command lines. The law is a function that does nothing: a caller calls it so that its
//! proof has the law.

ghost use Rattle.command_words.specs.Worked.{WorkedLines};

/// What worked command lines give, and words that are none.
pub fn worked_lines()
    ensures { WorkedLines }
{}
