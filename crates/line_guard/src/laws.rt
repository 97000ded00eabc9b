//! What holds of lines and of protected numbers. Each law is a function that does nothing, which a caller
//! calls so that its proof has the law.

ghost use Rattle.line_guard.specs.Laws.{AllKeepProtected, LinesHoldTheirBytes, NothingIsProtected};

/// Each byte of a text is in the line that is said to hold it.
pub fn lines_hold_their_bytes()
    ensures { LinesHoldTheirBytes }
{}

/// Where all lines or tokens are kept, so are those that are protected.
pub fn all_keep_protected()
    ensures { AllKeepProtected }
{}

/// Where nothing is wished for, the keep texts alone say what is admitted.
pub fn nothing_is_protected()
    ensures { NothingIsProtected }
{}
