//! The laws of printed texts, for the proofs of other crates: each is a function that does nothing.

ghost use Rattle.token_print.specs.Laws.{AllKeptIsStart, KeptKinds, NoLongerThanAll, NoLongerThanStart, NoLongerThanTwice, PrintedOneWay};
ghost use Rattle.token_print.specs.Laws.{PrintedWithSkips, StartKeepsTokens};
ghost use Rattle.token_print.specs.Worked.{WorkedTexts};

/// Kept tokens have one text in a style.
pub fn printed_one_way()
    ensures { PrintedOneWay }
{}

/// What is printed is `printed` with `skips_in`, in a well-formed grammar.
pub fn printed_with_skips()
    ensures { PrintedWithSkips }
{}

/// Where all tokens are kept, the text as it was is the start.
pub fn all_kept_is_start()
    ensures { AllKeptIsStart }
{}

/// The start keeps all of its tokens.
pub fn start_keeps_tokens()
    ensures { StartKeepsTokens }
{}

/// A text that keeps tokens has tokens of their kinds, in their order.
pub fn kept_kinds()
    ensures { KeptKinds }
{}

/// As it was, no text is longer than the start: a separator has at most one byte, and it is printed
/// only where a token is left out, which has at least one.
pub fn no_longer_than_start()
    ensures { NoLongerThanStart }
{}

/// Squeezed, no text has more than twice the bytes of the start, and one more: a separator has at most one
/// byte, each token has one at least, and the final newline is one.
pub fn no_longer_than_twice()
    ensures { NoLongerThanTwice }
{}

/// Squeezed, no text is longer than that of all tokens. This one may be longer than the start.
pub fn no_longer_than_all()
    ensures { NoLongerThanAll }
{}

/// The definition of the printed text gives what was worked out by hand.
pub fn worked_texts()
    ensures { WorkedTexts }
{}
