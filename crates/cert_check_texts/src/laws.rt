//! What follows from the definitions. Each law is a function that does nothing: a caller calls it so that
//! its proof has the law.

ghost use Rattle.cert_check_texts.specs.Laws.{TextsAreCandidates, TextsAreShort};

use token_print::{no_longer_than_start, no_longer_than_twice};

/// The texts of a start that may be asked are the candidates of its reduction.
pub fn texts_are_candidates()
    ensures { TextsAreCandidates }
{}

/// No such text has more than twice the bytes of the start, and one more: squeezed, there is at most one
/// byte between two tokens, and one at the end.
pub fn texts_are_short()
    ensures { TextsAreShort }
{
    no_longer_than_start();
    no_longer_than_twice();
}
