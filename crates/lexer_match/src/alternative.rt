//! The alternatives that are read, and what a reading of one counts.

ghost use Rattle.std.specs.Prelude.{◌≡◌, ◌⊎◌, ◌+◌, ◌<◌, ◌^◌, cond, encode_utf8, false, length, true};

/// An alternative of a kind: the number of its kind, whether it is non-greedy, and the state at
/// which it begins.
#[derive(Clone, Copy)]
pub struct Alternative {
    pub kind: u32,
    pub short: bool,
    pub start: usize,
}

/// Up to where a reading looks at a text. It looks at the end of the text as well where the text could
/// go on to a longer match.
#[derive(Clone, Copy, Debug, PartialEq, Eq)]
pub enum Seen {
    /// Up to where so many bytes of the text remain: what comes after them changes no match.
    Until(usize),

    /// All of the text, and that it ends there.
    All,
}

/// How far an alternative matches a text, and up to where the text was looked at.
#[derive(Clone, Copy)]
pub struct Extent {
    /// The length, in bytes, of the longest match of at least one character; 0 where there is none.
    pub longest: usize,
    pub seen: Seen,
}

/// The length of the longest match, which was the last one, after so many bytes were read.
pub(crate) fn last_match(ended: bool, read: usize, longest: usize) -> usize
    ensures { result ≡ cond ended read longest }
{
    if ended { read } else { longest }
}

/// Whether no longer match of the alternative can come: nothing goes on, or a non-greedy alternative has
/// matched.
pub(crate) fn is_over(ended: bool, goes_on: bool, alternative: Alternative) -> bool
    ensures yes { result ≡ true → (goes_on ≡ false) ⊎ ((ended ≡ true) × (alternative.short ≡ true)) }
    ensures goes_on { result ≡ false → goes_on ≡ true }
    ensures no { result ≡ false → alternative.short ≡ true → ended ≡ false }
{
    if ended && alternative.short {
        return true;
    }
    !goes_on
}

/// How many bytes were read, with the character.
pub(crate) fn bytes_after(read: usize, c: char) -> usize
    requires { read + length (encode_utf8 c) < 2 ^ 64 }
    ensures { result ≡ read + length (encode_utf8 c) }
{
    read + c.len_utf8()
}
