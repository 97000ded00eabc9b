//! Texts that begin with others.

ghost use Rattle.std.specs.Prelude.{◌≡◌, ◌≢◌, ◌++◌, ℕ, List, MatchOption, drop};

/// What is after the prefix, if the text begins with it.
pub(crate) fn rest_after<'a>(text: &'a [u8], prefix: &[u8]) -> Option<&'a [u8]>
    ensures { MatchOption result ((rest : List ℕ) → text.now ≢ prefix.now ++ rest) (λ rest. text.now ≡ prefix.now ++ rest.now) }
{
    text.strip_prefix(prefix)
}

/// The text from the offset on; nothing where the text ends before it.
pub(crate) fn rest_from(text: &[u8], offset: usize) -> &[u8]
    ensures { result.now ≡ drop offset text.now }
{
    if offset <= text.len() {
        &text[offset..]
    } else {
        &[]
    }
}
