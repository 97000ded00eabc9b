//! Verdicts that are the same for both reducers.

ghost use Rattle.std.specs.Prelude.{◌≡◌, Some};
ghost use Rattle.plain_reductions.specs.Verdicts.{has_yes, next_number, number_of, verdicts_by};

use script_gate_trait::Verdict;

/// A rule of verdicts: the start has yes, and of the other texts about one in so many.
#[derive(Clone, Copy)]
pub(crate) struct VerdictRule<'a> {
    pub(crate) start: &'a [u8],
    pub(crate) seed: u64,
}

/// The number of a text that is one byte longer.
fn number_after(number: u64, byte: u8) -> u64
    ensures { result ≡ next_number number byte }
{
    (number % 1_000_003 * 257 + byte as u64 + 1) % 1_000_003
}

impl VerdictRule<'_> {
    /// The number that a text has by the seed and its bytes.
    fn number(&self, text: &[u8]) -> u64
        ensures { result ≡ number_of self.now.seed text.now }
    {
        text.iter()
            .fold(self.seed, |number, byte| number_after(number, *byte))
    }

    /// Whether the verdict of the text is yes.
    pub(crate) fn is_yes(&self, text: &[u8]) -> bool
        ensures { result ≡ has_yes self.now.start.now self.now.seed text.now }
    {
        text == self.start || self.number(text) % (self.seed % 4 + 2) == 0
    }

    /// The verdict of the text.
    pub(crate) fn verdict(&self, text: &[u8]) -> Verdict
        ensures { verdicts_by self.now.start.now self.now.seed text.now ≡ Some result }
    {
        if self.is_yes(text) {
            Verdict::Yes
        } else {
            Verdict::No
        }
    }
}
