//! How many there may be of what is counted.

ghost use Rattle.std.specs.Prelude.{◌≡◌};
ghost use Rattle.faults.specs.Limits.{bound_of};

/// Most of what a call makes or does. Where there would be more, the call answers
/// [`Memory`](crate::Memory).
#[derive(Clone, Copy, Debug, PartialEq, Eq)]
pub enum Limit {
    /// 1,000,000 states of an NFA. Without it a short grammar would make a very large one, as fragments
    /// of which each names another one twice.
    States,
    /// 4,000,000 ranges in the sets of an NFA.
    Ranges,
    /// 16,777,216 symbols that fit, for all rules together.
    Symbols,
    /// 2,097,152 pairs of an offset and a token that are tried for one token of a text.
    Tries,
    /// 4,294,967,295, the greatest number of 32 bits, of what has such a number or count.
    Numbers,
}

impl Limit {
    /// How many there are at most.
    pub fn bound(self) -> usize
        ensures { result ≡ bound_of self }
    {
        match self {
            Limit::States => 1_000_000,
            Limit::Ranges => 4_000_000,
            Limit::Symbols => 16_777_216,
            Limit::Tries => 2_097_152,
            Limit::Numbers => 4_294_967_295,
        }
    }
}
