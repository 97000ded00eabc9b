use script_gate_trait::Verdict;

/// What a table holds for a text.
#[derive(Clone, Copy, Debug, PartialEq, Eq)]
pub enum Found {
    /// Neither a record nor an open claim.
    Absent,
    /// An open claim with this number.
    Claimed(u64),
    /// A record: the number of its claim, its own number, counted from 1, and its verdict.
    Filled {
        claim: u64,
        number: u64,
        verdict: Verdict,
    },
}
