//! Where a reduction is.

/// What is asked now.
#[derive(Clone, Copy, Debug)]
pub(crate) enum Stage {
    /// The start.
    Start,
    /// A state of what is tried before the rounds.
    Opening,
    /// A state of a round, which has had a yes or not.
    Within(bool),
    /// Nothing more.
    Ended,
}

/// The last yes, and what was counted so far.
#[derive(Drop)]
pub(crate) struct Progress {
    pub text: Vec<u8>,
    pub units: u64,
    pub used: u64,
    pub rounds: u64,
    pub refused: bool,
}
