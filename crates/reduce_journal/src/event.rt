use script_gate_trait::{Bytes, Verdict};

/// What happened in a reduction.
#[derive(Drop)]
pub enum Event {
    /// A text got its verdict: a record. The records of a history are numbered from 1, in their
    /// order. A verdict is that of a gate, which was asked; or it is kept: taken from the journal of
    /// an earlier run, which this run resumes.
    Recorded {
        text: Bytes,
        verdict: Verdict,
        kept: bool,
    },
    /// The reducer was answered with the verdict of the record with this number.
    Committed {
        number: u64,
    },
}
