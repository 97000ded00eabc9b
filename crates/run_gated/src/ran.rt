//! What a run has come to.

ghost use Rattle.std.specs.Prelude.{◌≡◌, [], Err};

use crate::fault::RunFault;
use reduce_journal::{Counts, Event};
use std::alloc::Global;

/// A reduction that came to its end.
#[derive(Drop)]
pub struct Reduced {
    /// The text that is left.
    pub text: Vec<u8>,
    /// What the report says.
    pub counts: Counts,
}

/// What a run has come to.
#[derive(Drop)]
pub struct Ran<J> {
    /// The journal.
    pub journal: J,
    /// What was recorded and committed, in order.
    pub events: Vec<Event>,
    /// The result, or why there is none.
    pub outcome: Result<Reduced, RunFault>,
}

impl<J> Ran<J> {
    /// A run that ended before anything was recorded.
    pub fn refused(alloc: Global, journal: J, fault: RunFault) -> Ran<J>
        ensures journal { result.journal ≡ journal }
        ensures events { result.events.items ≡ [] }
        ensures outcome { result.outcome ≡ Err fault }
    {
        Ran {
            journal,
            events: Vec::new(alloc),
            outcome: Err(fault),
        }
    }
}
