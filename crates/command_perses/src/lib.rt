//! The top call: what the program does, over any files, gates, journal and output.
//!
//! Enter by [`perses`], whose contract is the program's, and which only dispatches; [`add_worker`] makes
//! the workers that it takes. Read first what `reduce` promises, sentence by sentence: `Headline` in
//! `specs/Headline.antt`. Each command is a crate of its own; how `reduce` ends, by its status, is
//! `ReduceEnds` in `command_reduce/specs/Reduce.antt`. The line of each status is in `command_ends`. So a
//! program runs over the machine's files and processes:
//!
//! ```
//! let mut files = DiskFiles::new(rt.clone()?, rt.alloc());
//! let mut workers = no_workers(rt.alloc());
//! for _ in 0..16 {
//!     add_worker(&mut workers, ProcessGate::new(rt.clone()?, rt.alloc()))?;
//! }
//! let journal = StreamSink::file(rt.clone()?);
//! let mut out = StreamSink::output(rt.clone()?);
//! let ended = perses(&rt, rt.alloc(), &words, &mut files, &mut workers, journal, &mut out);
//! ```
#![tactic(auto)]

mod call;
mod laws;
mod workers;

pub use call::perses;
pub use command_ends::Ended;
pub use command_normal::normal_by_status;
pub use command_reduce::reduce_by_status;
pub use workers::{add_worker, no_workers};
