//! A run of 1 to 16 workers, each with a gate of its own, over one board.
//!
//! Enter by [`run_workers`]. Read `specs/Ends.antt` first, what a run comes to, however the workers
//! interleave, then `specs/Runs.antt`, what names a run, and `specs/inner/Work.antt`, what one worker does.
//! The board is behind one lock. A worker recalls and commits all it can and takes under the lock, asks
//! its gate outside, and records or gives up under the lock. One that finds nothing to take waits until
//! the board has changed. Once all have ended the calling thread goes on with the first worker, so that nothing is
//! left to do. So a reducer runs:
//!
//! ```
//! let (board, seats) = Board::new(alloc, reducer, journal, 2, digest_of(start), Kept::new(alloc))?;
//! let mut workers = vec![in alloc; Worker::new(gate, 1), Worker::new(other_gate, 2)]?;
//! let outcome = run_workers(rt, board, seats, &mut workers);
//! ```
//!
//! An only worker works in the calling thread, without the lock: [`run_alone`]. Read
//! `specs/Sequential.antt` first, what one thread does over given verdicts, then `specs/RunHistory.antt`,
//! what the history of a run is, and `specs/RunEnds.antt`, how a run ends. However a run ends, the gate
//! was asked for those texts of its history that have no kept verdict, in their order, and for no
//! others:
//!
//! ```
//! let (board, seats) = Board::new(alloc, reducer, journal, 1, digest_of(start), Kept::new(alloc))?;
//! let outcome = run_alone(rt, &texts, board, seats, &mut gate);
//! match outcome.fault {
//!     None => println!(rt; "{}", outcome.events.len())?,
//!     Some(fault) => return Err(fault.into()),
//! }
//! ```
//!
//! What is proved is proved of a run that returns: that it does, that two scripts run at once, and that
//! no worker waits for nothing, is not.
#![tactic(auto)]

mod alone;
mod alone_turns;
mod finish;
mod moves;
mod pool;
mod run;
mod start;
mod turns;
mod worker;

pub use alone::run_alone;
pub use start::run_workers;
pub use worker::Worker;
