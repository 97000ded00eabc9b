//! The board that the workers of a run share: over it they claim texts, record verdicts, and answer the
//! one reducer that is committed to.
//!
//! Read `specs/BoardState.antt` first, then `specs/Kept.antt`: what holds of every board. Enter by
//! [`Board::new`], which gives a [`Seat`] for each worker. A worker recalls and commits while it can, and
//! takes, asks, and records or gives up; each call is a move (`specs/Moves.antt`) or none
//! (`specs/RecallEnds.antt`, `specs/CommitEnds.antt`, `specs/TakeEnds.antt`, `specs/RecordEnds.antt`). A
//! claimed text is pushed into the vector that all workers read; only that push may wait, for another
//! push. So a worker goes on:
//!
//! ```
//! while board.recall()? || board.commit()? {}
//! if let Take::Work(permit) = board.take(rt, &texts, &mut seat)? {
//!     match ask_once(&mut gate, &texts, permit) {
//!         Ok(answer) => { board.record(&mut seat, answer)?; }
//!         Err(unasked) => board.give_up(&mut seat, unasked),
//!     }
//! }
//! ```
//!
//! In whatever order several workers claim, record, recall and commit, the front, which is the reducer
//! that is committed to, is where the history leads (`specs/Replay.antt`), and comes to what one thread
//! comes to over the same records. That is the law [`any_order_holds`] (`specs/Laws.antt`), a function
//! that does nothing: a caller calls it so that its proof has the law.
#![tactic(auto)]

mod board;
mod claim_table;
mod claiming;
mod committing;
mod fault;
mod laws;
mod outcome;
mod recalling;
mod recording;
mod seat;
mod take;

pub use board::Board;
pub use fault::{BoardFault, PoolFault};
pub use faults::Memory;
pub use laws::any_order_holds;
pub use outcome::{Outcome, Refused};
pub use seat::Seat;
pub use take::Take;
