//! What a run needs that resumes the journal that it writes, so that no verdict is lost where it is stopped.
//!
//! Enter by [`take_up`], before the top call, and [`SetAside::leave`], after it; read `specs/Joined.antt`
//! first. Such a run reads the journal whole, and then writes it anew: what it hasn't come to yet is in no
//! file any more. So the journal is set aside before, under its name followed by `.resumed`. Where a run was
//! stopped, both files are there, and the next run begins with their [`joined`] events. The copy is made
//! under the name followed by `.joined`, and gets its own once it is on the disk. So from then on one journal,
//! or both together, have a verdict on each text that has got one, until a run comes to its end, or writes the
//! journal without resuming it. The copy is removed then, and verdicts on texts that this run doesn't come to
//! are gone. No file is taken for a copy, written over or removed that doesn't begin as a journal. So the
//! program calls them:
//!
//! ```
//! let aside = take_up(rt, &words)?;
//! let ended = perses(/* .. */);
//! if let Some(aside) = aside {
//!     aside.leave(rt, ended.status)?;
//! }
//! ```
#![tactic(auto)]

mod aside;
mod fault;
mod files;
mod joining;
#[cfg(test)]
mod tests;

pub use aside::{SetAside, take_up};
pub use fault::{AsideCause, AsideFault};
pub use faults::Memory;
pub use files::is_one_file;
pub use joining::joined;
