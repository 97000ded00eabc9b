//! Guards: which candidates may be asked at all.
//!
//! Enter by [`Guard::new`], over a function that implements [`Relation`], and then `admits`; read the
//! trait [`Relation`] first, and `specs/Keep.antt` for keep texts. [`KeepTexts`] admits a candidate
//! where each of its texts occurs:
//!
//! ```
//! let mut keeps = KeepTexts::new(alloc);
//! keeps.push(b"b\n")?;
//! let guard = Guard::new(keeps);
//! guard.admits(&[0, 2], b"a\nb\n"); // true
//! guard.admits(&[0], b"a\n"); // false
//! ```
#![tactic(auto)]

mod guard;
mod keep;
mod laws;

pub use faults::Memory;
pub use guard::{Guard, Relation};
pub use keep::{KeepTexts, holds_all};
pub use laws::{holds_all_or_misses, occurs_as_part};
