//! The table of verdicts, which has each text once.
//!
//! Enter by [`Table`]: `find`, `claim` and `fill` for each text, `into_records` at the end; read
//! `specs/TableState.antt` first. [`Kept`] is a map of verdicts that were learned before. So a verdict is
//! learned:
//!
//! ```
//! if table.find(text.as_slice()) == Found::Absent {
//!     let claim = table.claim(text.share()?)?;
//!     table.fill(claim, gate.ask(text.as_slice())?);
//! }
//! ```
#![tactic(auto)]

mod found;
mod kept;
mod record;
mod table;
mod text_index;

pub use faults::Memory;
pub use found::Found;
pub use kept::Kept;
pub use record::{Record, Records};
pub use table::{Claim, Table};
