//! What the names and literals of a grammar's parser rules mean, looked up by text.
//!
//! Begin with [`Names::new`], and ask it for a rule's number, a token's kind, or the kinds of `.` and
//! `~`. Read `name_kind`, `literal_kind` and `rule_number` in `grammar_tree/specs/Kinds.antt` and
//! `Derives.antt` first. Each answer is exact for the grammar that the names were made of.
#![tactic(auto)]

mod index;
mod kinds;
mod names;

pub use faults::Memory;
pub use index::Index;
pub use kinds::{is_among, visible_kinds, without};
pub use names::{Names, literal_of};
