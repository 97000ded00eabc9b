//! Which alternatives of a parser rule are directly left-recursive, and how many rules of the normal
//! form the rule makes.
//!
//! Begin with [`has_rest`] and [`group_size`]. Read `bases`, `rests` and `group_size` in
//! `grammar_tree/specs/Corners.antt` first.
#![tactic(auto)]

mod counts;
mod laws;
mod recursion;

pub use counts::group_size;
pub use laws::groups_fit;
pub use recursion::{has_base, has_rest, is_recursive};
