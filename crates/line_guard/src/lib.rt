//! Lines that must stay, and the tokens on them.
//!
//! Enter by [`LineIndex::of`], then [`protected_lines`] or [`protected_tokens`], and give what they find
//! to [`MustStay`], the relation of a guard. Read `specs/Protected.antt` first, which lines and tokens a
//! [`Wish`] protects, and then `specs/MustStay.antt`, what the relation admits:
//!
//! ```
//! let index = LineIndex::of(alloc, b"a\nb\n")?;
//! let wishes = [Wish::Lines { first: 2, last: 2 }];
//! let numbers = protected_lines(alloc, b"a\nb\n", &index, &wishes)?; // 1
//! let guard = Guard::new(MustStay::new(KeepTexts::new(alloc), numbers));
//! guard.admits(&[1], b"b\n"); // true
//! guard.admits(&[0], b"a\n"); // false
//! ```
#![tactic(auto)]

mod index;
mod laws;
mod must_stay;
mod numbers;
mod protected;
#[cfg(test)]
mod tests;
mod wish;

pub use faults::Memory;
pub use index::LineIndex;
pub use keep_guard::{Guard, KeepTexts};
pub use laws::{all_keep_protected, lines_hold_their_bytes, nothing_is_protected};
pub use must_stay::MustStay;
pub use numbers::{Numbers, keeps_numbers};
pub use protected::{protected_lines, protected_tokens};
pub use wish::Wish;
