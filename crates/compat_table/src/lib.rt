//! Which symbols of a normal form fit which slots.
//!
//! A slot is the symbol that a position in a tree asks for. [`compat`] makes the table of a normal
//! form, and [`Compat::fits`] looks a symbol and a slot up in it. What a symbol derives, each slot
//! that it fits derives too ([`slots_derive_more`]): so a tree whose nodes fit their slots stays in
//! the language of the grammar.
//!
//! Read `Fits` in `specs/Fits.antt` first.
#![tactic(auto)]

mod build;
mod laws;
mod nullable;
mod row;
mod search;
mod stars;
mod table;

pub use build::compat;
pub use faults::Memory;
pub use laws::{fits_by_form, fits_through, slots_derive_more};
pub use table::Compat;
