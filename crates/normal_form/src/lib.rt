//! The normal form of a grammar, over which the reducer's trees are built.
//!
//! Each rule of a [`Normal`] has alternatives of symbols, or is an optional, a star or a plus of one
//! symbol. Each value of the type is the normal form of some checked grammar ([`Normal::is_normal`]),
//! which has the same languages ([`equal_languages`]); the crate `normal_form_build` makes it, and
//! `normal_form_print` prints it.
//!
//! The definitions are in `specs/`: what a normal form is and derives (`Form.antt`,
//! `NormalDerives.antt`; read these first), which rules a grammar's terms give and how they are
//! numbered (`Numbering.antt`, `NormalOf.antt`), and what holds of every normal form (`Symbols.antt`,
//! `FormLaws.antt`), for trees and a parser. In every normal form no rule is on a cycle of left corners
//! ([`no_left_recursion`]).
//!
//! What symbols derive between two positions of a list of token kinds, of which a chart, a parse tree
//! and a choice between two readings speak, is `DerivesSpan` in `Spans.antt`; its laws' statements are
//! in `SpanLaws.antt`. Each law is a function that does nothing: a caller calls it so that its proof
//! has the law, as [`spans_by_form`].
#![tactic(auto)]

mod form_laws;
mod laws;
mod normal;
mod span_laws;

pub use faults::Memory;
pub use form_laws::{
    all_corners_end, corner_chains_are_short, elements_are_not_empty, no_left_recursion,
    normal_derives_by_form, numbers_are_small, parts_are_visible_kinds, rules_are_few,
    sets_are_visible_kinds, symbols_are_known,
};
pub use laws::equal_languages;
pub use normal::{Normal, NormalRule, Sym};
pub use span_laws::{elements_move_on, spans_are_derived, spans_by_form, spans_join};
