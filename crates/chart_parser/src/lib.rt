//! The preferred tree of what a symbol of a normal form derives.
//!
//! [`parse`] gives the tree of all tokens of an input, or None where the symbol doesn't derive them.
//! Of several alternatives that derive the tokens the first is taken, and of several ends of a part
//! the greatest from which the rest can go on. Nothing here recurs as deep as a tree.
//!
//! Read `specs/Parse.antt` first: what the answer is; then `specs/inner/Parts.antt`: how the span of a node
//! is cut into those of its children, and `specs/inner/Preorder.antt`: what the nodes that were made and
//! those that are still asked for make together. An ambiguous list is never refused.
#![tactic(auto)]

mod alternative;
mod choice;
mod elements;
mod known;
mod nodes;
mod parser;
mod part;

pub use faults::Memory;
pub use parser::parse;
