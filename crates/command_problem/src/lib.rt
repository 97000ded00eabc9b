//! What a command line names to be reduced, read from its files: the lines of an input, or its tree by a
//! grammar.
//!
//! Enter by [`read_tree`]. Read `ProblemRead` in `specs/Problem.antt` first, that a problem was read, and
//! then `specs/Read.antt`, why none was.
#![tactic(auto)]

mod read;

pub use read::{ReadTree, read_tree};
