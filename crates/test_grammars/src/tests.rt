//! Tests of the crates of grammars.

mod printed_faults;
mod types;
