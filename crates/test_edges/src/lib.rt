//! Tests of files and sinks, in memory and over the machine; of these and of the files of candidates also
//! over a machine that takes one byte at a time (`src/tests/machine.rt`), where what writes a part and is
//! content with it shows, and on which what replaces a file can fail. And tests of verdicts: of the gates
//! that say them, in memory and over real scripts, of the permits by which they are asked for, and of the
//! table that keeps them.
//!
//! A test is a table of calls with the answers that are wanted; one of real files or scripts runs in a
//! folder of its own name, which it removes at its end.
#![tactic(auto)]

#[cfg(test)]
mod tests;
