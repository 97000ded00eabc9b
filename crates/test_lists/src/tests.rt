//! Rules that answer, and what comes of them.

mod answers;
mod elements;
mod lines;
