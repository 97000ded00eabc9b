//! Command lines: which words are one, and what they ask for.
//!
//! Enter by [`read_words`]. Read `specs/Tables.antt` first, the table of each command's options; then
//! `options_in` in `specs/Options.antt`, what the words give by such a table; and `command_line_of` in
//! `specs/Commands.antt`, what a command line asks for. Worked command lines are in
//! `specs/Worked.antt`. The options are read by `clap`, as one command without subcommands.
#![tactic(auto)]

mod check;
mod commands;
mod grammar;
mod laws;
mod mode;
mod normal;
mod options;
mod protects;
mod reduce;
mod selftest;
mod values;
mod words;

pub use commands::{
    CheckLine, CommandLine, GrammarLine, LineSpan, ModeLine, NamedGrammar, ProtectLine, ReduceLine,
    SelftestLine,
};
pub use faults::Memory;
pub use laws::worked_lines;
pub use reduce::journal_name;
pub use words::read_words;
