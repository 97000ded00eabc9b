//! Prints what is known of printed texts, for the gate to compare with what was worked out by hand or by
//! a model: the texts of kept tokens, and whether they keep them (`prints`), and what is found round the
//! joins of such texts (`joins`).
#![tactic(auto)]

mod joins;
mod prints;

use crate::joins::show_joins;
use crate::prints::show_prints;
use anyhow::{Result, bail};
use lexer::Lexer;
use std::alloc::Global;
use test_grammars::checked;

/// Kept tokens with a space between them are gap text, and they come again from a gap.
pub(crate) const HASHES: &str =
    "grammar Z; s : 'a' '-'? 'q' EOF ; Z : 'a q#' -> skip ; H : '#' [a-z]* -> skip ; WS : ' ' -> skip ;";

/// The lexer of the grammar that the text spells.
pub(crate) fn lexer_of(alloc: Global, grammar: &str) -> Result<Lexer> {
    match checked(alloc, grammar, None) {
        Ok(grammar) => Ok(Lexer::build(alloc, &grammar)?),
        Err(refused) => bail!("refused: {refused:?}"),
    }
}

fn main(rt: HostRuntime) -> Result<()> {
    let alloc = rt.alloc();
    show_prints(&rt, alloc)?;
    show_joins(&rt, alloc)
}
