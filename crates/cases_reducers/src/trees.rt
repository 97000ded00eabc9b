//! The parts of a reduction of trees, from texts.

use compat_table::compat;
use grammar_tree::Checked;
use keep_guard::{Guard, KeepTexts};
use reduce_trees::TreeParts;
use reduce_trees_input::{InputFault, ParsedInput, parsed_input};
use std::alloc::Global;

/// The parts of a reduction of a text of at most 1,000 bytes, in which every text is admitted; none where
/// it is longer.
#[tactic(auto, using(crate::proofs::Ready::has_checked, crate::proofs::Ready::has_tokens, crate::proofs::Ready::has_form, crate::proofs::Ready::has_symbol))]
pub(crate) fn parts_of<'a>(
    alloc: Global,
    grammar: &Checked,
    text: &str,
) -> Result<Option<TreeParts<KeepTexts<'a>>>, InputFault> {
    if text.len() > 1000 {
        return Ok(None);
    }
    grammar.is_checked();
    let found = parsed_input(alloc, grammar, text.as_bytes())?;
    let compat = compat(alloc, found.tree.normal())?;
    let guard = Guard::new(KeepTexts::new(alloc));
    let ParsedInput {
        text,
        tokens,
        lexer,
        tree,
    } = found;
    let parts = TreeParts::new(text, tokens, lexer, compat, tree, guard, false)?;
    Ok(Some(parts))
}
