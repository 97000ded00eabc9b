//! What is found in a start, and the parts of its reduction.

ghost use Rattle.std.specs.Prelude.{◌≡◌, ◌≤◌, [], IfOk, length};
ghost use Rattle.std.specs.Option.{IfSome};
ghost use Rattle.reduce_step.specs.Limits.{text_limit};
ghost use Rattle.reduce_trees_input.specs.Parsed.{MakesInputOf, tree_input};
ghost use Rattle.grammar_tree.specs.Faults.{IsWellFormed};
ghost use Rattle.keep_guard.specs.Keep.{keeps_admit};
ghost use Rattle.plain_reductions.specs.Found.{IsFound};

use compat_table::compat;
use faults::Memory;
use grammar_tree::Checked;
use keep_guard::{Guard, KeepTexts};
use reduce_step::TEXT_LIMIT;
use reduce_trees::{HasInput, TreeParts};
use reduce_trees_input::{InputFault, ParsedInput, parsed_input};
use std::alloc::Global;

/// What is found in a text of the grammar.
fn found_in(alloc: Global, grammar: &Checked, start: &str) -> Result<ParsedInput, InputFault>
    requires { length start.now ≤ text_limit }
    ensures found { IfOk result IsFound }
    ensures input { IfOk result (MakesInputOf grammar.now start.now) }
{
    grammar.is_checked();
    Ok(parsed_input(alloc, grammar, start.as_bytes())?)
}

/// What is found in a text of the grammar; None where it isn't in its language, or has more than
/// 1,048,576 bytes.
pub(crate) fn found(
    alloc: Global,
    grammar: &Checked,
    start: &str,
) -> Result<Option<ParsedInput>, Memory>
    ensures found { IfOk result (λ found. IfSome found IsFound) }
    ensures input { IfOk result (λ found. IfSome found (MakesInputOf grammar.now start.now)) }
{
    if start.len() > TEXT_LIMIT {
        return Ok(None);
    }
    match found_in(alloc, grammar, start) {
        Ok(found) => Ok(Some(found)),
        Err(InputFault::Memory(memory)) => Err(memory),
        Err(_) => Ok(None),
    }
}

/// The parts of the reducer, where each candidate is admitted.
pub(crate) fn tree_parts<'a>(
    alloc: Global,
    found: ParsedInput,
    squeezes: bool,
) -> Result<TreeParts<KeepTexts<'a>>, Memory>
    requires { IsFound found }
    ensures { IfOk result (λ parts. (formed : IsWellFormed found.lexer.grammar found.lexer.start)
        → ⟦<TreeParts<KeepTexts<'a>> as HasInput>⟧.input parts ≡ tree_input found formed (keeps_admit []) squeezes) }
{
    let compat = compat(alloc, found.tree.normal())?;
    let guard = Guard::new(KeepTexts::new(alloc));
    let ParsedInput {
        text,
        tokens,
        lexer,
        tree,
    } = found;
    let parts = TreeParts::new(text, tokens, lexer, compat, tree, guard, squeezes)?;
    Ok(parts)
}
