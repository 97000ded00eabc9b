//! The trees of lists of kinds.

ghost use Rattle.std.specs.Prelude.{◌≡◌, ◌<◌, ◌^◌, IfErr, IfOk, length};
ghost use Rattle.cases_answers.specs.StartTree.{IsStartTree, kinds_in};
ghost use Rattle.cases_answers.specs.TreeFaults.{IsListFault};

use crate::fault::TreeFault;
use chart_parser::parse;
use faults::Memory;
use lexer::Tokens;
use normal_form::{Normal, Sym};
use std::alloc::Global;
use syntax_tree::Tree;

/// The kinds of the tokens, in their order.
pub fn kinds_of(alloc: Global, tokens: &Tokens) -> Result<Vec<u32>, TreeFault>
    ensures kinds { IfOk result (λ kinds. kinds.items ≡ kinds_in tokens.now.items.items) }
    ensures few { IfOk result (λ kinds. length kinds.items < 2 ^ 32) }
    ensures fault { IfErr result (IsListFault (kinds_in tokens.now.items.items)) }
{
    if tokens.items.len() > u32::MAX as usize {
        return Err(TreeFault::LongList);
    }
    let mut kinds = Vec::new(alloc);
    for token in &tokens.items {
        kinds
            .push(token.kind)
            .map_err(|refused| TreeFault::Memory(Memory::from(refused)))?;
    }
    Ok(kinds)
}

/// The preferred tree of the kinds, from the normal form's start rule; None where that doesn't derive
/// them. Its time is that of [`parse`].
pub fn start_tree(alloc: Global, normal: &Normal, kinds: &[u32]) -> Result<Option<Tree>, TreeFault>
    ensures tree { IfOk result (IsStartTree normal.now kinds.now) }
    ensures fault { IfErr result (IsListFault kinds.now) }
{
    if kinds.len() > u32::MAX as usize {
        return Err(TreeFault::LongList);
    }
    parse(alloc, normal, Sym::Rule(normal.start()), kinds).map_err(TreeFault::Memory)
}
