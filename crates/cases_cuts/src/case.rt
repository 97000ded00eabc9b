//! Texts with their trees.

use cases_answers::Language;
use compat_table::Compat;
use lexer::Tokens;
use std::alloc::Global;
use syntax_tree::Tree;

/// A text with its tokens and its tree, and what fits what in its grammar.
#[derive(Drop)]
pub(crate) struct Case<'a> {
    pub(crate) alloc: Global,
    pub(crate) language: &'a Language,
    pub(crate) text: &'a str,
    pub(crate) tokens: Tokens,
    pub(crate) tree: Tree,
    pub(crate) compat: Compat,
}
