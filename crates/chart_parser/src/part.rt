//! What is asked for.

use normal_form::Sym;

/// A symbol that derives the tokens from `first` up to but not including `end`, counted from 0.
#[derive(Clone, Copy)]
pub(crate) struct Part {
    pub(crate) slot: Sym,
    pub(crate) first: u32,
    pub(crate) end: u32,
}

/// A node that is asked for: what it derives, and the number of its parent.
#[derive(Clone, Copy)]
pub(crate) struct Asked {
    pub(crate) part: Part,
    pub(crate) parent: Option<u32>,
}
