//! How far the elements of a list have been gone through.

use crate::tokens::Gap;

/// How far the elements of a list have been gone through, each of which is kept or deleted.
#[derive(Clone, Copy)]
pub(crate) struct Progress {
    /// The position of the next of the children that the list has in the parsed tree.
    pub(crate) position: u32,

    /// How many elements are before it.
    pub(crate) elements: usize,

    /// The gap in the tokens that are left.
    pub(crate) gap: Gap,
}
