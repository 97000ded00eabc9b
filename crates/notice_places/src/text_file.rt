ghost use Rattle.std.specs.Prelude.{◌≡◌, ◌≤◌, length, false};

use crate::excerpt::excerpt_at;
use std::alloc::{AllocError, Global};
use std::fmt::Display;

/// The longest text that is looked at again, in bytes.
pub(crate) const MOST_BYTES: usize = 1_048_576;

/// A file as it was read.
#[derive(Clone, Copy, Debug)]
pub struct TextFile<'a> {
    /// Its path.
    pub path: &'a str,
    /// Its bytes.
    pub bytes: &'a [u8],
    /// The columns that a line of it is shown in.
    pub width: usize,
}

impl TextFile<'_> {
    /// Whether it is too long to be looked at again.
    pub(crate) fn is_too_long(&self) -> bool
        ensures { (result ≡ false) → length self.now.bytes.now ≤ 1048576 }
    {
        self.bytes.len() > MOST_BYTES
    }

    /// Shows the byte at the offset, and what is said of it.
    pub(crate) fn add_place<D: Display>(
        &self,
        text: &mut String,
        alloc: Global,
        offset: usize,
        said: &D,
    ) -> Result<(), AllocError> {
        let path = self.path;
        let found = excerpt_at(alloc, self.bytes, offset, self.width)?;
        let (place, line, mark) = (found.place, found.line, found.mark);
        let (row, column) = (place.line, place.column);
        write!(
            text,
            "perses: {path}:{row}:{column}: {said}\n{line}\n{mark}\n"
        )
    }
}
