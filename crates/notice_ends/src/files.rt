//! Files that can't be read or written, or are too long.

use std::alloc::AllocError;
use std::io;

/// The file of this name failed for this reason, where one is known.
pub(crate) fn add_failure(
    text: &mut String,
    name: &str,
    reason: Option<io::Error>,
) -> Result<(), AllocError> {
    match reason {
        Some(reason) => write!(text, "perses: {name}: {reason}\n"),
        None => write!(text, "perses: {name} failed\n"),
    }
}

/// The file of this name has more bytes than are taken.
pub(crate) fn add_too_long(text: &mut String, name: &str) -> Result<(), AllocError> {
    write!(
        text,
        "perses: {name} is too long: an input or a grammar has at most 1048576 bytes, a journal 1073741824\n"
    )
}

/// The file of this name, of a run that is checked, has more bytes than are taken.
pub(crate) fn add_run_too_long(text: &mut String, name: &str) -> Result<(), AllocError> {
    write!(
        text,
        "perses: {name} is too long: a result has at most 1048576 bytes, a journal 1073741824\n"
    )
}
