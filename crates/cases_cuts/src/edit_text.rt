//! Edits of trees, as text.

use crate::edit::Edit;
use anyhow::{Result, bail};
use std::alloc::Global;

/// The number that the word spells.
pub(crate) fn number_of(word: &str) -> Result<u32> {
    Ok(word.parse::<u32>()?)
}

/// The edit of two words: its name and its last argument.
fn edit_of_two(name: &str, last: &str) -> Result<Edit> {
    match name {
        "empty" => Ok(Edit::Empty {
            node: number_of(last)?,
        }),
        _ => bail!("no edit with one argument: {name}"),
    }
}

/// The edit of three words.
fn edit_of_three(name: &str, first: &str, last: &str) -> Result<Edit> {
    let first = number_of(first)?;
    match name {
        "delete" => Ok(Edit::Delete {
            list: first,
            element: number_of(last)?,
        }),
        "replace" => Ok(Edit::Replace {
            node: first,
            by: number_of(last)?,
        }),
        _ => bail!("no edit with two arguments: {name}"),
    }
}

/// The edit that the text spells.
pub(crate) fn edit_of(alloc: Global, text: &str) -> Result<Edit> {
    let words: Vec<&str> = text.split_whitespace().collect(alloc)?;
    match words.as_slice() {
        [name, last] => edit_of_two(name, last),
        [name, first, last] => edit_of_three(name, first, last),
        _ => bail!("no edit: {text}"),
    }
}
