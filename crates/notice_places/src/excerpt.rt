//! The line of a place, cut to a width, with a mark below the place.

ghost use Rattle.std.specs.Prelude.{◌≤◌};

use crate::place::{Place, is_newline, place_after};
use std::alloc::{AllocError, Global};

/// A place in a text, and what is to be seen there.
#[derive(Debug, Drop)]
pub struct Excerpt {
    /// The place.
    pub place: Place,
    /// Its line, or the part round the place.
    pub line: String,
    /// Blanks, and a mark that is below the place.
    pub mark: String,
}

/// What is before the first newline.
fn line_end(bytes: &[u8]) -> &[u8] {
    match bytes.iter().position(|byte| is_newline(*byte)) {
        Some(end) => &bytes[..end],
        None => bytes,
    }
}

/// What is after the last newline.
fn line_start(bytes: &[u8]) -> &[u8] {
    match bytes.iter().rposition(|byte| is_newline(*byte)) {
        Some(end) => &bytes[end + 1..],
        None => bytes,
    }
}

/// The bytes as text for one line: a blank for each character that isn't shown as one.
fn shown(alloc: Global, bytes: &[u8]) -> Result<String, AllocError> {
    let text = String::from_utf8_lossy(alloc, bytes)?;
    let mut line = String::new(alloc);
    for character in text.chars() {
        line.push(if character.is_control() {
            ' '
        } else {
            character
        })?;
    }
    Ok(line)
}

/// How many of the characters before the place aren't shown.
fn hidden_before(column: usize, width: usize) -> usize
    ensures { result ≤ column }
{
    if column < width {
        0
    } else {
        column - width / 2
    }
}

/// The place of the byte at `offset` of a text, and its line. Of a line that is longer than `width`
/// characters that part is shown in which the place is, at most in the middle.
pub fn excerpt_at(
    alloc: Global,
    text: &[u8],
    offset: usize,
    width: usize,
) -> Result<Excerpt, AllocError> {
    let (before, after) = text.split_at(offset.min(text.len()));
    let front = shown(alloc, line_start(before))?;
    let back = shown(alloc, line_end(after))?;
    let column = front.chars().count();
    let hidden = hidden_before(column, width);
    let indent = column - hidden;
    let mut line = String::new(alloc);
    for character in front.chars().skip(hidden) {
        line.push(character)?;
    }
    for character in back.chars().take(width.saturating_sub(indent)) {
        line.push(character)?;
    }
    Ok(Excerpt {
        place: place_after(before),
        line,
        mark: mark_at(alloc, indent)?,
    })
}

/// So many blanks, and a mark.
fn mark_at(alloc: Global, indent: usize) -> Result<String, AllocError> {
    let mut mark = String::new(alloc);
    for _ in 0..indent {
        mark.push(' ')?;
    }
    mark.push('^')?;
    Ok(mark)
}
