//! What is said of words that are no command line, of places in a text, and of a run.

use crate::{decoded, first_of, number_of, words_of};
use notice_counts::{Counts, RunKind, Snapshot, progress_text};
use notice_places::{excerpt_at, place_after};
use notice_words::{USAGE, word_fault};
use std::alloc::{AllocError, Global};
use std::time::Duration;

/// What is known of each run.
const KIND: RunKind = RunKind {
    mode: "hdd",
    jobs: 4,
};

/// Adds what is said of the words of a line; `nothing` where nothing wrong is found.
pub(crate) fn add_fault(out: &mut String, alloc: Global, line: &str) -> Result<(), AllocError> {
    let words = words_of(alloc, line)?;
    match word_fault(&words) {
        Some(fault) => write!(out, "{fault}"),
        None => out.push_str("nothing"),
    }
}

/// Adds whether the text on how the program is used has at most so many lines, each of at most so many
/// characters.
pub(crate) fn add_usage(out: &mut String, most: &str) -> Result<(), AllocError> {
    let (lines, characters) = first_of(most);
    let most = number_of(characters);
    let are_few = USAGE.lines().count() as u64 <= number_of(lines);
    let are_short = USAGE
        .lines()
        .all(|line| line.chars().count() as u64 <= most);
    out.push_str(if are_few && are_short {
        "fits"
    } else {
        "is more"
    })
}

/// Adds where the byte after these bytes is.
pub(crate) fn add_place(out: &mut String, alloc: Global, text: &str) -> Result<(), AllocError> {
    let place = place_after(&decoded(alloc, text)?);
    write!(out, "line {}, column {}", place.line, place.column)
}

/// Adds how the place at this offset of the bytes is shown, by a line of at most so many characters, and below
/// it a mark.
fn add_shown(
    out: &mut String,
    alloc: Global,
    bytes: &[u8],
    offset: u64,
    width: u64,
) -> Result<(), AllocError> {
    let found = excerpt_at(alloc, bytes, offset as usize, width as usize)?;
    write!(out, "{}\n{}", found.line, found.mark)
}

/// Adds how the place at this offset of a text is shown. The offset, the width and the text are given.
pub(crate) fn add_excerpt(out: &mut String, alloc: Global, text: &str) -> Result<(), AllocError> {
    let (offset, text) = first_of(text);
    let (width, text) = first_of(text);
    let bytes = decoded(alloc, text)?;
    add_shown(out, alloc, &bytes, number_of(offset), number_of(width))
}

/// The numbers of a line.
fn numbers_of(alloc: Global, line: &str) -> Result<Vec<u64>, AllocError> {
    let mut numbers = Vec::new(alloc);
    for word in line.split(' ') {
        numbers.push(number_of(word))?;
    }
    Ok(numbers)
}

/// What is counted: how many scripts are asked just now, how many were asked, and how many of these said yes; the
/// records; and the bytes of the start and of the best text. Nothing is counted where there are no six numbers.
fn counted_of(numbers: &[u64]) -> Snapshot {
    let mut counted = Counts::new().snapshot();
    if let [busy, asked, yes, records, start_bytes, best_bytes] = numbers {
        counted.busy = *busy;
        counted.asked = *asked;
        counted.yes = *yes;
        counted.records = *records;
        counted.start_bytes = *start_bytes;
        counted.best_bytes = *best_bytes;
    }
    counted
}

/// Adds the line of a run after so many milliseconds, in which so much is counted.
pub(crate) fn add_progress(out: &mut String, alloc: Global, text: &str) -> Result<(), AllocError> {
    let (milliseconds, numbers) = first_of(text);
    let counted = counted_of(&numbers_of(alloc, numbers)?);
    let took = Duration::from_millis(number_of(milliseconds));
    let line = progress_text(alloc, KIND, took, &counted)?;
    out.push_str(line.as_str())
}
