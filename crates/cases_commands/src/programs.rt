//! Generated programs and their grammar.

use crate::{decoded, first_of};
use case_maker::{make_case, mini_grammar};
use faults::Memory;
use std::alloc::Global;

/// The number that the word spells; 0 where it spells none.
fn number_of(word: &str) -> u32 {
    word.parse::<u32>().unwrap_or(0)
}

/// The program of this number and size; nothing where there is none of this size.
fn program_of(alloc: Global, number: u32, size: u32) -> Result<Vec<u8>, Memory> {
    if size < 1 || size > 1500 {
        return Ok(Vec::new(alloc));
    }
    make_case(alloc, number, size)
}

/// The program whose number and size are given.
fn program_named(alloc: Global, text: &str) -> Result<Vec<u8>, Memory> {
    let (number, size) = first_of(text);
    program_of(alloc, number_of(number), number_of(size))
}

fn text_of(bytes: &[u8]) -> &str {
    str::from_utf8(bytes).unwrap_or("not UTF-8")
}

/// Adds the program whose number and size are given.
pub(crate) fn add_program(out: &mut String, alloc: Global, text: &str) -> Result<(), Memory> {
    let program = program_named(alloc, text)?;
    Ok(out.push_str(text_of(&program))?)
}

/// Adds how many bytes the program has whose number and size are given.
pub(crate) fn add_length(out: &mut String, alloc: Global, text: &str) -> Result<(), Memory> {
    let length = program_named(alloc, text)?.len();
    Ok(write!(out, "{length} bytes")?)
}

/// How often the piece is in the program.
fn count_in(program: &[u8], piece: &[u8]) -> usize {
    text_of(program).matches(text_of(piece)).count()
}

/// Adds how often a piece is in a program. The program's number, its size and the piece are given.
pub(crate) fn add_count(out: &mut String, alloc: Global, text: &str) -> Result<(), Memory> {
    let (number, text) = first_of(text);
    let (size, piece) = first_of(text);
    let piece = decoded(alloc, piece)?;
    let program = program_of(alloc, number_of(number), number_of(size))?;
    Ok(write!(out, "{}", count_in(&program, &piece))?)
}

/// Adds whether the grammar of the programs begins with this piece, and how many newlines it has.
pub(crate) fn add_grammar(out: &mut String, alloc: Global, piece: &str) -> Result<(), Memory> {
    let piece = decoded(alloc, piece)?;
    let begins = mini_grammar().starts_with(piece.as_slice());
    let newlines = mini_grammar().iter().filter(|byte| **byte == b'\n');
    Ok(write!(out, "begins {begins}, newlines {}", newlines.count())?)
}
