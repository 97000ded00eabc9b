//! The content of literals and sets, read piece by piece.

ghost use Rattle.std.specs.Prelude.{◌≡◌, ◌<◌, ◌≤◌, ◌+◌, ◌*◌, ◌^◌, ℕ, IfSome, length, take};
ghost use Rattle.std.specs.Str.{chars};
ghost use Rattle.grammar_reader_words.specs.Cursor.{seen};
ghost use Rattle.grammar_reader_words.specs.inner.Cursor.{seen_piece};
ghost use Rattle.grammar_reader_words.specs.Quoted.{as_character, as_code, braced_hex, escape, escape_by, hex_after, hex_digit, hex_escape};
ghost use Rattle.grammar_reader_words.specs.Quoted.{literal_piece, plain_hex, property, property_name, set_escape, set_escape_by, set_piece};

use crate::text::{begins_with, begins_with_letter, first_char, hex_len, name_len, skip};

/// A piece of a set.
#[derive(Clone, Copy, Debug, PartialEq, Eq, Drop)]
pub enum Mark {
    /// A character or a surrogate, by its number.
    Code(u32),

    /// A `-` without `\`.
    Dash,

    /// `\p{..}` or `\P{..}`.
    Property,
}

/// What is next in a literal or a set, and what follows it.
#[derive(Drop)]
pub enum Piece<'a, T> {
    /// Neither a piece nor the closing sign.
    Broken,
    Closed(&'a str),
    One(T, &'a str),
}

/// What a hexadecimal digit is worth.
fn hex_digit(c: char) -> u32
    ensures same { result ≡ hex_digit c }
    ensures small { result < 16 }
{
    c.to_digit(16).unwrap_or(0)
}

/// The number that the first `n` characters write, at most six hexadecimal digits.
fn hex_value(text: &str, n: usize) -> u32
    requires { n ≤ 6 }
    ensures { result ≡ hex_after 0 (take n (chars text.now)) }
{
    let mut value = 0;
    let mut rest = text;
    let mut read = 0;
    while read < n {
        match first_char(rest) {
            None => return value,
            Some((c, after)) => {
                value = value * 16 + hex_digit(c);
                rest = after;
            }
        }
        read += 1;
    }
    value
}

/// `X}` of an escape `\u{X}`: the number, and what follows it.
fn braced_hex(text: &str) -> Option<(u32, &str)>
    ensures { seen result ≡ braced_hex (chars text.now) }
{
    let n = hex_len(text);
    if n >= 1 && n <= 6 && begins_with(skip(text, n), '}') {
        Some((hex_value(text, n), skip(text, n + 1)))
    } else {
        None
    }
}

/// `XXXX` of an escape `\uXXXX`: the number, and what follows it.
fn plain_hex(text: &str) -> Option<(u32, &str)>
    ensures { seen result ≡ plain_hex (chars text.now) }
{
    if hex_len(text) >= 4 {
        Some((hex_value(text, 4), skip(text, 4)))
    } else {
        None
    }
}

fn hex_escape(text: &str) -> Option<(u32, &str)>
    ensures { seen result ≡ hex_escape (chars text.now) }
{
    match first_char(text) {
        None => None,
        Some((c, rest)) => {
            if c == '{' {
                braced_hex(rest)
            } else {
                plain_hex(text)
            }
        }
    }
}

/// The number that the escape names of which `\` and `c` are read, and what follows it.
fn escape_by(c: char, rest: &str) -> Option<(u32, &str)>
    ensures { seen result ≡ escape_by c (chars rest.now) }
{
    match c {
        'n' => Some((10, rest)),
        'r' => Some((13, rest)),
        't' => Some((9, rest)),
        'b' => Some((8, rest)),
        'f' => Some((12, rest)),
        '\\' => Some((92, rest)),
        '\'' => Some((39, rest)),
        'u' => hex_escape(rest),
        _ => None,
    }
}

/// The number that the escape names of which `\` is read, and what follows it.
fn escape(text: &str) -> Option<(u32, &str)>
    ensures { seen result ≡ escape (chars text.now) }
{
    match first_char(text) {
        None => None,
        Some((c, rest)) => escape_by(c, rest),
    }
}

fn character(escape: Option<(u32, &str)>) -> Piece<'_, char>
    ensures { seen_piece result ≡ as_character (seen escape.entry) }
{
    match escape {
        None => Piece::Broken,
        Some((number, rest)) => match char::from_u32(number) {
            None => Piece::Broken,
            Some(c) => Piece::One(c, rest),
        },
    }
}

/// The piece of a literal that begins with `c`, `None` at the closing quote, and what follows it.
pub fn literal_piece(c: char, rest: &str) -> Piece<'_, char>
    ensures { seen_piece result ≡ literal_piece c (chars rest.now) }
{
    match c {
        '\'' => Piece::Closed(rest),
        '\n' => Piece::Broken,
        '\\' => character(escape(rest)),
        _ => Piece::One(c, rest),
    }
}

fn property_name(text: &str) -> Piece<'_, Mark>
    ensures { seen_piece result ≡ property_name (chars text.now) }
{
    let n = name_len(text);
    if begins_with_letter(text) && begins_with(skip(text, n), '}') {
        Piece::One(Mark::Property, skip(skip(text, n), 1))
    } else {
        Piece::Broken
    }
}

/// `{name}` of a property.
fn property(text: &str) -> Piece<'_, Mark>
    ensures { seen_piece result ≡ property (chars text.now) }
{
    match first_char(text) {
        None => Piece::Broken,
        Some((c, rest)) => {
            if c == '{' {
                property_name(rest)
            } else {
                Piece::Broken
            }
        }
    }
}

fn code(escape: Option<(u32, &str)>) -> Piece<'_, Mark>
    ensures { seen_piece result ≡ as_code (seen escape.entry) }
{
    match escape {
        None => Piece::Broken,
        Some((number, rest)) => {
            if number <= 0x10FFFF {
                Piece::One(Mark::Code(number), rest)
            } else {
                Piece::Broken
            }
        }
    }
}

fn set_escape_by(c: char, rest: &str) -> Piece<'_, Mark>
    ensures { seen_piece result ≡ set_escape_by c (chars rest.now) }
{
    match c {
        ']' => Piece::One(Mark::Code(93), rest),
        '-' => Piece::One(Mark::Code(45), rest),
        'p' => property(rest),
        'P' => property(rest),
        _ => code(escape_by(c, rest)),
    }
}

fn set_escape(text: &str) -> Piece<'_, Mark>
    ensures { seen_piece result ≡ set_escape (chars text.now) }
{
    match first_char(text) {
        None => Piece::Broken,
        Some((c, rest)) => set_escape_by(c, rest),
    }
}

/// The piece of a set that begins with `c`, `None` at the closing bracket, and what follows it.
pub fn set_piece(c: char, rest: &str) -> Piece<'_, Mark>
    ensures { seen_piece result ≡ set_piece c (chars rest.now) }
{
    match c {
        ']' => Piece::Closed(rest),
        '\n' => Piece::Broken,
        '\\' => set_escape(rest),
        '-' => Piece::One(Mark::Dash, rest),
        _ => Piece::One(Mark::Code(u32::from(c)), rest),
    }
}
