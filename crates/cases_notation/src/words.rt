//! The words of a text, as they are printed.

use anyhow::Result;
use grammar_reader_words::{Ranges, Reserved, Word, Words};
use percent_encoding::{CONTROLS, utf8_percent_encode};
use std::alloc::Global;

/// The ranges, each as its two numbers with `-` between.
fn ranges_shown(alloc: Global, ranges: &Ranges) -> Result<String> {
    let mut shown = String::from_str(alloc, "set")?;
    for range in ranges.as_slice() {
        let (first, last) = *range;
        shown.push_str(format!(in alloc; " {first}-{last}")?.as_str())?;
    }
    Ok(shown)
}

fn reserved_shown(word: Reserved) -> &'static str {
    match word {
        Reserved::Lexer => "lexer!",
        Reserved::Parser => "parser!",
        Reserved::Import => "import!",
        Reserved::Mode => "mode!",
        Reserved::Channels => "channels!",
        Reserved::Returns => "returns!",
        Reserved::Locals => "locals!",
        Reserved::Throws => "throws!",
        Reserved::Catch => "catch!",
        Reserved::Finally => "finally!",
        Reserved::Public => "public!",
        Reserved::Private => "private!",
        Reserved::Protected => "protected!",
    }
}

fn symbol_shown(word: &Word) -> &'static str {
    match word {
        Word::Colon => ":",
        Word::Semicolon => ";",
        Word::Bar => "|",
        Word::Open => "(",
        Word::Close => ")",
        Word::Question => "?",
        Word::Star => "*",
        Word::Plus => "+",
        Word::Tilde => "~",
        Word::Dot => ".",
        Word::Dots => "..",
        Word::Arrow => "->",
        Word::Equals => "=",
        Word::PlusEquals => "+=",
        Word::Comma => ",",
        Word::Hash => "#",
        Word::Less => "<",
        Word::Greater => ">",
        Word::OpenBrace => "{",
        Word::CloseBrace => "}",
        Word::At => "@",
        _ => "",
    }
}

/// A literal between quotes. Control characters and bytes of characters that aren't ASCII are
/// printed as `%` and two hexadecimal digits.
fn literal_shown(alloc: Global, text: &str) -> Result<String> {
    let mut shown = String::from_str(alloc, "'")?;
    utf8_percent_encode(text, CONTROLS).append_to(&mut shown)?;
    shown.push('\'')?;
    Ok(shown)
}

/// A name is printed as it is written, a word with a meaning of its own with `!` after it.
fn word_shown(alloc: Global, word: &Word) -> Result<String> {
    match word {
        Word::Literal(text) => literal_shown(alloc, text.as_str()),
        Word::Set(ranges) => ranges_shown(alloc, ranges),
        Word::Grammar => Ok(String::from_str(alloc, "grammar!")?),
        Word::Fragment => Ok(String::from_str(alloc, "fragment!")?),
        Word::Options => Ok(String::from_str(alloc, "options!")?),
        Word::Tokens => Ok(String::from_str(alloc, "tokens!")?),
        Word::Reserved(reserved) => Ok(String::from_str(alloc, reserved_shown(*reserved))?),
        Word::Upper(name) => Ok(String::from_str(alloc, name.as_str())?),
        Word::Lower(name) => Ok(String::from_str(alloc, name.as_str())?),
        Word::Number => Ok(String::from_str(alloc, "number")?),
        Word::Property => Ok(String::from_str(alloc, "property")?),
        Word::Bad => Ok(String::from_str(alloc, "bad")?),
        Word::End => Ok(String::from_str(alloc, "end")?),
        symbol => Ok(String::from_str(alloc, symbol_shown(symbol))?),
    }
}

/// The words of the text, each with its first byte before it, and ` / ` between two of them.
pub fn words_shown(alloc: Global, text: &str) -> Result<String> {
    let mut words = Words::new(text);
    let mut shown = String::new(alloc);
    while let Some(placed) = words.next(alloc)? {
        if !shown.is_empty() {
            shown.push_str(" / ")?;
        }
        let offset = placed.offset;
        let word = word_shown(alloc, &placed.word)?;
        shown.push_str(format!(in alloc; "{offset} {word}")?.as_str())?;
    }
    Ok(shown)
}
