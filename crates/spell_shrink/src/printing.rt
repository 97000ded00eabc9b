//! The text of a respelling, and where its tokens are in it.

ghost use Rattle.std.specs.Prelude.{◌≡◌, ◌<◌, ◌^◌, true, false, IfOk, Some, All, length, map, string_bytes};
ghost use Rattle.std.specs.Str.{IsUtf8};
ghost use Rattle.lexer.specs.Tokens.{token_of};
ghost use Rattle.token_print.specs.LexingLaws.{AreInOrder};
ghost use Rattle.token_print.specs.Kept.{AreKept};
ghost use Rattle.token_print.specs.Printed.{before};
ghost use Rattle.spell_shrink.specs.Respelling.{own_spellings};
ghost use Rattle.spell_shrink.specs.Texts.{respelled_text};
ghost use Rattle.spell_shrink.specs.inner.Changes.{respelling_of_words, word_offsets};

use faults::Memory;
use std::alloc::Global;
use token_print::{Layout, Style};

/// A text with the offsets at which its tokens begin, in bytes from 0.
#[derive(Drop)]
pub(crate) struct PrintedWords {
    pub(crate) text: String,
    pub(crate) places: Vec<usize>,
}

/// The own spellings of kept tokens.
pub(crate) fn own_words<'a>(
    alloc: Global,
    layout: Layout<'a>,
    kept: &[u32],
) -> Result<Vec<&'a str>, Memory>
    requires kept { AreKept (map token_of layout.tokens.now) kept.now }
    requires order { AreInOrder layout.start.now (map token_of layout.tokens.now) }
    ensures own { IfOk result (λ words. respelling_of_words kept.now words.items
        ≡ own_spellings layout.entry.start.now (map token_of layout.entry.tokens.now) kept.now) }
    ensures long { IfOk result (λ words. length words.items ≡ length kept.now) }
    ensures utf8 { IfOk result (λ words. All (λ w. IsUtf8 w.now) words.items) }
{
    let mut words = Vec::new(alloc);
    for number in kept {
        words.push(layout.spelling(*number))?;
    }
    Ok(words)
}

/// What is printed as it was before a kept token, after the kept token before it.
fn gap_before<'a>(layout: Layout<'a>, last: Option<u32>, number: u32) -> &'a str
    requires there { number < length layout.tokens.now }
    requires order { AreInOrder layout.start.now (map token_of layout.tokens.now) }
    ensures { result.now ≡ before layout.entry.skips layout.entry.start.now (map token_of layout.entry.tokens.now) Style.AsWas last number }
{
    match last {
        None if number == 0 => layout.gap(0),
        None => "",
        Some(last) if number as usize == last as usize + 1 => layout.gap(number as usize),
        Some(_) => layout.separator(number),
    }
}

/// What is printed before a kept token, after the kept token before it.
fn printed_before<'a>(layout: Layout<'a>, last: Option<u32>, number: u32) -> &'a str
    requires there { number < length layout.tokens.now }
    requires order { AreInOrder layout.start.now (map token_of layout.tokens.now) }
    ensures { result.now ≡ before layout.entry.skips layout.entry.start.now (map token_of layout.entry.tokens.now) layout.entry.style last number }
{
    match (layout.style, last) {
        (Style::AsWas, _) => gap_before(layout, last, number),
        (Style::Squeezed, None) => "",
        (Style::Squeezed, Some(_)) => layout.separator(number),
    }
}

/// Whether the start is printed whole, as it has no tokens.
fn is_whole(layout: Layout<'_>) -> bool
    ensures whole { result ≡ true → (length layout.entry.tokens.now ≡ 0) × (layout.entry.style ≡ Style.AsWas) }
    ensures other { result ≡ false → length layout.entry.tokens.now ≡ 0 → ¬ (layout.entry.style ≡ Style.AsWas) }
{
    match layout.style {
        Style::AsWas => layout.tokens.is_empty(),
        Style::Squeezed => false,
    }
}

/// The text of kept tokens with these spellings, one for each. It takes time linear in the text and in the
/// gaps before these tokens.
pub(crate) fn print_words<'a>(
    alloc: Global,
    layout: Layout<'a>,
    kept: &[u32],
    words: &[&'a str],
) -> Result<PrintedWords, Memory>
    requires kept { AreKept (map token_of layout.tokens.now) kept.now }
    requires words { length words.now ≡ length kept.now }
    requires order { AreInOrder layout.start.now (map token_of layout.tokens.now) }
    ensures text { IfOk result (λ printed. string_bytes printed.text ≡ respelled_text layout.entry.skips layout.entry.start.now
        (map token_of layout.entry.tokens.now) layout.entry.style (respelling_of_words kept.now words.now)) }
    ensures places { IfOk result (λ printed. printed.places.items ≡ word_offsets layout.entry.skips layout.entry.start.now
        (map token_of layout.entry.tokens.now) layout.entry.style (respelling_of_words kept.now words.now)) }
{
    let mut places = Vec::new(alloc);
    if is_whole(layout) {
        let text = String::from_str(alloc, layout.start)?;
        return Ok(PrintedWords { text, places });
    }
    let mut text = String::new(alloc);
    let mut last = None;
    for index in 0..kept.len() {
        let number = kept[index];
        text.push_str(printed_before(layout, last, number))?;
        places.push(text.len())?;
        text.push_str(words[index])?;
        last = Some(number);
    }
    text.push_str(layout.after(last))?;
    Ok(PrintedWords { text, places })
}
