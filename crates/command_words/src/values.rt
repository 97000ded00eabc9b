//! Values of options.

ghost use Rattle.std.specs.Prelude.{◌≡◌, ◌≤◌, ◌&&◌, IfOk, IfSome, MatchOption, Some, None, false, if◌then◌else◌, map, nat_le, option_map, true};
ghost use Rattle.std.specs.Char.{is_ascii_digit};
ghost use Rattle.std.specs.List.{list_all};
ghost use Rattle.std.specs.Str.Parse.{digits_value};
ghost use Rattle.command_words.specs.Options.{is_decimal, is_number_in, is_span_in, is_value, span_of};
ghost use Rattle.command_words.specs.Lines.{span_read};
ghost use Rattle.command_words.specs.inner.Found.{spans_in};

use crate::commands::LineSpan;
use faults::Memory;
use std::alloc::Global;

/// Whether the word may be an option's value.
pub(crate) fn is_value(word: &[u8]) -> bool
    ensures { result ≡ is_value word.now }
{
    match word {
        [] => false,
        [b'-', ..] => false,
        _ => true,
    }
}

/// Whether the text is decimal digits without a leading zero, but for `0` itself.
fn is_decimal(text: &[u8]) -> bool
    ensures { result ≡ is_decimal text.now }
{
    match text {
        [] => false,
        [_] => are_digits(text),
        [first, _, ..] => *first != b'0' && are_digits(text),
    }
}

/// Whether each byte is a decimal digit.
fn are_digits(text: &[u8]) -> bool
    ensures { result ≡ list_all is_ascii_digit text.now }
{
    text.iter().all(|digit| digit.is_ascii_digit())
}

/// The number, where it is from `least` to `most`.
fn number_in(number: u32, least: u32, most: u32) -> Option<u32>
    ensures value { result ≡ (if nat_le least number && nat_le number most then Some number else None) }
    ensures bounds { IfSome result (λ number. (least ≤ number) × (number ≤ most)) }
{
    if least <= number && number <= most {
        Some(number)
    } else {
        None
    }
}

/// The number that the text is, where it is one from `least` to `most`.
pub(crate) fn read_number(text: &str, least: u32, most: u32) -> Option<u32>
    ensures value { MatchOption result
        (is_number_in least most text.now ≡ false)
        (λ number. (is_number_in least most text.now ≡ true) × (number ≡ digits_value 10 text.now)) }
    ensures bounds { IfSome result (λ number. (least ≤ number) × (number ≤ most)) }
{
    if !is_decimal(text.as_bytes()) {
        return None;
    }
    match text.parse::<u32>() {
        Err(_) => None,
        Ok(number) => number_in(number, least, most),
    }
}

/// The lines of these numbers, where the first isn't greater than the last.
fn span_between(first: u32, last: u32) -> Option<LineSpan>
    ensures { result ≡ (if nat_le first last then Some (record { first = first; last = last }) else None) }
{
    if first <= last {
        Some(LineSpan { first, last })
    } else {
        None
    }
}

/// The lines that a text `first-last` names, where it is such, by numbers from 1.
pub(crate) fn read_span(text: &str) -> Option<LineSpan>
    ensures { MatchOption result
        (is_span_in 1 4294967295 text.now ≡ false)
        (λ span. (is_span_in 1 4294967295 text.now ≡ true) × (span_read span ≡ span_of text.now)) }
{
    let (first, last) = text.split_once('-')?;
    let first = read_number(first, 1, u32::MAX)?;
    let last = read_number(last, 1, u32::MAX)?;
    span_between(first, last)
}

/// The lines that these texts name, where each is such.
pub(crate) fn read_spans(alloc: Global, texts: &[&str]) -> Result<Option<Vec<LineSpan>>, Memory>
    ensures { IfOk result (λ spans. option_map (λ spans. map span_read spans.items) spans ≡ spans_in (map (λ text. text.now) texts.now)) }
{
    let mut spans = Vec::new(alloc);
    for text in texts {
        let Some(span) = read_span(*text) else {
            return Ok(None);
        };
        spans.push(span)?;
    }
    Ok(Some(spans))
}
