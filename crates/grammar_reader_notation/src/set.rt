//! Sets of characters, from the ranges that are written.

ghost use Rattle.std.specs.Prelude.{◌≡◌, ◌<◌, ℕ, IfOk, MatchOption, OnOk, nat_le, ◌||◌};
ghost use Rattle.std.specs.Char.{IsScalar};
ghost use Rattle.grammar_tree.specs.Chars.{has};
ghost use Rattle.grammar_tree.specs.Ranges.{in_range};
ghost use Rattle.grammar_reader_notation.specs.Sets.{outside, within};

use faults::Memory;
use grammar_tree::CharSet;
use std::alloc::Global;

/// The first character from the number on.
fn first_char(code: u32) -> Option<char>
    ensures { MatchOption result (0x10FFFF < code) (λ f. (c : ℕ) → IsScalar c → nat_le f c ≡ nat_le code c) }
{
    if code > 0x10FFFF {
        return None;
    }
    Some(char::from_u32(code).unwrap_or('\u{e000}'))
}

/// The last character up to the number.
fn last_char(code: u32) -> char
    ensures { (c : ℕ) → IsScalar c → nat_le c result ≡ nat_le c code }
{
    if code > 0x10FFFF {
        return '\u{10ffff}';
    }
    char::from_u32(code).unwrap_or('\u{d7ff}')
}

/// Adds the characters in the range.
fn add_range(chars: &mut Vec<(char, char)>, range: (u32, u32)) -> Result<(), Memory>
    ensures { OnOk result ((c : ℕ) → IsScalar c → has chars.new.items c ≡ (has chars.old.items c || in_range range c)) }
{
    match first_char(range.0) {
        None => Ok(()),
        Some(first) => {
            chars.push((first, last_char(range.1)))?;
            Ok(())
        }
    }
}

/// The characters in the ranges, which may run over surrogates.
pub fn within(alloc: Global, ranges: &[(u32, u32)]) -> Result<CharSet, Memory>
    ensures { IfOk result (λ s. s ≡ within ranges.now) }
{
    let mut chars = Vec::new(alloc);
    for range in ranges {
        add_range(&mut chars, *range)?;
    }
    let set = CharSet::new(alloc, &chars)?;
    set.is_char_set();
    Ok(set)
}

/// The characters outside the ranges.
pub fn outside(alloc: Global, ranges: &[(u32, u32)]) -> Result<CharSet, Memory>
    ensures { IfOk result (λ s. s ≡ outside ranges.now) }
{
    let inside = within(alloc, ranges)?;
    let set = inside.complement()?;
    set.is_char_set();
    Ok(set)
}
