//! Which lines and tokens must stay.

ghost use Rattle.std.specs.Prelude.{◌≡◌, ◌≤◌, ◌<◌, ◌-◌, ◌^◌, IfOk, length, map};
ghost use Rattle.lexer.specs.Tokens.{token_of};
ghost use Rattle.reduce_core.specs.Lines.{numbered_lines};
ghost use Rattle.line_guard.specs.Lines.{line_at, line_ends};
ghost use Rattle.line_guard.specs.Protected.{is_protected, protected_lines, protected_tokens};
ghost use Rattle.line_guard.specs.inner.Held.{any_within};

use crate::index::LineIndex;
use crate::numbers::Numbers;
use crate::wish::{Wish, is_protected, searchers_of};
use faults::Memory;
use lexer::{Token, Tokens};
use std::alloc::Global;

/// Whether each line of the start is protected, in the order of the lines.
fn line_flags(
    alloc: Global,
    start: &[u8],
    index: &LineIndex,
    wishes: &[Wish],
) -> Result<Vec<bool>, Memory>
    requires { index.now ≡ line_ends start.now }
    ensures { IfOk result (λ flags. flags.items ≡ map (is_protected wishes.now) (numbered_lines start.now)) }
{
    let searchers = searchers_of(alloc, wishes)?;
    let mut flags = Vec::new(alloc);
    for at in 0..index.lines() {
        let line = index.bytes_of(start, at as usize);
        flags.push(is_protected(wishes, &searchers, at, line))?;
    }
    Ok(flags)
}

/// Whether a flag is set of the lines from the first to the last, which are counted from 1.
fn any_within(flags: &[bool], first: u64, last: u64) -> bool
    requires { 1 ≤ first }
    ensures { result ≡ any_within first last 1 flags.now }
{
    let end = last.min(flags.len() as u64);
    for at in first - 1..end {
        if flags[at as usize] {
            return true;
        }
    }
    false
}

/// Whether the token lies on a line whose flag is set.
fn is_on_flagged(index: &LineIndex, token: Token, flags: &[bool]) -> bool
    ensures { result ≡ any_within (line_at index.now token.start) (line_at index.now (token.end - 1)) 1 flags.now }
{
    let first = index.line_of(token.start as u64);
    let last = index.line_of(token.end.saturating_sub(1) as u64);
    any_within(flags, first, last)
}

/// The lines that must stay of a start of fewer than 2^32 bytes, whose index this is: their numbers, from
/// 0, in mode `lines`. It takes time linear in the start for each wish.
pub fn protected_lines(
    alloc: Global,
    start: &[u8],
    index: &LineIndex,
    wishes: &[Wish],
) -> Result<Numbers, Memory>
    requires index { index.now ≡ line_ends start.now }
    requires short { length start.now < 2 ^ 32 }
    ensures { IfOk result (λ numbers. numbers ≡ protected_lines wishes.now start.now) }
{
    let flags = line_flags(alloc, start, index, wishes)?;
    Numbers::of_flags(alloc, &flags)
}

/// The tokens that must stay of a start whose index this is: their numbers, from 0. There are fewer than
/// 2^32 tokens. For each wish it takes time linear in the start, and so much again for the tokens, each
/// with two searches of its lines.
pub fn protected_tokens(
    alloc: Global,
    start: &[u8],
    index: &LineIndex,
    tokens: &Tokens,
    wishes: &[Wish],
) -> Result<Numbers, Memory>
    requires index { index.now ≡ line_ends start.now }
    requires few { length tokens.now.items.items < 2 ^ 32 }
    ensures { IfOk result (λ numbers. numbers ≡ protected_tokens wishes.now start.now (map token_of tokens.now.items.items)) }
{
    let lines = line_flags(alloc, start, index, wishes)?;
    let mut flags = Vec::new(alloc);
    for token in tokens.items.iter() {
        flags.push(is_on_flagged(index, *token, &lines))?;
    }
    Numbers::of_flags(alloc, &flags)
}
