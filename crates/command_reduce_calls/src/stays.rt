//! The guard of what must stay of the start: the keep texts, and the lines that are named.

ghost use Rattle.std.specs.Prelude.{◌≡◌, ◌<◌, ◌^◌, None, true, IfErr, IfOk, OnOk, find, length, map, nat_lt};
ghost use Rattle.std.specs.Option.{option_to_list};
ghost use Rattle.lexer.specs.Tokens.{token_of};
ghost use Rattle.keep_guard.specs.Keep.{holds_all};
ghost use Rattle.line_guard.specs.Lines.{line_ends};
ghost use Rattle.command_reduce_calls.specs.Stays.{StaysFail, first_beyond, first_beyond_start, lines_stay, tokens_stay, wishes_of};
ghost use Rattle.command_words.specs.Lines.{protects_read, reduce_read};

use command_ends::{Refusal, held_texts};
use command_words::{LineSpan, ProtectLine, ReduceLine};
use faults::Memory;
use keep_guard::Guard;
use lexer::Tokens;
use line_guard::{LineIndex, MustStay, Wish, protected_lines, protected_tokens};
use script_gate_trait::Bytes;
use std::alloc::Global;

/// The first of the last lines of `--protect`, and then of `--only`, that is beyond this line.
fn first_beyond(protects: &ProtectLine<'_>, lines: u64) -> Option<u64>
    ensures { result ≡ first_beyond (protects_read protects.now) lines }
{
    for span in &protects.lines {
        if span.last as u64 > lines {
            return Some(span.last as u64);
        }
    }
    last_beyond(protects.only, lines)
}

/// The last of these lines, where it is beyond this one.
fn last_beyond(span: Option<LineSpan>, lines: u64) -> Option<u64>
    ensures { result ≡ find (λ last. nat_lt lines last) (map (λ span. span.last) (option_to_list span)) }
{
    match span {
        Some(span) if span.last as u64 > lines => Some(span.last as u64),
        _ => None,
    }
}

/// The lines of the start, beyond the last of which the command line names none. Each keep text occurs in
/// it.
fn index_of(alloc: Global, line: &ReduceLine<'_>, start: &[u8]) -> Result<LineIndex, Refusal>
    requires short { length start.now < 2 ^ 32 }
    requires kept { holds_all (reduce_read line.now).keeps start.now ≡ true }
    ensures index { IfOk result (λ index. index ≡ line_ends start.now) }
    ensures within { OnOk result (first_beyond_start (reduce_read line.now).protects start.now ≡ None) }
    ensures refused { IfErr result (λ refusal. StaysFail (reduce_read line.now) start.now refusal) }
{
    let index = LineIndex::of(alloc, start)?;
    match first_beyond(&line.protects, index.lines()) {
        None => Ok(index),
        Some(last) => Err(Refusal::of_beyond(alloc, last, index.lines())),
    }
}

/// What is wished for.
fn wishes_of(alloc: Global, protects: &ProtectLine<'_>) -> Result<Vec<Wish>, Memory>
    ensures { IfOk result (λ wishes. wishes.items ≡ wishes_of (protects_read protects.now)) }
{
    let mut wishes = Vec::new(alloc);
    for span in &protects.lines {
        wishes.push(Wish::Lines {
            first: u64::from(span.first),
            last: u64::from(span.last),
        })?;
    }
    for text in &protects.texts {
        wishes.push(Wish::Holding(Bytes::from_slice(alloc, text.as_bytes())?))?;
    }
    if let Some(span) = protects.only {
        wishes.push(Wish::Only {
            first: u64::from(span.first),
            last: u64::from(span.last),
        })?;
    }
    Ok(wishes)
}

/// The guard of what must stay of a start, by its lines: each keep text occurs in it, and each named line
/// is there.
pub fn guard_of_lines<'a>(
    alloc: Global,
    line: &ReduceLine<'a>,
    start: &[u8],
) -> Result<Guard<MustStay<'a>>, Refusal>
    requires { length start.now < 2 ^ 32 }
    ensures guard { IfOk result (λ guard. guard ≡ lines_stay (reduce_read line.now) start.now) }
    ensures kept { OnOk result (holds_all (reduce_read line.now).keeps start.now ≡ true) }
    ensures within { OnOk result (first_beyond_start (reduce_read line.now).protects start.now ≡ None) }
    ensures refused { IfErr result (λ refusal. StaysFail (reduce_read line.now) start.now refusal) }
{
    let keeps = held_texts(alloc, &line.keeps, start)?;
    let index = index_of(alloc, line, start)?;
    let wishes = wishes_of(alloc, &line.protects)?;
    let numbers = protected_lines(alloc, start, &index, &wishes)?;
    Ok(Guard::new(MustStay::new(keeps, numbers)))
}

/// The guard of what must stay of a start, by its tokens: each keep text occurs in it, and each named line
/// is there.
pub fn guard_of_tokens<'a>(
    alloc: Global,
    line: &ReduceLine<'a>,
    start: &[u8],
    tokens: &Tokens,
) -> Result<Guard<MustStay<'a>>, Refusal>
    requires short { length start.now < 2 ^ 32 }
    requires few { length tokens.now.items.items < 2 ^ 32 }
    ensures guard { IfOk result (λ guard. guard ≡ tokens_stay (reduce_read line.now) start.now (map token_of tokens.now.items.items)) }
    ensures kept { OnOk result (holds_all (reduce_read line.now).keeps start.now ≡ true) }
    ensures within { OnOk result (first_beyond_start (reduce_read line.now).protects start.now ≡ None) }
    ensures refused { IfErr result (λ refusal. StaysFail (reduce_read line.now) start.now refusal) }
{
    let keeps = held_texts(alloc, &line.keeps, start)?;
    let index = index_of(alloc, line, start)?;
    let wishes = wishes_of(alloc, &line.protects)?;
    let numbers = protected_tokens(alloc, start, &index, tokens, &wishes)?;
    Ok(Guard::new(MustStay::new(keeps, numbers)))
}
