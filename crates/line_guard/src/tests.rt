//! Lines and tokens that must stay, worked out by hand.

ghost use Rattle.std.specs.Prelude.{◌<◌, ◌^◌, length};

use crate::{LineIndex, Memory, Numbers, Wish, keeps_numbers, protected_lines, protected_tokens};
use lexer::{Token, Tokens};
use script_gate_trait::Bytes;
use std::alloc::Global;

/// The wish for a text.
fn holding(alloc: Global, text: &[u8]) -> Result<Wish, Memory> {
    Ok(Wish::Holding(Bytes::from_slice(alloc, text)?))
}

/// The lines of a text that a wish protects, by their numbers from 0.
fn lines_for(alloc: Global, start: &[u8], wish: Wish) -> Result<Numbers, Memory>
    requires { length start.now < 2 ^ 32 }
{
    let index = LineIndex::of(alloc, start)?;
    protected_lines(alloc, start, &index, &[wish])
}

/// The tokens of a text that a wish protects, by their numbers from 0. The tokens are from the first
/// offset up to the second.
fn tokens_for(
    alloc: Global,
    start: &[u8],
    tokens: &[(u32, u32)],
    wish: Wish,
) -> Result<Numbers, Memory>
    requires start { length start.now < 2 ^ 32 }
    requires tokens { length tokens.now < 2 ^ 32 }
{
    let index = LineIndex::of(alloc, start)?;
    let mut items = Vec::new(alloc);
    for (start, end) in tokens {
        items.push(Token {
            kind: 0,
            start: *start,
            end: *end,
        })?;
    }
    protected_tokens(alloc, start, &index, &Tokens { items }, &[wish])
}

#[test]
fn finds_the_line_of_a_byte(rt: HostRuntime) -> Result<(), Memory> {
    let rows: [(&[u8], u64, u64, u64); 7] = [
        (b"a\nb\n", 0, 1, 2),
        (b"a\nb\n", 1, 1, 2),
        (b"a\nb\n", 2, 2, 2),
        (b"a\nb", 2, 2, 2),
        (b"\n\nab", 1, 2, 3),
        (b"\n\nab", 3, 3, 3),
        (b"", 0, 1, 0),
    ];
    for (text, offset, line, lines) in rows {
        let index = LineIndex::of(rt.alloc(), text)?;
        assert_eq!(rt; index.line_of(offset), line);
        assert_eq!(rt; index.lines(), lines);
    }
    Ok(())
}

#[test]
fn protects_lines(rt: HostRuntime) -> Result<(), Memory> {
    let alloc = rt.alloc();
    let start: &[u8] = b"a=1;\nb=2;\nc=3;\n";
    let middle = lines_for(alloc, start, Wish::Lines { first: 2, last: 2 })?;
    assert_eq!(rt; middle.as_slice(), [1].as_slice());
    let held = lines_for(alloc, start, holding(alloc, b"b")?)?;
    assert_eq!(rt; held.as_slice(), [1].as_slice());
    let newline = lines_for(alloc, start, holding(alloc, b"\n")?)?;
    assert!(rt; newline.as_slice().is_empty());
    let all = lines_for(alloc, start, Wish::Only { first: 1, last: 3 })?;
    assert!(rt; all.as_slice().is_empty());
    let others = lines_for(alloc, start, Wish::Only { first: 2, last: 2 })?;
    assert_eq!(rt; others.as_slice(), [0, 2].as_slice());
    let empty = lines_for(alloc, b"", Wish::Lines { first: 1, last: 1 })?;
    assert!(rt; empty.as_slice().is_empty());
    Ok(())
}

#[test]
fn protects_a_token_by_each_of_its_lines(rt: HostRuntime) -> Result<(), Memory> {
    let alloc = rt.alloc();
    let start: &[u8] = b"x\n\"a\nb\ny\nz";
    let tokens: [(u32, u32); 3] = [(0, 1), (2, 6), (9, 10)];
    for line in 2..4 {
        let one = Wish::Lines {
            first: line,
            last: line,
        };
        let kept = tokens_for(alloc, start, &tokens, one)?;
        assert_eq!(rt; kept.as_slice(), [1].as_slice());
    }
    let none = tokens_for(alloc, start, &tokens, Wish::Lines { first: 4, last: 4 })?;
    assert!(rt; none.as_slice().is_empty());
    let outside = tokens_for(alloc, start, &tokens, Wish::Only { first: 1, last: 2 })?;
    assert_eq!(rt; outside.as_slice(), [1, 2].as_slice());
    Ok(())
}

#[test]
fn looks_for_each_number(rt: HostRuntime) {
    let rows: [(&[u32], &[u32], bool); 6] = [
        (&[], &[], true),
        (&[1, 3, 5], &[], true),
        (&[1, 3, 5], &[1, 5], true),
        (&[1, 3, 5], &[3, 4], false),
        (&[1, 3, 5], &[6], false),
        (&[], &[0], false),
    ];
    for (kept, must, answer) in rows {
        assert_eq!(rt; keeps_numbers(kept, must), answer);
    }
}
