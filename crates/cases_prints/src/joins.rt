//! Compares, on all kept lists of small random starts, what is found round the joins with what is found
//! by cutting the whole text, and prints how often pieces were read. Prints also up to where a text
//! decides its pieces.

ghost use Rattle.std.specs.Prelude.{◌<◌, ◌-◌, ◌^◌, IfOk, MatchOption, ⊤, length, map};
ghost use Rattle.std.specs.Str.{chars};
ghost use Rattle.lexer.specs.Pieces.{ArePiecesOf};
ghost use Rattle.lexer.specs.Tokens.{HasTokens, token_of};

use crate::{HASHES, lexer_of};
use anyhow::{Result, bail};
use lexer::{LexFault, LexReader, Lexer, Piece, Pieces, Tokens};
use std::alloc::Global;
use test_grammars::grammars::{JOINED, STATEMENTS};
use token_print::{Style, are_kept, keeps_printed, keeps_tokens, print};

/// A comment begins like an operator.
const COMMENTED: &str =
    "grammar C; s : ID* ; o : '/' '*' ; ID : [a-z]+ ; C : '/*' .*? '*/' -> skip ; WS : [ \\n]+ -> skip ;";

/// With characters of several bytes, and a token that sees far.
const ACCENTS: &str =
    "grammar U; s : ID* ; ID : [aé]+ ; M : '-' ; F : 'a' '-'* 'é' ; SP : ' ' -> skip ;";

/// Grammars, and texts that decide their pieces.
const SEEN: [(&str, &str); 4] = [
    (STATEMENTS, "a=1;"),
    (STATEMENTS, "a"),
    (COMMENTED, "/* / /*a"),
    (ACCENTS, "a--éa--"),
];

/// Grammars, and the characters of their random starts.
const RANDOM: [(&str, &[char]); 5] = [
    (STATEMENTS, &['a', 'b', '1', '=', ';', '{', '+', ' ', '\n']),
    (JOINED, &['a', 'b', ',']),
    (COMMENTED, &['a', '/', '*', ' ', '\n']),
    (HASHES, &['a', 'q', '-', '#', ' ']),
    (ACCENTS, &['a', 'é', '-', ' ']),
];

/// How many starts are made for a grammar.
const STARTS: u32 = 200;

/// So many tokens a start has at most of which all kept lists are tried.
const MOST_TOKENS: usize = 6;

/// Numbers that look random (Knuth's multiplier for 64 bits).
#[derive(Drop)]
struct Numbers {
    state: u64,
}

impl Numbers {
    /// A number below the bound, which isn't 0.
    fn below(&mut self, bound: usize) -> usize
        requires { 0 < bound }
    {
        self.state = self
            .state
            .wrapping_mul(6_364_136_223_846_793_005)
            .wrapping_add(1_442_695_040_888_963_407);
        (self.state >> 33) as usize % bound
    }
}

/// What was counted.
#[derive(Clone, Copy)]
struct Counts {
    /// Kept lists, each in one style.
    lists: u64,

    /// Those whose text keeps the tokens.
    kept: u64,

    /// Reads of pieces.
    reads: u64,

    /// Where the two calls answered differently.
    wrong: u64,
}

/// Before anything is counted.
const NOTHING: Counts = Counts {
    lists: 0,
    kept: 0,
    reads: 0,
    wrong: 0,
};

/// The tokens of the text. None where it isn't cut into any.
fn tokens_of(lexer: &Lexer, text: &str) -> Result<Option<Tokens>>
    requires { length text.now < 2 ^ 32 - 1 }
    ensures { IfOk result (λ found. MatchOption found ⊤ (λ tokens. HasTokens lexer.now.grammar (chars text.now) (map token_of tokens.items.items))) }
{
    match lexer.lex(text) {
        Ok(tokens) => Ok(Some(tokens)),
        Err(LexFault::NoToken { .. }) => Ok(None),
        Err(LexFault::Memory(_)) => bail!("out of memory"),
    }
}

/// The pieces of the text.
fn pieces_of(lexer: &Lexer, text: &str) -> Result<Pieces>
    requires { length text.now < 2 ^ 32 - 1 }
    ensures { IfOk result (ArePiecesOf lexer.now.grammar text.now) }
{
    match lexer.pieces(text) {
        Ok(pieces) => Ok(pieces),
        Err(fault) => bail!("{fault}"),
    }
}

/// A start with its lexer, its tokens and its pieces.
#[derive(Clone, Copy)]
struct Start<'a> {
    alloc: Global,
    lexer: &'a Lexer,
    text: &'a str,
    tokens: &'a Tokens,
    pieces: &'a Pieces,
}

/// Counts what both calls answer on the kept tokens in the style.
fn count(start: &Start, kept: &[u32], style: Style, counts: &mut Counts) -> Result<()>
    requires small { length start.now.text.now < 2 ^ 32 - 1 }
    requires tokens { HasTokens start.now.lexer.now.grammar (chars start.now.text.now) (map token_of start.now.tokens.now.items.items) }
    requires pieces { ArePiecesOf start.now.lexer.now.grammar start.now.text.now start.now.pieces.now }
{
    if !are_kept(start.tokens, kept) {
        bail!("no such tokens: {kept:?}");
    }
    let text = print(
        start.alloc,
        start.text,
        start.tokens,
        start.lexer,
        kept,
        style,
    )?;
    if text.len() >= u32::MAX as usize {
        bail!("too long");
    }
    let keeps = keeps_tokens(start.text, start.tokens, start.lexer, kept, &text)?;
    let mut reader = LexReader::new(start.lexer);
    let found = keeps_printed(
        start.text,
        start.pieces,
        start.tokens,
        kept,
        style,
        &text,
        &mut reader,
    )?;
    counts.lists = counts.lists.saturating_add(1);
    counts.kept = counts.kept.saturating_add(u64::from(keeps));
    counts.reads = counts.reads.saturating_add(reader.reads());
    counts.wrong = counts.wrong.saturating_add(u64::from(keeps != found));
    Ok(())
}

/// The numbers below the bound whose bits are set.
fn numbers_in(alloc: Global, mask: u32, bound: u32) -> Result<Vec<u32>> {
    let mut numbers = Vec::new(alloc);
    for number in 0..bound.min(32) {
        if mask >> number & 1 == 1 {
            numbers.push(number)?;
        }
    }
    Ok(numbers)
}

/// Counts on the kept tokens in both styles.
fn count_both(start: &Start, kept: &[u32], counts: &mut Counts) -> Result<()>
    requires small { length start.now.text.now < 2 ^ 32 - 1 }
    requires tokens { HasTokens start.now.lexer.now.grammar (chars start.now.text.now) (map token_of start.now.tokens.now.items.items) }
    requires pieces { ArePiecesOf start.now.lexer.now.grammar start.now.text.now start.now.pieces.now }
{
    count(start, kept, Style::AsWas, counts)?;
    count(start, kept, Style::Squeezed, counts)
}

/// Counts on all kept lists of the start, if it has few tokens.
fn count_all(start: &Start, counts: &mut Counts) -> Result<()>
    requires small { length start.now.text.now < 2 ^ 32 - 1 }
    requires tokens { HasTokens start.now.lexer.now.grammar (chars start.now.text.now) (map token_of start.now.tokens.now.items.items) }
    requires pieces { ArePiecesOf start.now.lexer.now.grammar start.now.text.now start.now.pieces.now }
{
    let many = start.tokens.items.len();
    if many > MOST_TOKENS {
        return Ok(());
    }
    for mask in 0..1u32 << many as u32 {
        let kept = numbers_in(start.alloc, mask, many as u32)?;
        count_both(start, &kept, counts)?;
    }
    Ok(())
}

/// Counts on all kept lists of the start, if it is cut into few tokens.
fn count_start(alloc: Global, lexer: &Lexer, text: &str, counts: &mut Counts) -> Result<()> {
    if text.len() >= u32::MAX as usize {
        bail!("too long");
    }
    let Some(tokens) = tokens_of(lexer, text)? else {
        return Ok(());
    };
    let pieces = pieces_of(lexer, text)?;
    let start = Start {
        alloc,
        lexer,
        text,
        tokens: &tokens,
        pieces: &pieces,
    };
    count_all(&start, counts)
}

/// A text of up to 10 of the characters.
fn random_text(alloc: Global, numbers: &mut Numbers, characters: &[char]) -> Result<String> {
    let mut text = String::new(alloc);
    for _ in 0..numbers.below(11) {
        if let Some(c) = characters.get(numbers.below(characters.len().max(1))) {
            text.push(*c)?;
        }
    }
    Ok(text)
}

/// Prints what was counted.
fn show(rt: &impl Print, counts: Counts) -> Result<()> {
    let Counts {
        lists,
        kept,
        reads,
        wrong,
    } = counts;
    println!(rt; "{lists} lists, {kept} kept, {reads} reads, {wrong} wrong")?;
    Ok(())
}

/// The numbers from the first on and before the other.
fn numbers_from(alloc: Global, first: u32, end: u32) -> Result<Vec<u32>> {
    let mut numbers = Vec::new(alloc);
    for number in first..end {
        numbers.push(number)?;
    }
    Ok(numbers)
}

/// What is counted on the kept tokens of the start, as they were.
fn counted_as_was(start: &Start, kept: &[u32]) -> Result<Counts>
    requires small { length start.now.text.now < 2 ^ 32 - 1 }
    requires tokens { HasTokens start.now.lexer.now.grammar (chars start.now.text.now) (map token_of start.now.tokens.now.items.items) }
    requires pieces { ArePiecesOf start.now.lexer.now.grammar start.now.text.now start.now.pieces.now }
{
    let mut counts = NOTHING;
    count(start, kept, Style::AsWas, &mut counts)?;
    Ok(counts)
}

/// What is counted on the text of the kept tokens of the start, as they were.
fn part_counted(alloc: Global, lexer: &Lexer, text: &str, kept: &[u32]) -> Result<Counts> {
    if text.len() >= u32::MAX as usize {
        bail!("too long");
    }
    let Some(tokens) = tokens_of(lexer, text)? else {
        bail!("no tokens");
    };
    let pieces = pieces_of(lexer, text)?;
    let start = Start {
        alloc,
        lexer,
        text,
        tokens: &tokens,
        pieces: &pieces,
    };
    counted_as_was(&start, kept)
}

/// Prints what is counted on the text of the tokens of the start from the first number on and before the
/// other, as they were.
fn show_part(rt: &impl Print, alloc: Global, text: &str, first: u32, end: u32) -> Result<()> {
    let kept = numbers_from(alloc, first, end)?;
    let lexer = lexer_of(alloc, STATEMENTS)?;
    let counts = part_counted(alloc, &lexer, text, &kept)?;
    show(rt, counts)
}

/// What is counted on random starts of these characters.
fn counted(alloc: Global, lexer: &Lexer, characters: &[char]) -> Result<Counts> {
    let mut numbers = Numbers { state: 1 };
    let mut counts = NOTHING;
    for _ in 0..STARTS {
        let text = random_text(alloc, &mut numbers, characters)?;
        count_start(alloc, lexer, text.as_str(), &mut counts)?;
    }
    Ok(counts)
}

/// Prints what is counted on random starts of these characters.
fn show_counts(rt: &impl Print, alloc: Global, grammar: &str, characters: &[char]) -> Result<()> {
    let lexer = lexer_of(alloc, grammar)?;
    show(rt, counted(alloc, &lexer, characters)?)
}

/// Prints the pieces, each with up to where it is decided.
fn show_each(rt: &impl Print, pieces: &[Piece]) -> Result<()> {
    for piece in pieces {
        println!(rt; "{}-{} sees {}", piece.start, piece.end, piece.seen)?;
    }
    Ok(())
}

/// Prints up to where the text decides each of its pieces.
fn show_pieces(rt: &impl Print, lexer: &Lexer, text: &str) -> Result<()> {
    if text.len() >= u32::MAX as usize {
        bail!("too long");
    }
    let pieces = pieces_of(lexer, text)?;
    show_each(rt, &pieces.items)
}

/// The same by the grammar that another text spells.
fn show_seen(rt: &impl Print, alloc: Global, grammar: &str, text: &str) -> Result<()> {
    let lexer = lexer_of(alloc, grammar)?;
    show_pieces(rt, &lexer, text)
}

/// Prints up to where the texts decide their pieces.
fn show_all_seen(rt: &impl Print, alloc: Global) -> Result<()> {
    for &(grammar, text) in &SEEN {
        show_seen(rt, alloc, grammar, text)?;
    }
    Ok(())
}

/// Prints what is counted on random starts of the grammars.
fn show_all_counts(rt: &impl Print, alloc: Global) -> Result<()> {
    for &(grammar, characters) in &RANDOM {
        show_counts(rt, alloc, grammar, characters)?;
    }
    Ok(())
}

/// Prints all.
pub(crate) fn show_joins(rt: &impl Print, alloc: Global) -> Result<()> {
    show_all_seen(rt, alloc)?;
    show_part(rt, alloc, "a=1;b=2;c=3;", 4, 12)?;
    show_part(rt, alloc, "a=1;b=2;c=3;", 0, 4)?;
    show_all_counts(rt, alloc)
}
