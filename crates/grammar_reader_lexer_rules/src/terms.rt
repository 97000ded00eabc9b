//! Terms and sets of characters that one word of a lexer rule makes.

ghost use Rattle.std.specs.Prelude.{◌≡◌, ◌∷◌, [], Some, None, IfOk, cond, nat_le};
ghost use Rattle.grammar_tree.specs.View.{lex_term};
ghost use Rattle.grammar_reader_machine.specs.Machine as m;
ghost use Rattle.grammar_reader_machine.specs.View.{lexer_state};
ghost use Rattle.grammar_reader_notation.specs.Sets.{outside, within};
ghost use Rattle.grammar_reader_lexer_rules.specs.inner.Terms.{after_block_end, lex_suffixed};

use faults::Memory;
use grammar_reader_machine::LexerPosition;
use grammar_reader_notation::{outside, within};
use grammar_reader_words::Word;
use grammar_tree::{CharSet, LexTerm, Suffix};
use std::alloc::Global;

/// What a word ends where a block is open.
#[derive(Clone, Copy)]
pub enum BlockEnd {
    /// The alternative: another one comes.
    Alternative,

    /// The block.
    Block,
}

/// The term of a lexer rule with the suffix.
pub fn lex_suffixed(alloc: Global, term: LexTerm, suffix: Suffix) -> Result<LexTerm, Memory>
    ensures { IfOk result (λ t. lex_term t ≡ lex_suffixed suffix (lex_term term)) }
{
    match suffix {
        Suffix::Question => LexTerm::opt(alloc, term),
        Suffix::Star => LexTerm::star(alloc, term),
        Suffix::Plus => LexTerm::plus(alloc, term),
    }
}

/// Where a set of all characters but those in the ranges is read.
pub fn negated(alloc: Global, ranges: &[(u32, u32)]) -> Result<LexerPosition, Memory>
    ensures { IfOk result (λ p. (b : m.LexBody) → lexer_state b p ≡ m.AfterSet b (outside ranges.now)) }
{
    let set = outside(alloc, ranges)?;
    Ok(LexerPosition::Set(set))
}

/// The characters from the first to the last, if these are in order.
pub fn range_set(alloc: Global, first: u32, last: u32) -> Result<Option<CharSet>, Memory>
    ensures { IfOk result (λ s. s ≡ cond (nat_le first last) (Some (within ((first, last) ∷ []))) None) }
{
    if first > last {
        return Ok(None);
    }
    let set = within(alloc, &[(first, last)])?;
    Ok(Some(set))
}

fn block_end(word: &Word) -> Option<BlockEnd>
    ensures { (b : m.LexBody) → after_block_end b result ≡ m.step_inner_end b word.now }
{
    match word {
        Word::Bar => Some(BlockEnd::Alternative),
        Word::Close => Some(BlockEnd::Block),
        _ => None,
    }
}

/// What the word ends where a block is open, if it ends something there. The word is let go here, since
/// elsewhere each of its variants is a step of the proof.
pub fn end_in_block(word: Word) -> Option<BlockEnd>
    ensures { (b : m.LexBody) → after_block_end b result ≡ m.step_inner_end b word }
{
    let end = block_end(&word);
    drop(word);
    end
}
