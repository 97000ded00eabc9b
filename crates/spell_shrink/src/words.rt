//! The spellings that the kinds of a start have.

ghost use Rattle.std.specs.Prelude.{◌≡◌, ◌≤◌, ◌<◌, IfOk, Some, length, map, slice_get};
ghost use Rattle.std.specs.List.{between};
ghost use Rattle.lexer.specs.Tokens.{token_of};
ghost use Rattle.token_print.specs.LexingLaws.{AreInOrder, IsSlice};
ghost use Rattle.spell_shrink.specs.Words.{shorter_than};
ghost use Rattle.token_print.specs.Spelling.{spelling};
ghost use Rattle.spell_shrink.specs.KindWords.{AreWordsOf, IsSized, bytes_of_kind, kind_word, word_bytes_of};

use faults::Memory;
use lexer::{Token, Tokens};
use std::alloc::Global;
use std::marker::Model;
use token_print::spelling;

/// A spelling of a kind. Of two the one of the lesser kind comes first, then the one with fewer bytes, then
/// the one whose bytes come first.
#[derive(Clone, Copy, Debug, PartialEq, Eq, PartialOrd, Ord)]
pub struct Word<'a> {
    pub kind: u32,

    /// How many bytes it has.
    pub size: usize,
    pub text: &'a str,
}

/// The spellings that the tokens of a start have, each once, by their kinds.
#[derive(Drop)]
pub struct Words<'a> {
    items: Vec<Word<'a>>,
}

impl<'a> Model for Words<'a> {
    ghost use Rattle.std.specs.Prelude.{List, map};
    ghost use Rattle.spell_shrink.specs.KindWords.{AreSorted, KindWord, kind_words_coded, kind_word};

    ghost Value = { List KindWord };

    ghost coded = { kind_words_coded };

    ghost view = { λ words. map kind_word words.items.items };

    ghost invariant = { λ words. AreSorted words.items.items };
}

/// The spelling of a token of the start.
fn word_of(start: &str, token: Token) -> Word<'_>
    requires { IsSlice start.now token.start token.end }
    ensures word { kind_word result ≡ record { kind = token.kind; word = spelling start.now (token_of token) } }
    ensures size { IsSized result }
{
    let text = spelling(start, token);
    Word {
        kind: token.kind,
        size: text.len(),
        text,
    }
}

impl<'a> Words<'a> {
    /// The spellings of these tokens of the start. It takes time in proportion to the tokens, times a
    /// logarithm and the bytes that are compared.
    pub fn of(alloc: Global, start: &'a str, tokens: &Tokens) -> Result<Words<'a>, Memory>
        requires { AreInOrder start.now (map token_of tokens.now.items.items) }
        ensures { IfOk result (AreWordsOf start.now (map token_of tokens.now.items.items)) }
    {
        let mut items = Vec::new(alloc);
        for token in &tokens.items {
            items.push(word_of(start, *token))?;
        }
        items.sort_unstable();
        items.dedup();
        Ok(Words { items })
    }

    /// The indexes of the spellings of a kind that have fewer bytes than this: the first one, and the one
    /// after the last. It takes a search.
    pub(crate) fn shorter(&self, kind: u32, size: usize) -> (usize, usize)
        ensures rises { result.0 ≤ result.1 }
        ensures within { result.1 ≤ length self.now }
        ensures words { map word_bytes_of (between result.0 result.1 self.now) ≡ shorter_than size (bytes_of_kind self.now kind) }
    {
        let first = self.items.partition_point(|word| word.kind < kind);
        let end = self.items.partition_point(|word| word.kind < kind
            || (word.kind == kind && word.size < size));
        (first, end)
    }

    /// The spelling at an index.
    pub(crate) fn at(&self, index: usize) -> &'a str
        requires { index < length self.now }
        ensures { slice_get (map word_bytes_of self.now) index ≡ Some result.now }
    {
        self.items[index].text
    }
}
