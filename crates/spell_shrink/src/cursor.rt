//! Which spelling is tried, and for which token.

ghost use Rattle.std.specs.Prelude.{◌≡◌, ◌<◌, ◌+◌, ◌-◌, ℕ, List, IfSome, Some, length, map, slice_get};
ghost use Rattle.lexer.specs.Tokens.{token_of};
ghost use Rattle.spell_shrink.specs.KindWords.{AreWordsOf, word_bytes_of};
ghost use Rattle.spell_shrink.specs.Respelled.{spell_trials};
ghost use Rattle.spell_shrink.specs.inner.Cursors.{AreChoices, IsCursor, trials_of};
ghost use Rattle.spell_shrink.specs.inner.Spelled.{respelling_of};

use crate::spelled::Spelled;
use crate::words::Words;
use lexer::Token;

/// Which spelling is tried, and for which token: the index of the token among the kept ones, the index of
/// the spelling in [`Words`], and the index after the last one that is tried for it.
#[derive(Clone, Copy)]
pub(crate) struct Cursor {
    pub(crate) token: usize,
    pub(crate) next: usize,
    pub(crate) end: usize,
}

impl Cursor {
    /// At the next spelling of the same token.
    pub(crate) fn after(self) -> Cursor
        requires { self.next < self.end }
        ensures { result ≡ record self { next = self.next + 1 } }
    {
        Cursor {
            token: self.token,
            next: self.next + 1,
            end: self.end,
        }
    }
}

/// The tokens of a start, and the spellings of each kind.
#[derive(Clone, Copy)]
pub(crate) struct Choices<'a> {
    pub(crate) tokens: &'a [Token],
    pub(crate) words: &'a Words<'a>,
}

impl<'a> Choices<'a> {
    /// The shorter spellings of the kind of the token at the index. None where there is no such token.
    pub(crate) fn at_token(self, spelled: &Spelled<'a>, token: usize) -> Option<Cursor>
        requires { AreChoices (map token_of self.tokens.now) spelled.now }
        ensures trials { (start : List ℕ) → AreWordsOf start (map token_of self.entry.tokens.now) self.entry.words.now
            → trials_of start (map token_of self.entry.tokens.now) self.entry.words.now (respelling_of spelled.now) result
            ≡ spell_trials start (map token_of self.entry.tokens.now) (length (respelling_of spelled.now) - token) token (respelling_of spelled.now) }
        ensures cursor { IfSome result (IsCursor (map token_of self.entry.tokens.now) self.entry.words.now (respelling_of spelled.now)) }
        ensures at { IfSome result (λ cursor. cursor.token ≡ token) }
    {
        if token >= spelled.kept.len() {
            return None;
        }
        let number = spelled.kept[token];
        let kind = self.tokens[number as usize].kind;
        let (next, end) = self.words.shorter(kind, spelled.words[token].len());
        Some(Cursor { token, next, end })
    }

    /// The first spelling from the cursor on. None where there is none.
    pub(crate) fn first_from(self, spelled: &Spelled<'a>, cursor: Option<Cursor>) -> Option<Cursor>
        requires choices { AreChoices (map token_of self.tokens.now) spelled.now }
        requires cursor { IfSome cursor (IsCursor (map token_of self.tokens.now) self.words.now (respelling_of spelled.now)) }
        ensures trials { (start : List ℕ) → AreWordsOf start (map token_of self.entry.tokens.now) self.entry.words.now
            → trials_of start (map token_of self.entry.tokens.now) self.entry.words.now (respelling_of spelled.now) result
            ≡ trials_of start (map token_of self.entry.tokens.now) self.entry.words.now (respelling_of spelled.now) cursor }
        ensures cursor { IfSome result (IsCursor (map token_of self.entry.tokens.now) self.entry.words.now (respelling_of spelled.now)) }
        ensures some { IfSome result (λ first. first.next < first.end) }
    {
        let mut cursor = cursor?;
        while cursor.next >= cursor.end {
            cursor = self.at_token(spelled, cursor.token + 1)?;
        }
        Some(cursor)
    }

    /// The spelling at the cursor.
    pub(crate) fn word(self, cursor: Cursor) -> &'a str
        requires { cursor.next < length self.words.now }
        ensures { slice_get (map word_bytes_of self.entry.words.now) cursor.next ≡ Some result.now }
    {
        self.words.at(cursor.next)
    }
}
