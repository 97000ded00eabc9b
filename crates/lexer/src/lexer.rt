//! The lexer.

ghost use Rattle.std.specs.Prelude.{◌≡◌, ◌↔◌, ◌<◌, ◌-◌, ◌^◌, IfErr, IfOk, IsTrue, length, map};
ghost use Rattle.std.specs.Str.{chars};
ghost use Rattle.lexer.specs.inner.Built.{IsBuilt};
ghost use Rattle.lexer.specs.Pieces.{ArePiecesOf};
ghost use Rattle.lexer.specs.Tokens.{HasTokens, IsGapText, ReportsStop, token_of};

use crate::piece::Pieces;
use crate::read_pieces::{ReadPieces, read_pieces};
use crate::rules::Rules;
use crate::token::{LexFault, Tokens};
use crate::tokens::read_tokens;
use faults::Memory;
use grammar_tree::Checked;
use std::alloc::Global;
use std::marker::Model;

/// The lexer of a grammar. It holds a copy of its grammar, and contracts see it as that grammar.
///
/// Its rules are the implicit tokens and the lexer rules that aren't fragments, in the order of
/// their kinds. What can be decided once is decided when it is built: each rule is an NFA, in which
/// the rules that it names are written out where they are named; for each character below 128 it is
/// known which alternatives can begin with it, and of all characters which are gap text by
/// themselves. What comes after a set of states by a character below 128 is in a table, as far as
/// it goes.
#[derive(Drop)]
pub struct Lexer {
    checked: Checked,
    rules: Rules,
}

impl Model for Lexer {
    ghost use Rattle.grammar_tree.specs.Written.{CheckedGrammar};
    ghost use Rattle.grammar_tree.specs.inner.Code.{checked_coded};

    ghost Value = { CheckedGrammar };

    ghost coded = { checked_coded };

    ghost view = { λ l. l.checked };

    ghost use Rattle.lexer.specs.inner.Built.{IsBuilt};

    ghost invariant = { λ l. IsBuilt l.checked l.rules };
}

impl Lexer {
    /// The lexer of the grammar.
    ///
    /// Each alternative becomes states, as many as its terms have with the rules that they name
    /// written out where they are named. There are at most 1,000,000 states, and 4,000,000 ranges of
    /// characters in them; more are refused as `Memory`. It takes time and memory near linear in the
    /// states, their ranges and the rules, and 128 times as much time for the states at which
    /// alternatives begin. A table of what comes after sets of states by each character below 128 is
    /// made up to a bound: it has at most 4,096 sets, and 8,388,608 states are looked at for it.
    pub fn build(alloc: Global, checked: &Checked) -> Result<Lexer, Memory>
        ensures { IfOk result (λ lexer. lexer ≡ checked.now) }
    {
        let rules = Rules::build(alloc, checked)?;
        let checked = checked.copy(alloc)?;
        Ok(Lexer { checked, rules })
    }

    /// The tokens of the text: from its beginning on each piece is the longest match of at least one
    /// character, and of the least kind on a tie. Pieces of gap kinds are left out.
    ///
    /// A piece is read one character after another, by each alternative that can begin with its
    /// first character, up to where no state of that alternative remains. By the table each character
    /// takes constant time. Where the table doesn't go on, as at a character of 128 or more, the
    /// alternative is read by its states from the piece's beginning, and each character takes time in
    /// proportion to the states that are reached. So is all that comes after 65,536 bytes, and 4 for
    /// each byte that was matched, were read by the table in vain.
    ///
    /// Where a reading by states went on after its last match and failed, the states that it went
    /// through are kept as a set at one position in each 16 bytes, up to 1,048,576 states in all sets
    /// together; and a later reading ends at such a position if it reaches a kept set. So for a given
    /// grammar the time grows with the text's length, also where many tokens begin that never end, as
    /// long as all sets are kept. In a longer text each such token may be read to the end of the text,
    /// and the time can grow with the square of the length.
    pub fn lex(&self, text: &str) -> Result<Tokens, LexFault>
        requires { length text.now < 2 ^ 32 }
        ensures tokens { IfOk result (λ tokens. HasTokens self.now.grammar (chars text.now) (map token_of tokens.items.items)) }
        ensures fault { IfErr result (ReportsStop self.now.grammar (chars text.now)) }
    {
        let items = read_tokens(
            *self.rules.states.allocator(),
            &self.checked,
            &self.rules,
            text,
        )?;
        Ok(Tokens { items })
    }

    /// The pieces of the text, those of gap kinds too, each with the offset up to which the text decides
    /// it. The refusals are those of [`lex`](Lexer::lex), and so is the time.
    pub fn pieces(&self, text: &str) -> Result<Pieces, LexFault>
        requires { length text.now < 2 ^ 32 - 1 }
        ensures pieces { IfOk result (ArePiecesOf self.now.grammar text.now) }
        ensures fault { IfErr result (ReportsStop self.now.grammar (chars text.now)) }
    {
        let ReadPieces { items, farthest } = read_pieces(
            *self.rules.states.allocator(),
            &self.checked,
            &self.rules,
            text,
        )?;
        Ok(Pieces { items, farthest })
    }

    /// The grammar.
    pub(crate) fn checked(&self) -> &Checked
        ensures { result.now ≡ self.now }
    {
        &self.checked
    }

    /// The rules of its grammar.
    pub(crate) fn rules(&self) -> &Rules
        ensures { IsBuilt self.now result.now }
    {
        &self.rules
    }

    /// Whether the text of this one character is one piece of a gap kind. It takes a search among the
    /// ranges of such characters, which are found once, when the lexer is built.
    pub fn skips(&self, c: char) -> Result<bool, Memory>
        ensures { IfOk result (λ skipped. IsTrue skipped ↔ IsGapText self.now.grammar c) }
    {
        Ok(self.rules.gaps.contains(c))
    }
}
