//! Texts that are printed of a start's tokens.

ghost use Rattle.std.specs.Prelude.{◌≡◌, ◌↔◌, ◌<◌, ◌≤◌, ◌^◌, List, IfOk, IsTrue, MatchOption, length};
ghost use Rattle.std.specs.Str.{chars, IsUtf8};
ghost use Rattle.grammar_tree.specs.Checked.{StartDerives};
ghost use Rattle.grammar_tree.specs.Lexes.{PlacedToken};
ghost use Rattle.lexer.specs.Tokens.{HasTokens};
ghost use Rattle.token_print.specs.declared.style.Style.{Style as TextStyle};
ghost use Rattle.reduce_step.specs.Limits.{text_limit};
ghost use Rattle.reduce_trees_mode.specs.Candidates.{InLanguage};
ghost use Rattle.cert_check_texts.specs.Texts.{IsPrintOf, IsTreeStart};
ghost use Rattle.cert_check_texts.specs.inner.Fields.{IsPrint, IsPrintedInPieces, kinds_in, tokens_in};

use crate::candidates::Candidates;
use crate::laws::texts_are_short;
use crate::numbers::Numbers;
use crate::prints::{Print, separators};
use chart_parser_ends::derives;
use faults::Memory;
use grammar_tree::Checked;
use keep_guard::{KeepTexts, holds_all};
use lexer::{LexFault, Lexer, Tokens};
use normal_form::{Normal, Sym, equal_languages};
use normal_form_build::normalise;
use std::alloc::Global;
use std::marker::Model;
use token_print::{
    Layout, Skips, Style, equal_characters_equal_bytes, printed_one_way, skips,
    tokens_are_in_order, tokens_are_longest_matches, tokens_are_unique, tokens_have_no_stop,
};

/// A start with its tokens, by a grammar, and the texts that stay.
#[derive(Drop)]
pub struct TreeTexts<'s, 'k> {
    alloc: Global,
    start: &'s str,
    tokens: Tokens,
    lexer: Lexer,
    normal: Normal,
    skips: Skips,
    separators: Vec<&'static str>,
    equal: Numbers<'s>,
    keeps: KeepTexts<'k>,
}

impl<'s, 'k> Model for TreeTexts<'s, 'k> {
    ghost use Rattle.std.specs.Prelude.{map};
    ghost use Rattle.lexer.specs.Tokens.{token_of};
    ghost use Rattle.cert_check_texts.specs.inner.Fields.{AreFieldsOf};
    ghost use Rattle.cert_check_texts.specs.Texts.{TreeStart};
    ghost use Rattle.cert_check_texts.specs.inner.Code.{start_coded};

    ghost Value = { TreeStart };

    ghost coded = { start_coded };

    ghost view = { λ t. record {
      grammar = t.lexer;
      start = t.start.now;
      tokens = map token_of t.tokens.items.items;
      keeps = t.keeps;
    } };

    ghost invariant = { λ t. AreFieldsOf t.lexer t.start.now t.tokens t.normal t.skips t.separators.items t.equal };
}

/// The tokens of a text that is in the lexer's language.
fn tokens_of_start(lexer: &Lexer, start: &str) -> Result<Tokens, Memory>
    requires short { length start.now ≤ text_limit }
    requires language { InLanguage lexer.now start.now }
    ensures { IfOk result (λ tokens. HasTokens lexer.now.grammar (chars start.now) (tokens_in tokens)) }
{
    tokens_have_no_stop();
    match lexer.lex(start) {
        Ok(tokens) => Ok(tokens),
        // The text has tokens.
        Err(LexFault::NoToken { .. }) => unreachable!(),
        Err(LexFault::Memory(memory)) => Err(memory),
    }
}

/// The kinds of the tokens.
fn kinds_of(alloc: Global, tokens: &Tokens) -> Result<Vec<u32>, Memory>
    ensures { IfOk result (λ kinds. kinds.items ≡ kinds_in (tokens_in tokens.now)) }
{
    let mut kinds = Vec::new(alloc);
    for token in &tokens.items {
        kinds.push(token.kind)?;
    }
    Ok(kinds)
}

impl<'s, 'k> TreeTexts<'s, 'k> {
    /// Of a start of at most 1,048,576 bytes, which is in the grammar's language. It builds the
    /// grammar's lexer and its normal form, and cuts the start into tokens once.
    pub fn new(
        alloc: Global,
        checked: &Checked,
        start: &'s str,
        keeps: KeepTexts<'k>,
    ) -> Result<TreeTexts<'s, 'k>, Memory>
        requires short { length start.now ≤ text_limit }
        requires language { InLanguage checked.now start.now }
        ensures grammar { IfOk result (λ texts. texts.grammar ≡ checked.now) }
        ensures start { IfOk result (λ texts. texts.start ≡ start.now) }
        ensures keeps { IfOk result (λ texts. texts.keeps ≡ keeps.entry) }
        ensures tokens { IfOk result IsTreeStart }
    {
        tokens_are_in_order();
        checked.is_checked();
        let lexer = Lexer::build(alloc, checked)?;
        let normal = normalise(alloc, checked)?;
        let tokens = tokens_of_start(&lexer, start)?;
        let skips = skips(&lexer)?;
        let layout = Layout {
            start,
            tokens: &tokens.items,
            skips,
            style: Style::AsWas,
        };
        let separators = separators(alloc, &layout)?;
        let equal = Numbers::of_tokens(alloc, start, &tokens.items)?;
        Ok(TreeTexts {
            alloc,
            start,
            tokens,
            lexer,
            normal,
            skips,
            separators,
            equal,
            keeps,
        })
    }

    /// The tokens of another text, if it has any reading.
    fn tokens_of(&self, text: &str) -> Result<Option<Tokens>, Memory>
        requires { length text.now < 2 ^ 32 }
        ensures { IfOk result (λ found. MatchOption found ((tokens : List PlacedToken) → ¬ HasTokens self.now.grammar.grammar (chars text.now) tokens)
            (λ tokens. HasTokens self.now.grammar.grammar (chars text.now) (tokens_in tokens))) }
    {
        tokens_have_no_stop();
        match self.lexer.lex(text) {
            Ok(tokens) => Ok(Some(tokens)),
            Err(LexFault::NoToken { .. }) => Ok(None),
            Err(LexFault::Memory(memory)) => Err(memory),
        }
    }

    /// Whether the text, which has these tokens, is printed in this style of some of the start's tokens
    /// with their kinds and spellings, one after another.
    fn is_print_in_pieces(&self, style: Style, text: &str, found: &Tokens) -> Result<bool, Memory>
        requires pieces { IsPrintedInPieces self.now.tokens style }
        requires utf8 { IsUtf8 text.now }
        requires tokens { HasTokens self.now.grammar.grammar (chars text.now) (tokens_in found.now) }
        ensures { IfOk result (λ is. IsTrue is ↔ IsPrintOf self.now style text.now) }
    {
        tokens_are_unique();
        printed_one_way();
        equal_characters_equal_bytes();
        tokens_are_longest_matches();
        tokens_are_in_order();
        let print = Print {
            alloc: self.alloc,
            layout: Layout {
                start: self.start,
                tokens: &self.tokens.items,
                skips: self.skips,
                style,
            },
            separators: &self.separators,
            equal: &self.equal,
            text: text.as_bytes(),
        };
        print.is_printed_of(text, &found.items)
    }

    /// Whether it is printed so as it was. A start without tokens is printed whole.
    fn is_print_as_was(&self, text: &str, found: &Tokens) -> Result<bool, Memory>
        requires utf8 { IsUtf8 text.now }
        requires tokens { HasTokens self.now.grammar.grammar (chars text.now) (tokens_in found.now) }
        ensures { IfOk result (λ is. IsTrue is ↔ IsPrintOf self.now TextStyle.AsWas text.now) }
    {
        if self.tokens.items.is_empty() {
            return Ok(text == self.start);
        }
        self.is_print_in_pieces(Style::AsWas, text, found)
    }

    /// Whether it is printed so in this style.
    fn is_print(&self, style: Style, text: &str, found: &Tokens) -> Result<bool, Memory>
        requires utf8 { IsUtf8 text.now }
        requires tokens { HasTokens self.now.grammar.grammar (chars text.now) (tokens_in found.now) }
        ensures { IfOk result (λ is. IsTrue is ↔ IsPrintOf self.now style text.now) }
    {
        match style {
            Style::Squeezed => self.is_print_in_pieces(Style::Squeezed, text, found),
            Style::AsWas => self.is_print_as_was(text, found),
        }
    }

    /// Whether the grammar's start rule derives these tokens.
    fn are_derived(&self, found: &Tokens) -> Result<bool, Memory>
        requires { length (tokens_in found.now) < 2 ^ 32 }
        ensures { IfOk result (λ derived. IsTrue derived ↔ StartDerives self.now.grammar (kinds_in (tokens_in found.now))) }
    {
        equal_languages();
        let kinds = kinds_of(self.alloc, found)?;
        let start = Sym::Rule(self.normal.start());
        derives(self.alloc, &self.normal, start, &kinds)
    }

    /// Whether the text, which has these tokens, is printed so in one of the styles.
    fn is_some_print(&self, text: &str, found: &Tokens) -> Result<bool, Memory>
        requires utf8 { IsUtf8 text.now }
        requires tokens { HasTokens self.now.grammar.grammar (chars text.now) (tokens_in found.now) }
        ensures { IfOk result (λ is. IsTrue is ↔ IsPrint self.now text.now) }
    {
        let as_was = self.is_print(Style::AsWas, text, found)?;
        if as_was {
            return Ok(true);
        }
        self.is_print(Style::Squeezed, text, found)
    }

    /// Whether the text, which has these tokens, is printed so, and in the grammar's language.
    fn is_read_text(&self, text: &str, found: &Tokens) -> Result<bool, Memory>
        requires utf8 { IsUtf8 text.now }
        requires short { length text.now < 2 ^ 32 }
        requires tokens { HasTokens self.now.grammar.grammar (chars text.now) (tokens_in found.now) }
        ensures { IfOk result (λ is. IsTrue is ↔ (IsPrint self.now text.now × InLanguage self.now.grammar text.now)) }
    {
        tokens_are_unique();
        tokens_are_in_order();
        let printed = self.is_some_print(text, found)?;
        if !printed {
            return Ok(false);
        }
        self.are_derived(found)
    }

    /// Whether the text is printed of some of the start's tokens, and in the grammar's language.
    fn is_tree_text(&self, text: &str) -> Result<bool, Memory>
        requires utf8 { IsUtf8 text.now }
        requires short { length text.now < 2 ^ 32 }
        ensures { IfOk result (λ is. IsTrue is ↔ (IsPrint self.now text.now × InLanguage self.now.grammar text.now)) }
    {
        let found = self.tokens_of(text)?;
        match found {
            None => Ok(false),
            Some(found) => self.is_read_text(text, &found),
        }
    }
}

impl<'s, 'k> Candidates for TreeTexts<'s, 'k> {
    ghost use Rattle.cert_check_texts.specs.Texts.{IsCandidateFrom};

    ghost IsCandidate = { IsCandidateFrom };

    /// What it takes is said at the head of this crate.
    fn is_candidate(&self, text: &[u8]) -> Result<bool, Memory> {
        texts_are_short();
        if text.len() > 2 * self.start.len() + 1 {
            return Ok(false);
        }
        if !holds_all(text, &self.keeps) {
            return Ok(false);
        }
        match str::from_utf8(text) {
            Ok(read) => self.is_tree_text(read),
            Err(_) => Ok(false),
        }
    }
}
