//! Languages of grammars.

ghost use Rattle.std.specs.Prelude.{◌≡◌, ◌<◌, ◌^◌, ℕ, List, IfErr, IfOk, length, map};
ghost use Rattle.std.specs.Str.{chars};
ghost use Rattle.lexer.specs.Tokens.{HasTokens, token_of};
ghost use Rattle.normal_form.specs.NormalOf.{normal_of};
ghost use Rattle.cases_answers.specs.StartTree.{HasKinds, IsStartTree};
ghost use Rattle.cases_answers.specs.Language.{IsLanguageOf};
ghost use Rattle.cases_answers.specs.TreeFaults.{IsLanguageFault, IsTextFault};

use crate::fault::{LanguageFault, TreeFault};
use crate::lists::{kinds_of, start_tree};
use faults::Memory;
use grammar_tree::Checked;
use lexer::{LexFault, Lexer, Tokens};
use normal_form::Normal;
use normal_form_build::normalise;
use std::alloc::Global;
use syntax_tree::Tree;
use test_grammars::checked;

/// A grammar's lexer and normal form.
#[derive(Drop)]
pub struct Language {
    pub lexer: Lexer,
    pub normal: Normal,
}

/// The language of a grammar.
fn language_of(alloc: Global, grammar: &Checked) -> Result<Language, Memory>
    ensures lexer { IfOk result (λ language. language.lexer ≡ grammar.now) }
    ensures normal { IfOk result (λ language. language.normal ≡ normal_of grammar.now) }
{
    let normal = normalise(alloc, grammar)?;
    let lexer = Lexer::build(alloc, grammar)?;
    Ok(Language { lexer, normal })
}

impl Language {
    /// The language of the grammar that the text spells, whose start is its first parser rule. Its time
    /// is that of [`checked`], [`normalise`] and [`Lexer::build`].
    pub fn new(alloc: Global, text: &str) -> Result<Language, LanguageFault>
        ensures of { IfOk result (IsLanguageOf text.now) }
        ensures fault { IfErr result (IsLanguageFault text.now) }
    {
        match checked(alloc, text, None) {
            Ok(grammar) => language_of(alloc, &grammar).map_err(LanguageFault::Memory),
            Err(refused) => Err(LanguageFault::Refused(refused)),
        }
    }

    /// The tokens of a text. Its time is that of [`Lexer::lex`].
    pub fn tokens(&self, text: &str) -> Result<Tokens, TreeFault>
        ensures tokens { IfOk result (λ tokens. HasTokens self.now.lexer.grammar (chars text.now) (map token_of tokens.items.items)) }
        ensures fault { IfErr result (IsTextFault self.now.lexer.grammar text.now) }
    {
        if text.len() > u32::MAX as usize {
            return Err(TreeFault::LongText);
        }
        match self.lexer.lex(text) {
            Ok(tokens) => Ok(tokens),
            Err(LexFault::NoToken { offset }) => Err(TreeFault::NoToken { offset }),
            Err(LexFault::Memory(memory)) => Err(TreeFault::Memory(memory)),
        }
    }

    /// The kinds of a text's tokens.
    pub fn kinds(&self, alloc: Global, text: &str) -> Result<Vec<u32>, TreeFault>
        ensures kinds { IfOk result (λ kinds. HasKinds self.now.lexer.grammar (chars text.now) kinds.items) }
        ensures few { IfOk result (λ kinds. length kinds.items < 2 ^ 32) }
        ensures fault { IfErr result (IsTextFault self.now.lexer.grammar text.now) }
    {
        let tokens = self.tokens(text)?;
        let kinds = kinds_of(alloc, &tokens)?;
        Ok(kinds)
    }

    /// The preferred tree of a text; None where the start rule doesn't derive its kinds.
    pub fn tree(&self, alloc: Global, text: &str) -> Result<Option<Tree>, TreeFault>
        ensures tree { IfOk result (λ answer. (kinds : List ℕ) × HasKinds self.now.lexer.grammar (chars text.now) kinds
            × IsStartTree self.now.normal kinds answer) }
        ensures fault { IfErr result (IsTextFault self.now.lexer.grammar text.now) }
    {
        let kinds = self.kinds(alloc, text)?;
        let tree = start_tree(alloc, &self.normal, &kinds)?;
        Ok(tree)
    }
}
