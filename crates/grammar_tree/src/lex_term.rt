//! Terms of lexer rules.

ghost use Rattle.std.specs.Prelude.{◌≡◌, IfOk};
ghost use Rattle.grammar_tree.specs.Matches.{any_is_short, has_short, is_short};
ghost use Rattle.grammar_tree.specs.View.{lex_alts, lex_term, lex_terms};
ghost use Rattle.grammar_tree.specs.Written.{LexerTerm, lexer_alts, lexer_seq};

use crate::char_set::CharSet;
use crate::text::Text;
use faults::Memory;
use std::alloc::Global;

/// A term of a lexer rule.
#[cycle(lex)]
#[derive(Drop)]
pub enum LexTerm {
    /// The text between the quotes, its escapes read. It isn't empty.
    Literal(Text),

    /// One character: a set in brackets, a range of literals, `.`, or `~` with its items.
    Set(CharSet),

    /// A lexer rule's name.
    Name(Text),
    Block(LexAlts),
    Opt(Box<LexTerm>),
    Star(Box<LexTerm>),
    Plus(Box<LexTerm>),

    /// The non-greedy star of a set, written `*?`.
    Short(CharSet),
}

/// The terms of one alternative, in written order.
#[cycle(lex)]
#[derive(Drop)]
pub struct LexTerms {
    pub items: Vec<LexTerm>,
}

/// Alternatives, in written order.
#[cycle(lex)]
#[derive(Drop)]
pub struct LexAlts {
    pub items: Vec<LexTerms>,
}

/// The non-greedy star of an equal set.
fn short(set: &CharSet) -> Result<LexTerm, Memory>
    ensures { IfOk result (λ t. lex_term t ≡ LexerTerm.short set.now) }
{
    Ok(LexTerm::Short(set.copy()?))
}

impl LexTerm {
    /// The term at most once.
    pub fn opt(alloc: Global, term: LexTerm) -> Result<LexTerm, Memory>
        ensures { IfOk result (λ t. lex_term t ≡ LexerTerm.opt (lex_term term)) }
    {
        Ok(LexTerm::Opt(Box::new(alloc, term)?))
    }

    /// The term any number of times.
    pub fn star(alloc: Global, term: LexTerm) -> Result<LexTerm, Memory>
        ensures { IfOk result (λ t. lex_term t ≡ LexerTerm.star (lex_term term)) }
    {
        Ok(LexTerm::Star(Box::new(alloc, term)?))
    }

    /// The term once or more.
    pub fn plus(alloc: Global, term: LexTerm) -> Result<LexTerm, Memory>
        ensures { IfOk result (λ t. lex_term t ≡ LexerTerm.plus (lex_term term)) }
    {
        Ok(LexTerm::Plus(Box::new(alloc, term)?))
    }

    /// An equal term.
    #[cycle(copy)]
    pub fn copy(&self, alloc: Global) -> Result<LexTerm, Memory>
        ensures { IfOk result (λ t. lex_term t ≡ lex_term self.now) }
    {
        match self {
            LexTerm::Literal(text) => Ok(LexTerm::Literal(text.copy()?)),
            LexTerm::Set(set) => Ok(LexTerm::Set(set.copy()?)),
            LexTerm::Name(name) => Ok(LexTerm::Name(name.copy()?)),
            LexTerm::Block(alts) => Ok(LexTerm::Block(alts.copy(alloc)?)),
            LexTerm::Opt(term) => LexTerm::opt(alloc, term.copy(alloc)?),
            LexTerm::Star(term) => LexTerm::star(alloc, term.copy(alloc)?),
            LexTerm::Plus(term) => LexTerm::plus(alloc, term.copy(alloc)?),
            LexTerm::Short(set) => short(set),
        }
    }

    /// Whether there is a non-greedy loop in the term.
    #[cycle(short)]
    pub fn has_short(&self) -> bool
        ensures { result ≡ has_short (lex_term self.now) }
    {
        match self {
            LexTerm::Literal(_) | LexTerm::Set(_) | LexTerm::Name(_) => false,
            LexTerm::Block(alts) => alts.any_is_short(),
            LexTerm::Opt(term) | LexTerm::Star(term) | LexTerm::Plus(term) => term.has_short(),
            LexTerm::Short(_) => true,
        }
    }
}

impl LexTerms {
    /// Equal terms, in their order.
    #[cycle(copy)]
    pub fn copy(&self, alloc: Global) -> Result<LexTerms, Memory>
        ensures { IfOk result (λ s. lex_terms s ≡ lex_terms self.now) }
    {
        let mut items = Vec::new(alloc);
        for i in 0..self.items.len() {
            items.push(self.items[i].copy(alloc)?)?;
        }
        Ok(LexTerms { items })
    }

    /// Whether the alternative is non-greedy: there is a non-greedy loop in it.
    #[cycle(short)]
    pub fn is_short(&self) -> bool
        ensures { result ≡ is_short (lexer_seq (lex_terms self.now)) }
    {
        for i in 0..self.items.len() {
            if self.items[i].has_short() {
                return true;
            }
        }
        false
    }
}

impl LexAlts {
    /// Equal alternatives, in their order.
    #[cycle(copy)]
    pub fn copy(&self, alloc: Global) -> Result<LexAlts, Memory>
        ensures { IfOk result (λ a. lex_alts a ≡ lex_alts self.now) }
    {
        let mut items = Vec::new(alloc);
        for i in 0..self.items.len() {
            items.push(self.items[i].copy(alloc)?)?;
        }
        Ok(LexAlts { items })
    }

    /// Whether one of the alternatives is non-greedy.
    #[cycle(short)]
    pub fn any_is_short(&self) -> bool
        ensures { result ≡ any_is_short (lexer_alts (lex_alts self.now)) }
    {
        for i in 0..self.items.len() {
            if self.items[i].is_short() {
                return true;
            }
        }
        false
    }
}
