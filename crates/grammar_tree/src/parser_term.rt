//! Terms of parser rules.

ghost use Rattle.std.specs.Prelude.{◌≡◌, IfOk, map};
ghost use Rattle.grammar_tree.specs.View.{parser_alts, parser_term, parser_terms, token_ref};
ghost use Rattle.grammar_tree.specs.Written.{WrittenTerm};

use crate::text::Text;
use faults::Memory;
use std::alloc::Global;

/// A token that `~` leaves out.
#[derive(Drop)]
pub enum TokenRef {
    /// The text between the quotes, its escapes read.
    Literal(Text),
    Name(Text),
}

/// The tokens that one `~` leaves out, in written order.
#[derive(Drop)]
pub struct TokenRefs {
    pub items: Vec<TokenRef>,
}

/// A term of a parser rule.
#[cycle(parser)]
#[derive(Drop)]
pub enum ParserTerm {
    /// The text between the quotes, its escapes read. It isn't empty.
    Literal(Text),

    /// A parser rule's name, or a token's.
    Name(Text),

    /// `.`: any one token.
    Any,

    /// `~`: any one token but these.
    Not(TokenRefs),
    Block(ParserAlts),
    Opt(Box<ParserTerm>),
    Star(Box<ParserTerm>),
    Plus(Box<ParserTerm>),

    /// `EOF`: the end of the input.
    Eof,
}

/// The terms of one alternative, in written order.
#[cycle(parser)]
#[derive(Drop)]
pub struct ParserTerms {
    pub items: Vec<ParserTerm>,
}

/// Alternatives, in written order.
#[cycle(parser)]
#[derive(Drop)]
pub struct ParserAlts {
    pub items: Vec<ParserTerms>,
}

impl TokenRef {
    /// An equal reference.
    pub fn copy(&self) -> Result<TokenRef, Memory>
        ensures { IfOk result (λ t. token_ref t ≡ token_ref self.now) }
    {
        match self {
            TokenRef::Literal(text) => Ok(TokenRef::Literal(text.copy()?)),
            TokenRef::Name(name) => Ok(TokenRef::Name(name.copy()?)),
        }
    }
}

impl TokenRefs {
    /// Equal references, in their order.
    pub fn copy(&self, alloc: Global) -> Result<TokenRefs, Memory>
        ensures { IfOk result (λ r. map token_ref r.items.items ≡ map token_ref self.now.items.items) }
    {
        let mut items = Vec::new(alloc);
        for token in self.items.iter() {
            items.push(token.copy()?)?;
        }
        Ok(TokenRefs { items })
    }
}

impl ParserTerm {
    /// The term at most once.
    pub fn opt(alloc: Global, term: ParserTerm) -> Result<ParserTerm, Memory>
        ensures { IfOk result (λ t. parser_term t ≡ WrittenTerm.opt (parser_term term)) }
    {
        Ok(ParserTerm::Opt(Box::new(alloc, term)?))
    }

    /// The term any number of times.
    pub fn star(alloc: Global, term: ParserTerm) -> Result<ParserTerm, Memory>
        ensures { IfOk result (λ t. parser_term t ≡ WrittenTerm.star (parser_term term)) }
    {
        Ok(ParserTerm::Star(Box::new(alloc, term)?))
    }

    /// The term once or more.
    pub fn plus(alloc: Global, term: ParserTerm) -> Result<ParserTerm, Memory>
        ensures { IfOk result (λ t. parser_term t ≡ WrittenTerm.plus (parser_term term)) }
    {
        Ok(ParserTerm::Plus(Box::new(alloc, term)?))
    }

    /// An equal term.
    #[cycle(copy)]
    pub fn copy(&self, alloc: Global) -> Result<ParserTerm, Memory>
        ensures { IfOk result (λ t. parser_term t ≡ parser_term self.now) }
    {
        match self {
            ParserTerm::Literal(text) => Ok(ParserTerm::Literal(text.copy()?)),
            ParserTerm::Name(name) => Ok(ParserTerm::Name(name.copy()?)),
            ParserTerm::Any => Ok(ParserTerm::Any),
            ParserTerm::Not(refs) => Ok(ParserTerm::Not(refs.copy(alloc)?)),
            ParserTerm::Block(alts) => Ok(ParserTerm::Block(alts.copy(alloc)?)),
            ParserTerm::Opt(term) => ParserTerm::opt(alloc, term.copy(alloc)?),
            ParserTerm::Star(term) => ParserTerm::star(alloc, term.copy(alloc)?),
            ParserTerm::Plus(term) => ParserTerm::plus(alloc, term.copy(alloc)?),
            ParserTerm::Eof => Ok(ParserTerm::Eof),
        }
    }
}

impl ParserTerms {
    /// Equal terms, in their order.
    #[cycle(copy)]
    pub fn copy(&self, alloc: Global) -> Result<ParserTerms, Memory>
        ensures { IfOk result (λ s. parser_terms s ≡ parser_terms self.now) }
    {
        let mut items = Vec::new(alloc);
        for i in 0..self.items.len() {
            items.push(self.items[i].copy(alloc)?)?;
        }
        Ok(ParserTerms { items })
    }
}

impl ParserAlts {
    /// Equal alternatives, in their order.
    #[cycle(copy)]
    pub fn copy(&self, alloc: Global) -> Result<ParserAlts, Memory>
        ensures { IfOk result (λ a. parser_alts a ≡ parser_alts self.now) }
    {
        let mut items = Vec::new(alloc);
        for i in 0..self.items.len() {
            items.push(self.items[i].copy(alloc)?)?;
        }
        Ok(ParserAlts { items })
    }
}
