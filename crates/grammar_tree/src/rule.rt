//! Rules, grammars and kinds of tokens.

ghost use Rattle.std.specs.Prelude.{◌≡◌, IfOk, map};
ghost use Rattle.grammar_tree.specs.GrammarView.{grammar_of, kind_of, rule_of};

use crate::lex_term::LexAlts;
use crate::parser_term::ParserAlts;
use crate::text::Text;
use faults::Memory;
use std::alloc::Global;

/// A rule of a grammar.
#[derive(Drop)]
pub enum Rule {
    /// A rule of the parser.
    Parser {
        name: Text,
        alts: ParserAlts,
    },

    /// A rule of the lexer. A fragment makes no token of its own. `gap` says that a command skips
    /// what the rule matches, or hides it from the parser.
    Lexer {
        name: Text,
        fragment: bool,
        gap: bool,
        alts: LexAlts,
    },
}

/// A grammar: its name, the tokens of its `tokens` blocks, and its rules, each in written order.
#[derive(Drop)]
pub struct Grammar {
    pub name: Text,
    pub tokens: Vec<Text>,
    pub rules: Vec<Rule>,
}

/// Where a kind of tokens comes from.
#[derive(Clone, Copy, Debug, PartialEq, Eq, Drop)]
pub enum KindSource {
    /// A literal in a parser rule.
    Implicit,

    /// A lexer rule, by its place among all rules of the grammar, from 0.
    Written(u32),

    /// A `tokens` block.
    Declared,
}

/// A kind of tokens. The name of an implicit token is its literal, without quotes and escapes.
#[derive(Drop)]
pub struct Kind {
    pub name: Text,

    /// Whether the parser sees no tokens of this kind.
    pub gap: bool,
    pub source: KindSource,
}

impl Rule {
    /// An equal rule.
    pub fn copy(&self, alloc: Global) -> Result<Rule, Memory>
        ensures { IfOk result (λ r. rule_of r ≡ rule_of self.now) }
    {
        match self {
            Rule::Parser { name, alts } => Ok(Rule::Parser {
                name: name.copy()?,
                alts: alts.copy(alloc)?,
            }),
            Rule::Lexer {
                name,
                fragment,
                gap,
                alts,
            } => Ok(Rule::Lexer {
                name: name.copy()?,
                fragment: *fragment,
                gap: *gap,
                alts: alts.copy(alloc)?,
            }),
        }
    }
}

impl Grammar {
    /// An equal grammar.
    pub fn copy(&self, alloc: Global) -> Result<Grammar, Memory>
        ensures { IfOk result (λ g. grammar_of g ≡ grammar_of self.now) }
    {
        let name = self.name.copy()?;
        let tokens = copy_texts(alloc, &self.tokens)?;
        let rules = copy_rules(alloc, &self.rules)?;
        Ok(Grammar {
            name,
            tokens,
            rules,
        })
    }
}

impl Kind {
    /// An equal kind.
    pub fn copy(&self) -> Result<Kind, Memory>
        ensures { IfOk result (λ k. kind_of k ≡ kind_of self.now) }
    {
        Ok(Kind {
            name: self.name.copy()?,
            gap: self.gap,
            source: self.source,
        })
    }
}

fn copy_texts(alloc: Global, texts: &[Text]) -> Result<Vec<Text>, Memory>
    ensures { IfOk result (λ copies. copies.items ≡ texts.now) }
{
    let mut copies = Vec::new(alloc);
    for text in texts {
        copies.push(text.copy()?)?;
    }
    Ok(copies)
}

fn copy_rules(alloc: Global, rules: &[Rule]) -> Result<Vec<Rule>, Memory>
    ensures { IfOk result (λ copies. map rule_of copies.items ≡ map rule_of rules.now) }
{
    let mut copies = Vec::new(alloc);
    for rule in rules {
        copies.push(rule.copy(alloc)?)?;
    }
    Ok(copies)
}
