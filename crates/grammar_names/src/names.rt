//! What the names and literals of parser rules mean.

ghost use Rattle.std.specs.Prelude.{◌≡◌, ℕ, List, ◌+◌, ◌<◌, ◌^◌, false, [], ◌∷◌, slice_get, IfOk, OnOk, length, map, position};
ghost use Rattle.std.specs.List.{filter_map};
ghost use Rattle.std.specs.List.Sorted.{IsStrictlyIncreasing};
ghost use Rattle.std.specs.Option.{option_map_or};
ghost use Rattle.grammar_tree.specs.GrammarView.{grammar_of, kind_of, rule_of};
ghost use Rattle.grammar_tree.specs.Kinds.{any_kinds, has_name, is_just, is_named_by, kinds_of, literal_kind, name_kind};
ghost use Rattle.grammar_tree.specs.Kinds.{other_kinds, parser_rules, reference_kind, rule_number, same_text};
ghost use Rattle.grammar_tree.specs.Size.{grammar_size};
ghost use Rattle.grammar_tree.specs.View.{lex_alts, lex_terms, token_ref};
ghost use Rattle.grammar_tree.specs.Written.{ParserRule, lexer_alts};
ghost use Rattle.grammar_names.specs.Index.{Finds};
ghost use Rattle.grammar_names.specs.inner.Index.{IsAdded};
ghost use Rattle.grammar_names.specs.KindLists.{named_kinds};
ghost use Rattle.grammar_names.specs.inner.Names.{can_stand_for, is_parser_rule_of, next_number};

use crate::index::Index;
use crate::kinds::{common, sorted, visible_kinds, without};
use faults::Memory;
use grammar_tree::{
    Grammar, Kind, KindSource, LexAlts, LexTerm, LexTerms, Rule, Text, TokenRef, TokenRefs,
    counts_fit,
};
use std::alloc::Global;
use std::marker::Model;

/// What the names and literals of a grammar's parser rules, `.` and `~` mean. Contracts see
/// the grammar.
#[derive(Drop)]
pub struct Names<'a> {
    grammar: &'a Grammar,
    rules: Index,
    tokens: Index,
    literals: Index,
    any: Vec<u32>,
}

impl<'a> Model for Names<'a> {
    ghost use Rattle.grammar_tree.specs.Written.{WrittenGrammar};
    ghost use Rattle.grammar_tree.specs.inner.Code.{grammar_coded};

    ghost Value = { WrittenGrammar };

    ghost coded = { grammar_coded };

    ghost use Rattle.grammar_tree.specs.GrammarView.{grammar_of};
    ghost use Rattle.grammar_names.specs.inner.Names.{AreNamesOf};

    ghost view = { λ n. grammar_of n.grammar.now };

    ghost invariant = { λ n. AreNamesOf (grammar_of n.grammar.now) n.rules n.tokens n.literals n.any.items };
}

impl<'a> Names<'a> {
    /// The names of the grammar, whose kinds are given in the order of their numbers. It takes time
    /// near linear in the numbers of its rules and kinds.
    pub fn new(alloc: Global, grammar: &'a Grammar, kinds: &[Kind]) -> Result<Names<'a>, Memory>
        requires numbered { map kind_of kinds.now ≡ kinds_of (grammar_of grammar.now) }
        requires small { grammar_size (grammar_of grammar.now) < 2 ^ 32 }
        ensures { IfOk result (λ names. names ≡ grammar_of grammar.now) }
    {
        counts_fit();
        Ok(Names {
            grammar,
            rules: rule_index(alloc, &grammar.rules)?,
            tokens: token_index(alloc, kinds)?,
            literals: literal_index(alloc, &grammar.rules, kinds)?,
            any: visible_kinds(alloc, kinds)?,
        })
    }

    /// The number of the parser rule with this name. It counts the parser rules alone, from 0.
    pub fn rule_number(&self, name: &Text) -> Option<u32>
        ensures { result ≡ rule_number self.now name.now }
    {
        self.rules.get(name)
    }

    /// The number of the kind that a token's name means.
    pub fn name_kind(&self, name: &Text) -> Option<u32>
        ensures { result ≡ name_kind self.now name.now }
    {
        self.tokens.get(name)
    }

    /// The number of the kind that a literal in a parser rule means.
    pub fn literal_kind(&self, literal: &Text) -> Option<u32>
        ensures { result ≡ literal_kind self.now literal.now }
    {
        self.literals.get(literal)
    }

    /// `.`: the numbers of all kinds that aren't gap kinds, rising.
    pub fn any_kinds(&self) -> &[u32]
        ensures kinds { result.now ≡ any_kinds self.now }
        ensures rising { IsStrictlyIncreasing result.now }
    {
        self.any.as_slice()
    }

    /// The number of the kind that a literal or a token's name means.
    pub fn reference_kind(&self, token: &TokenRef) -> Option<u32>
        ensures { result ≡ reference_kind self.now (token_ref token.now) }
    {
        match token {
            TokenRef::Literal(text) => self.literal_kind(text),
            TokenRef::Name(name) => self.name_kind(name),
        }
    }

    /// `~`: the numbers of all kinds that aren't gap kinds but the named ones, rising. It takes time
    /// near linear in the number of kinds.
    pub fn other_kinds(&self, alloc: Global, tokens: &TokenRefs) -> Result<Vec<u32>, Memory>
        ensures { IfOk result (λ kinds. kinds.items ≡ other_kinds self.now (map token_ref tokens.now.items.items)) }
    {
        let left_out = self.reference_kinds(alloc, &tokens.items)?;
        without(alloc, self.any_kinds(), left_out.as_slice())
    }

    /// The numbers of the kinds that `~` leaves out: those that a token means and that aren't
    /// gap kinds, rising. It takes time near linear in the number of tokens.
    pub fn named_kinds(&self, alloc: Global, tokens: &TokenRefs) -> Result<Vec<u32>, Memory>
        ensures { IfOk result (λ kinds. kinds.items ≡ named_kinds self.now (map token_ref tokens.now.items.items)) }
    {
        let named = self.reference_kinds(alloc, &tokens.items)?;
        let named = sorted(named);
        common(alloc, self.any_kinds(), named.as_slice())
    }

    /// The numbers of the kinds that the tokens mean.
    fn reference_kinds(&self, alloc: Global, tokens: &[TokenRef]) -> Result<Vec<u32>, Memory>
        ensures { IfOk result (λ kinds. kinds.items ≡ filter_map (reference_kind self.now) (map token_ref tokens.now)) }
    {
        let mut kinds = Vec::new(alloc);
        for token in tokens {
            if let Some(kind) = self.reference_kind(token) {
                kinds.push(kind)?;
            }
        }
        Ok(kinds)
    }
}

/// Adds the rule's name, where it is a parser rule, with this number. The answer is the number of
/// the next parser rule.
fn add_rule(alloc: Global, index: &mut Index, rule: &Rule, number: u32) -> Result<u32, Memory>
    requires { number + 1 < 2 ^ 32 }
    ensures next { IfOk result (λ next. next ≡ next_number (rule_of rule.now) number) }
    ensures added { OnOk result (IsAdded index.old index.new (is_parser_rule_of (rule_of rule.now)) number) }
{
    match rule {
        Rule::Parser { name, .. } => {
            index.add(alloc, name, number)?;
            Ok(number + 1)
        }
        Rule::Lexer { .. } => Ok(number),
    }
}

/// The parser rules by their names.
fn rule_index(alloc: Global, rules: &[Rule]) -> Result<Index, Memory>
    requires { length rules.now < 2 ^ 32 }
    ensures { IfOk result (λ index. Finds index (λ n. position (λ (r : ParserRule). same_text r.name n) (parser_rules (map rule_of rules.now)))) }
{
    let mut index = Index::new(alloc);
    let mut number = 0;
    for rule in rules {
        number = add_rule(alloc, &mut index, rule, number)?;
    }
    Ok(index)
}

/// Adds the kind's name with this number, where a name can mean it.
fn add_token(alloc: Global, index: &mut Index, kind: &Kind, number: u32) -> Result<(), Memory>
    ensures { OnOk result (IsAdded index.old index.new (λ n. has_name n (kind_of kind.now)) number) }
{
    match kind.source {
        KindSource::Implicit => Ok(()),
        KindSource::Written(_) => index.add(alloc, &kind.name, number),
        KindSource::Declared => index.add(alloc, &kind.name, number),
    }
}

/// The kinds by the names that can mean them.
fn token_index(alloc: Global, kinds: &[Kind]) -> Result<Index, Memory>
    requires { length kinds.now < 2 ^ 32 }
    ensures { IfOk result (λ index. Finds index (λ n. position (has_name n) (map kind_of kinds.now))) }
{
    let mut index = Index::new(alloc);
    for (number, kind) in kinds.iter().enumerate() {
        add_token(alloc, &mut index, kind, number as u32)?;
    }
    Ok(index)
}

/// The literal that the terms are, where they are one literal alone.
fn literal_alone(terms: &LexTerms) -> Option<&Text>
    ensures { (t : List ℕ) → is_just t (lexer_alts (lex_terms terms.now ∷ [])) ≡ option_map_or (λ u. same_text u.now t) result false }
{
    let terms = terms.items.as_slice();
    if terms.len() != 1 {
        return None;
    }
    match &terms[0] {
        LexTerm::Literal(text) => Some(text),
        _ => None,
    }
}

/// The literal that the alternatives are, where they are one literal alone.
fn single_literal(alts: &LexAlts) -> Option<&Text>
    ensures { (t : List ℕ) → is_just t (lexer_alts (lex_alts alts.now)) ≡ option_map_or (λ u. same_text u.now t) result false }
{
    let alts = alts.items.as_slice();
    if alts.len() != 1 {
        return None;
    }
    literal_alone(&alts[0])
}

/// The literal that can name the rule: it has no command, is no fragment, and is that literal alone.
pub fn literal_of(rule: &Rule) -> Option<&Text>
    ensures { (t : List ℕ) → is_named_by t (rule_of rule.now) ≡ option_map_or (λ u. same_text u.now t) result false }
{
    match rule {
        Rule::Lexer {
            fragment: false,
            gap: false,
            alts,
            ..
        } => single_literal(alts),
        _ => None,
    }
}

/// The literal that can name the rule at this place.
fn literal_at(rules: &[Rule], place: u32) -> Option<&Text>
    ensures { (t : List ℕ) → option_map_or (is_named_by t) (slice_get (map rule_of rules.now) place) false ≡ option_map_or
        (λ u. same_text u.now t) result false }
{
    match rules.get(place as usize) {
        Some(rule) => literal_of(rule),
        None => None,
    }
}

/// Adds the literal that can mean the kind, with this number.
fn add_literal(
    alloc: Global,
    index: &mut Index,
    rules: &[Rule],
    kind: &Kind,
    number: u32,
) -> Result<(), Memory>
    ensures { OnOk result (IsAdded index.old index.new (can_stand_for (map rule_of rules.now) (kind_of kind.now)) number) }
{
    match kind.source {
        KindSource::Implicit => index.add(alloc, &kind.name, number),
        KindSource::Written(place) => match literal_at(rules, place) {
            Some(literal) => index.add(alloc, literal, number),
            None => Ok(()),
        },
        KindSource::Declared => Ok(()),
    }
}

/// The kinds by the literals that mean them.
fn literal_index(alloc: Global, rules: &[Rule], kinds: &[Kind]) -> Result<Index, Memory>
    requires { length kinds.now < 2 ^ 32 }
    ensures { IfOk result (λ index. Finds index (λ t. position (λ kind. can_stand_for (map rule_of rules.now) kind t) (map kind_of kinds.now))) }
{
    let mut index = Index::new(alloc);
    for (number, kind) in kinds.iter().enumerate() {
        add_literal(alloc, &mut index, rules, kind, number as u32)?;
    }
    Ok(index)
}
