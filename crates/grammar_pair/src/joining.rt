//! Joining a lexer grammar and a parser grammar.

ghost use Rattle.std.specs.Prelude.{◌≡◌, ◌≤◌, ◌+◌, ℕ, IfErr, IfOk, List, MatchResult, Option, filter, find, is_none, length, map, not, option_map};
ghost use Rattle.std.specs.List.{filter_map};
ghost use Rattle.faults.specs.Memory.{ran_out};
ghost use Rattle.grammar_names.specs.Index.{Finds};
ghost use Rattle.grammar_tree.specs.GrammarView.{grammar_of, rule_of};
ghost use Rattle.grammar_tree.specs.Kinds.{as_literal, lexer_rules, parser_rules, same_text};
ghost use Rattle.grammar_tree.specs.View.{token_ref};
ghost use Rattle.grammar_tree.specs.Size.{grammar_size};
ghost use Rattle.grammar_tree.specs.Written.{LexerRule, ParserRule, WrittenGrammar};
ghost use Rattle.grammar_pair.specs.Joined.{HasNoImplicitKind, IsJoined, IsPairFault, LexesByLexer};
ghost use Rattle.grammar_pair.specs.Joined.{RulesAreAsWritten, first, first_implicit, joined, wrong_rules};
ghost use Rattle.grammar_pair.specs.inner.Read.{IsJoinFault, IsJoinOf, unnamed_by};
ghost use Rattle.grammar_pair.specs.declared.fault.PairFault.TheVariants.{Memory as OutOfMemory};

use crate::fault::PairFault;
use crate::reading::{read_lexer, read_parser};
use faults::Limit;
use grammar_check_parser_rules::{Key, references_of, rules_by};
use grammar_names::Index;
use grammar_tree::{Grammar, Memory, Rule, Text, TokenRef};
use std::alloc::Global;

/// The first of the names that isn't this one.
fn first_other(names: &[Text], name: &Text) -> Result<Option<Text>, Memory>
    ensures { IfOk result (λ found. found ≡ first (filter (λ other. not (same_text other name.now)) names.now)) }
{
    let mut rest = names;
    while let [other, further @ ..] = rest {
        if !other.is(name) {
            return Ok(Some(other.copy()?));
        }
        rest = further;
    }
    Ok(None)
}

/// The name of the first parser rule.
fn first_parser_rule(rules: &[Rule]) -> Result<Option<Text>, Memory>
    ensures { IfOk result (λ found. found ≡ first (map (λ (r : ParserRule). r.name) (parser_rules (map rule_of rules.now)))) }
{
    let mut rest = rules;
    while let [rule, further @ ..] = rest {
        if let Rule::Parser { name, .. } = rule {
            return Ok(Some(name.copy()?));
        }
        rest = further;
    }
    Ok(None)
}

/// The name of the first lexer rule.
fn first_lexer_rule(rules: &[Rule]) -> Result<Option<Text>, Memory>
    ensures { IfOk result (λ found. found ≡ first (map (λ (r : LexerRule). r.name) (lexer_rules (map rule_of rules.now)))) }
{
    let mut rest = rules;
    while let [rule, further @ ..] = rest {
        if let Rule::Lexer { name, .. } = rule {
            return Ok(Some(name.copy()?));
        }
        rest = further;
    }
    Ok(None)
}

/// The first rule that is in the wrong text: a parser rule of the lexer, or else a lexer rule of the parser.
fn wrong_rule(lexer: &Grammar, parser: &Grammar) -> Result<Option<Text>, Memory>
    ensures { IfOk result (λ found. found ≡ first (wrong_rules (grammar_of lexer.now) (grammar_of parser.now))) }
{
    match first_parser_rule(&lexer.rules)? {
        Some(name) => Ok(Some(name)),
        None => first_lexer_rule(&parser.rules),
    }
}

/// The parser's rules and then the lexer's, with the declared tokens of the lexer and then of the parser.
fn joined(lexer: Grammar, parser: Grammar) -> Result<Grammar, Memory>
    ensures { IfOk result (λ g. grammar_of g ≡ joined (grammar_of lexer) (grammar_of parser)) }
{
    let mut tokens = lexer.tokens;
    let mut declared = parser.tokens;
    tokens.append(&mut declared)?;
    let mut rules = parser.rules;
    let mut others = lexer.rules;
    rules.append(&mut others)?;
    Ok(Grammar {
        name: parser.name,
        tokens,
        rules,
    })
}

/// The literal, where it is one that names no lexer rule.
fn unnamed<'a>(reference: &'a TokenRef, named: &Index) -> Option<&'a Text>
    ensures { (f : List ℕ → Option ℕ) → Finds named.now f → option_map (λ literal. literal.now) result ≡ unnamed_by f (token_ref reference.entry.now) }
{
    match reference {
        TokenRef::Literal(literal) if named.get(literal).is_none() => Some(literal),
        _ => None,
    }
}

/// The first literal of the references that names no lexer rule.
fn first_unnamed(references: &[TokenRef], named: &Index) -> Result<Option<Text>, Memory>
    ensures { (f : List ℕ → Option ℕ) → Finds named.now f
        → IfOk result (λ found. found ≡ find (λ t. is_none (f t)) (filter_map as_literal (map token_ref references.now))) }
{
    let mut rest = references;
    while let [reference, further @ ..] = rest {
        if let Some(literal) = unnamed(reference, named) {
            return Ok(Some(literal.copy()?));
        }
        rest = further;
    }
    Ok(None)
}

/// The first literal in a parser rule that would be an implicit token. It takes time near linear in
/// the rules; where they are 2^32 or more, it is out of memory.
fn first_implicit(alloc: Global, rules: &[Rule]) -> Result<Option<Text>, Memory>
    ensures { IfOk result (λ found. found ≡ first_implicit (map rule_of rules.now)) }
{
    Limit::Numbers.within(rules.len())?;
    let references = references_of(alloc, rules)?;
    let named = rules_by(alloc, rules, Key::Literal)?;
    first_unnamed(&references, &named)
}

/// The grammar of a lexer grammar and a parser grammar that names these vocabularies, or their first
/// fault.
fn join_read(
    alloc: Global,
    lexer: Grammar,
    parser: Grammar,
    names: &[Text],
) -> Result<Grammar, PairFault>
    ensures ok { IfOk result (λ g. IsJoinOf (grammar_of lexer) (grammar_of parser) names.now (grammar_of g)) }
    ensures fault { IfErr result (IsJoinFault (grammar_of lexer) (grammar_of parser) names.now) }
{
    if let Some(name) = first_other(names, &lexer.name)? {
        return Err(PairFault::OtherVocab { name });
    }
    if let Some(name) = wrong_rule(&lexer, &parser)? {
        return Err(PairFault::WrongRule { name });
    }
    let grammar = joined(lexer, parser)?;
    match first_implicit(alloc, &grammar.rules)? {
        Some(literal) => Err(PairFault::NoLiteral { literal }),
        None => Ok(grammar),
    }
}

/// The grammar of a lexer text and a parser text, or the first of their faults: the parser's name, the
/// declared tokens of both, the parser's rules and then the lexer's.
///
/// It takes time near linear in the bytes of both.
pub fn join(alloc: Global, lexer: &[u8], parser: &[u8]) -> Result<Grammar, PairFault>
    ensures ok { IfOk result (λ g. IsJoined lexer.now parser.now (grammar_of g)) }
    ensures few { IfOk result (λ g. grammar_size (grammar_of g) ≤ length lexer.now + length parser.now) }
    ensures only { (G : WrittenGrammar) → IsJoined lexer.now parser.now G → MatchResult result (λ g. grammar_of g ≡ G) (λ fault. fault ≡ OutOfMemory ran_out) }
    ensures fault { IfErr result (IsPairFault lexer.now parser.now) }
    ensures kinds { IfOk result (λ g. HasNoImplicitKind (grammar_of g)) }
    ensures lexing { IfOk result (λ g. LexesByLexer lexer.now (grammar_of g)) }
    ensures rules { IfOk result (λ g. RulesAreAsWritten lexer.now parser.now (grammar_of g)) }
{
    let lexer = match read_lexer(alloc, lexer) {
        Ok(grammar) => grammar,
        Err(fault) => return Err(fault),
    };
    let (parser, names) = match read_parser(alloc, parser) {
        Ok(read) => read,
        Err(fault) => return Err(fault),
    };
    join_read(alloc, lexer, parser, &names)
}
