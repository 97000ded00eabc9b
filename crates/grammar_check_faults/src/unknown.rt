//! Uses of names that name nothing.

ghost use Rattle.std.specs.Prelude.{◌≡◌, ◌&&◌, ℕ, ◌<◌, ◌∷◌, [], List, Option, IfOk, find, is_none, map, option_map};
ghost use Rattle.std.specs.List.{filter_map};
ghost use Rattle.grammar_tree.specs.Faults.{NameUse, rule_uses, used_name};
ghost use Rattle.grammar_tree.specs.GrammarView.{rule_of};
ghost use Rattle.grammar_tree.specs.Kinds.{as_name};
ghost use Rattle.grammar_tree.specs.View.{token_ref};
ghost use Rattle.grammar_check_faults.specs.Unknown.{IsFirstUnknown};
ghost use Rattle.grammar_check_faults.specs.inner.Unknown.{is_unknown};

use faults::Memory;
use grammar_check_lexer_rules::{LexerNames, add_names};
use grammar_check_parser_rules::add_references;
use grammar_names::Names;
use grammar_tree::{Rule, Text, TokenRef};
use std::alloc::Global;

/// Whether the name is neither a parser rule's nor a token's.
fn means_nothing(name: &Text, names: &Names) -> bool
    ensures { result ≡ is_unknown names.now (NameUse.by_parser_rule name.now) }
{
    let is_rule = names.rule_number(name).is_some();
    let is_token = names.name_kind(name).is_some();
    !is_rule && !is_token
}

/// The name that the reference is, where it names nothing.
fn unknown_reference<'a>(reference: &'a TokenRef, names: &Names) -> Option<&'a Text>
    ensures { option_map (λ n. n.now) result ≡ option_map used_name
        (find (is_unknown names.now) (map NameUse.by_parser_rule (filter_map as_name (token_ref reference.now ∷ [])))) }
{
    match reference {
        TokenRef::Literal(_) => None,
        TokenRef::Name(name) => {
            if means_nothing(name, names) {
                Some(name)
            } else {
                None
            }
        }
    }
}

/// The first of the references whose name names nothing.
fn first_unknown_reference(references: &[TokenRef], names: &Names) -> Result<Option<Text>, Memory>
    ensures { IfOk result (λ name. name ≡ option_map used_name
        (find (is_unknown names.now) (map NameUse.by_parser_rule (filter_map as_name (map token_ref references.now))))) }
{
    for reference in references {
        if let Some(name) = unknown_reference(reference, names) {
            return Ok(Some(name.copy()?));
        }
    }
    Ok(None)
}

/// The first of the names that is no lexer rule's.
fn first_unknown_name(
    used: &[Text],
    names: &Names,
    lexer: &LexerNames,
) -> Result<Option<Text>, Memory>
    requires { map rule_of lexer.now.rules.now ≡ names.now.rules }
    ensures { IfOk result (λ name. name ≡ option_map used_name (find (is_unknown names.now) (map NameUse.by_lexer_rule used.now))) }
{
    for name in used {
        if lexer.index(name).is_none() {
            return Ok(Some(name.copy()?));
        }
    }
    Ok(None)
}

/// The first name that a rule uses and that names nothing.
fn first_unknown_in(
    alloc: Global,
    rule: &Rule,
    names: &Names,
    lexer: &LexerNames,
) -> Result<Option<Text>, Memory>
    requires { map rule_of lexer.now.rules.now ≡ names.now.rules }
    ensures { IfOk result (λ name. name ≡ option_map used_name (find (is_unknown names.now) (rule_uses (rule_of rule.now)))) }
{
    match rule {
        Rule::Parser { alts, .. } => {
            let mut references = Vec::new(alloc);
            add_references(alts, &mut references)?;
            let name = first_unknown_reference(&references, names)?;
            Ok(name)
        }
        Rule::Lexer { alts, .. } => {
            let mut used = Vec::new(alloc);
            add_names(alts, &mut used)?;
            let name = first_unknown_name(&used, names, lexer)?;
            Ok(name)
        }
    }
}

/// The name of the first use of a name that names nothing, in written order.
pub fn first_unknown_use(
    alloc: Global,
    rules: &[Rule],
    names: &Names,
    lexer: &LexerNames,
) -> Result<Option<Text>, Memory>
    requires lexer { map rule_of lexer.now.rules.now ≡ names.now.rules }
    requires rules { map rule_of rules.now ≡ names.now.rules }
    ensures { IfOk result (IsFirstUnknown names.now) }
{
    for rule in rules {
        if let Some(name) = first_unknown_in(alloc, rule, names, lexer)? {
            return Ok(Some(name));
        }
    }
    Ok(None)
}
