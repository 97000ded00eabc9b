//! The kinds of tokens of a grammar, in the order of their numbers.

ghost use Rattle.std.specs.Prelude.{◌≡◌, ◌++◌, ◌∷◌, [], ℕ, ◌<◌, ◌^◌, List, Option, IfOk, OnOk, length, map};
ghost use Rattle.std.specs.List.{filter_map};
ghost use Rattle.grammar_tree.specs.GrammarView.{grammar_of, kind_of, rule_of, source_of};
ghost use Rattle.grammar_tree.specs.Kinds.{as_literal, declared_kind, declared_names, distinct, implicit_kind, implicit_literals, kinds_of, written_kinds};
ghost use Rattle.grammar_tree.specs.View.{token_ref};
ghost use Rattle.grammar_names.specs.Index.{Finds};
ghost use Rattle.grammar_check_faults.specs.inner.Seen.{seen_in};
ghost use Rattle.grammar_check.specs.inner.Kinds.{absent, plain_kind, unless_seen};

use faults::Memory;
use grammar_check_parser_rules::{Key, references_of, rules_by};
use grammar_names::Index;
use grammar_tree::{Grammar, Kind, KindSource, Rule, Text, TokenRef};
use std::alloc::Global;

/// Adds a text, unless it was seen.
fn add_distinct(
    alloc: Global,
    text: &Text,
    seen: &mut Index,
    found: &mut Vec<Text>,
) -> Result<(), Memory>
    ensures { (texts : List (List ℕ)) → Finds seen.old (seen_in texts)
        → OnOk result (Finds seen.new (seen_in (texts ++ text.now ∷ [])) × (found.new.items ≡ found.old.items ++ unless_seen texts text.now)) }
{
    if seen.get(text).is_some() {
        return Ok(());
    }
    seen.add(alloc, text, 0)?;
    found.push(text.copy()?)?;
    Ok(())
}

/// Each of the texts once, in the order in which they first occur.
fn distinct_texts(alloc: Global, texts: &[Text]) -> Result<Vec<Text>, Memory>
    ensures { IfOk result (λ found. found.items ≡ distinct texts.now) }
{
    let mut seen = Index::new(alloc);
    let mut found = Vec::new(alloc);
    for text in texts {
        add_distinct(alloc, text, &mut seen, &mut found)?;
    }
    Ok(found)
}

/// Adds the reference, where it is a literal.
fn add_literal(reference: &TokenRef, found: &mut Vec<Text>) -> Result<(), Memory>
    ensures { OnOk result (found.new.items ≡ found.old.items ++ filter_map as_literal (token_ref reference.now ∷ [])) }
{
    match reference {
        TokenRef::Literal(text) => {
            found.push(text.copy()?)?;
            Ok(())
        }
        TokenRef::Name(_) => Ok(()),
    }
}

/// The literals among the references.
fn literals_of(alloc: Global, references: &[TokenRef]) -> Result<Vec<Text>, Memory>
    ensures { IfOk result (λ found. found.items ≡ filter_map as_literal (map token_ref references.now)) }
{
    let mut found = Vec::new(alloc);
    for reference in references {
        add_literal(reference, &mut found)?;
    }
    Ok(found)
}

/// Adds a kind for a text, unless the index has it.
fn add_absent(
    text: &Text,
    indices: &Index,
    source: KindSource,
    kinds: &mut Vec<Kind>,
) -> Result<(), Memory>
    ensures { (f : List ℕ → Option ℕ) → Finds indices.now f
        → OnOk result (map kind_of kinds.new.items ≡ map kind_of kinds.old.items ++ map (plain_kind (source_of source)) (absent f (text.now ∷ []))) }
{
    if indices.get(text).is_some() {
        return Ok(());
    }
    kinds.push(Kind {
        name: text.copy()?,
        gap: false,
        source,
    })?;
    Ok(())
}

/// Adds a kind for each text that the index has not.
fn add_all_absent(
    texts: &[Text],
    indices: &Index,
    source: KindSource,
    kinds: &mut Vec<Kind>,
) -> Result<(), Memory>
    ensures { (f : List ℕ → Option ℕ) → Finds indices.now f
        → OnOk result (map kind_of kinds.new.items ≡ map kind_of kinds.old.items ++ map (plain_kind (source_of source)) (absent f texts.now)) }
{
    for text in texts {
        add_absent(text, indices, source, kinds)?;
    }
    Ok(())
}

/// Adds the kind of a lexer rule that isn't a fragment.
fn add_written(rule: &Rule, index: u32, kinds: &mut Vec<Kind>) -> Result<(), Memory>
    ensures { OnOk result (map kind_of kinds.new.items ≡ map kind_of kinds.old.items ++ written_kinds index (rule_of rule.now ∷ [])) }
{
    match rule {
        Rule::Lexer {
            name,
            fragment: false,
            gap,
            ..
        } => {
            kinds.push(Kind {
                name: name.copy()?,
                gap: *gap,
                source: KindSource::Written(index),
            })?;
            Ok(())
        }
        _ => Ok(()),
    }
}

/// Adds the kinds of the lexer rules that aren't fragments.
fn add_all_written(rules: &[Rule], kinds: &mut Vec<Kind>) -> Result<(), Memory>
    requires { length rules.now < 2 ^ 32 }
    ensures { OnOk result (map kind_of kinds.new.items ≡ map kind_of kinds.old.items ++ written_kinds 0 (map rule_of rules.now)) }
{
    for (index, rule) in rules.iter().enumerate() {
        add_written(rule, index as u32, kinds)?;
    }
    Ok(())
}

/// Adds the implicit tokens: the literals of parser rules that name no lexer rule.
fn add_implicit(alloc: Global, rules: &[Rule], kinds: &mut Vec<Kind>) -> Result<(), Memory>
    requires { length rules.now < 2 ^ 32 }
    ensures { OnOk result (map kind_of kinds.new.items ≡ map kind_of kinds.old.items ++ map implicit_kind (implicit_literals (map rule_of rules.now))) }
{
    let references = references_of(alloc, rules)?;
    let literals = literals_of(alloc, &references)?;
    let texts = distinct_texts(alloc, &literals)?;
    let named = rules_by(alloc, rules, Key::Literal)?;
    add_all_absent(&texts, &named, KindSource::Implicit, kinds)?;
    Ok(())
}

/// Adds the declared tokens whose names aren't those of lexer rules.
fn add_declared(alloc: Global, grammar: &Grammar, kinds: &mut Vec<Kind>) -> Result<(), Memory>
    requires { length grammar.now.rules.items < 2 ^ 32 }
    ensures { OnOk result (map kind_of kinds.new.items ≡ map kind_of kinds.old.items ++ map declared_kind (declared_names (grammar_of grammar.now))) }
{
    let texts = distinct_texts(alloc, &grammar.tokens)?;
    let made = rules_by(alloc, &grammar.rules, Key::Token)?;
    add_all_absent(&texts, &made, KindSource::Declared, kinds)?;
    Ok(())
}

/// The kinds of tokens of the grammar: first the implicit tokens, then the lexer rules that aren't
/// fragments, then the declared tokens. It takes time near linear in the grammar's size.
pub(crate) fn kinds_in(alloc: Global, grammar: &Grammar) -> Result<Vec<Kind>, Memory>
    requires { length grammar.now.rules.items < 2 ^ 32 }
    ensures { IfOk result (λ kinds. map kind_of kinds.items ≡ kinds_of (grammar_of grammar.now)) }
{
    let mut kinds = Vec::new(alloc);
    add_implicit(alloc, &grammar.rules, &mut kinds)?;
    add_all_written(&grammar.rules, &mut kinds)?;
    add_declared(alloc, grammar, &mut kinds)?;
    Ok(kinds)
}
