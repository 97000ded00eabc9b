//! The sets of kinds in a grammar's parser rules.

ghost use Rattle.std.specs.Prelude.{◌≡◌, ◌∷◌, [], IfOk};
ghost use Rattle.grammar_tree.specs.Derives.{resolved, resolved_alts, resolved_seq};
ghost use Rattle.grammar_tree.specs.Kinds.{any_kinds, name_kind, rule_number};
ghost use Rattle.grammar_tree.specs.View.{parser_alts, parser_term, parser_terms};
ghost use Rattle.grammar_tree.specs.Written.{written_alts, written_seq};
ghost use Rattle.normal_form.specs.NormalOf.{alts_sets, seq_sets, sets_of, term_sets};
ghost use Rattle.normal_form_build.specs.inner.OwnRules.{name_sets, token_sets};
ghost use Rattle.normal_form_sets.specs.Sets.{with_each};
ghost use Rattle.normal_form_build.specs.inner.ParserRules.{bodies_of};

use crate::parser_rule::ParserRuleRef;
use faults::Memory;
use grammar_names::Names;
use grammar_tree::{ParserAlts, ParserTerm, ParserTerms, Text};
use normal_form_sets::FoundSets;
use std::alloc::Global;

/// With the empty set, where a token means no kind.
fn with_token(
    alloc: Global,
    names: &Names<'_>,
    sets: FoundSets,
    kind: Option<u32>,
) -> Result<FoundSets, Memory>
    requires { sets.all ≡ any_kinds names.now }
    ensures { IfOk result (λ found. found ≡ with_each sets (token_sets kind)) }
{
    match kind {
        Some(_) => Ok(sets),
        None => sets.with(alloc, Vec::from_slice(alloc, names.any_kinds())?),
    }
}

/// With the empty set, where a name means nothing.
fn with_name(
    alloc: Global,
    names: &Names<'_>,
    sets: FoundSets,
    name: &Text,
) -> Result<FoundSets, Memory>
    requires { sets.all ≡ any_kinds names.now }
    ensures { IfOk result (λ found. found ≡ with_each sets (name_sets (rule_number names.now name.now) (name_kind names.now name.now))) }
{
    match names.rule_number(name) {
        Some(_) => Ok(sets),
        None => with_token(alloc, names, sets, names.name_kind(name)),
    }
}

/// With the sets of the term.
#[cycle(sets)]
fn with_term(
    term: &ParserTerm,
    alloc: Global,
    names: &Names<'_>,
    sets: FoundSets,
) -> Result<FoundSets, Memory>
    requires { sets.all ≡ any_kinds names.now }
    ensures { IfOk result (λ found. found ≡ with_each sets (term_sets (resolved names.now (parser_term term.now)))) }
{
    match term {
        ParserTerm::Literal(text) => with_token(alloc, names, sets, names.literal_kind(text)),
        ParserTerm::Name(name) => with_name(alloc, names, sets, name),
        ParserTerm::Any => sets.with(alloc, Vec::new(alloc)),
        ParserTerm::Not(tokens) => sets.with(alloc, names.named_kinds(alloc, tokens)?),
        ParserTerm::Block(alts) => with_alts(alts, alloc, names, sets),
        ParserTerm::Opt(term) => with_term(term, alloc, names, sets),
        ParserTerm::Star(term) => with_term(term, alloc, names, sets),
        ParserTerm::Plus(term) => with_term(term, alloc, names, sets),
        ParserTerm::Eof => Ok(sets),
    }
}

#[cycle(sets)]
fn with_terms(
    terms: &ParserTerms,
    alloc: Global,
    names: &Names<'_>,
    sets: FoundSets,
) -> Result<FoundSets, Memory>
    requires { sets.all ≡ any_kinds names.now }
    ensures { IfOk result (λ found. found ≡ with_each sets (seq_sets (resolved_seq names.now (written_seq (parser_terms terms.now))))) }
{
    let mut found = sets;
    for term in terms.items.iter() {
        found = with_term(term, alloc, names, found)?;
    }
    Ok(found)
}

#[cycle(sets)]
fn with_alts(
    alts: &ParserAlts,
    alloc: Global,
    names: &Names<'_>,
    sets: FoundSets,
) -> Result<FoundSets, Memory>
    requires { sets.all ≡ any_kinds names.now }
    ensures { IfOk result (λ found. found ≡ with_each sets (alts_sets (resolved_alts names.now (written_alts (parser_alts alts.now))))) }
{
    let mut found = sets;
    for alt in alts.items.iter() {
        found = with_terms(alt, alloc, names, found)?;
    }
    Ok(found)
}

/// The sets in the order in which they first occur, each once. It takes time near linear in the
/// rules and in the number of kinds.
pub(crate) fn sets(
    alloc: Global,
    rules: &[ParserRuleRef<'_>],
    names: &Names<'_>,
) -> Result<FoundSets, Memory>
    ensures { IfOk result (λ found. found ≡ record { all = any_kinds names.now; sets = sets_of (bodies_of names.now rules.now) }) }
{
    let mut found = FoundSets::new(alloc, Vec::from_slice(alloc, names.any_kinds())?);
    for rule in rules {
        found = with_alts(rule.alts, alloc, names, found)?;
    }
    Ok(found)
}
