//! The rules that the terms of a parser rule make.

ghost use Rattle.std.specs.Prelude.{◌≡◌, [], ◌∷◌, ◌+◌, ◌++◌, ◌<◌, ◌^◌, IfOk, OnOk, map, set, vec_len};
ghost use Rattle.grammar_tree.specs.Corners.{alts_new_rules, new_rules, seq_new_rules};
ghost use Rattle.grammar_tree.specs.Derives.{bodies, resolved, resolved_alts, resolved_seq};
ghost use Rattle.grammar_tree.specs.View.{parser_alts, parser_term, parser_terms};
ghost use Rattle.grammar_tree.specs.Written.{written_alts, written_seq};
ghost use Rattle.normal_form.specs.Numbering.{alts_rules, alts_symbols, and_symbol, seq_rules, seq_symbols, symbol, term_rules};
ghost use Rattle.normal_form.specs.Form.{RuleForm};
ghost use Rattle.normal_form.specs.NormalOf.{numbering};
ghost use Rattle.normal_form_build.specs.inner.Terms.{has_symbol, suffix_form};
ghost use Rattle.normal_form.specs.View.{alts_form, rule_form};

use crate::numbers::Numbers;
use faults::Memory;
use grammar_tree::{ParserAlts, ParserTerm, ParserTerms, Suffix};
use normal_form::{NormalRule, Sym};

/// The rule of a term with this suffix, from the symbol of the term without it.
fn suffix_rule(suffix: Suffix, symbol: Sym) -> NormalRule
    ensures { rule_form result ≡ suffix_form suffix symbol }
{
    match suffix {
        Suffix::Question => NormalRule::Opt(symbol),
        Suffix::Star => NormalRule::Star(symbol),
        Suffix::Plus => NormalRule::Plus(symbol),
    }
}

/// Whether the term has a symbol. `EOF` has none.
fn has_symbol(term: &ParserTerm) -> bool
    ensures { result ≡ has_symbol (parser_term term.now) }
{
    match term {
        ParserTerm::Eof => false,
        _ => true,
    }
}

/// Adds the term's symbol, if it has one.
fn push_symbol(
    term: &ParserTerm,
    numbers: &Numbers<'_>,
    next: u32,
    symbols: &mut Vec<Sym>,
) -> Result<(), Memory>
    ensures { OnOk result (symbols.new.items ≡ symbols.old.items
        ++ (let t = resolved numbers.now (parser_term term.now) in and_symbol t (symbol (numbering (bodies numbers.now)) next t) [])) }
{
    if !has_symbol(term) {
        return Ok(());
    }
    let symbol = numbers.symbol(term, next)?;
    symbols.push(symbol)?;
    Ok(())
}

/// Makes the rule with this number regular, of these alternatives.
pub(crate) fn put_regular(rules: &mut Vec<NormalRule>, number: usize, alts: Vec<Vec<Sym>>)
    requires { number < vec_len rules.old }
    ensures len { vec_len rules.new ≡ vec_len rules.old }
    ensures rules { map rule_form rules.new.items ≡ set (map rule_form rules.old.items) number (RuleForm.regular (alts_form alts.items)) }
{
    rules[number] = NormalRule::Regular(alts);
}

/// Adds the new rules of the term, outer before inner.
#[cycle(rules)]
fn push_term(
    term: &ParserTerm,
    numbers: &Numbers<'_>,
    rules: &mut Vec<NormalRule>,
) -> Result<(), Memory>
    requires { vec_len rules.old + new_rules (resolved numbers.now (parser_term term.now)) < 2 ^ 32 }
    ensures len { OnOk result (vec_len rules.new ≡ vec_len rules.old + new_rules (resolved numbers.now (parser_term term.now))) }
    ensures rules { OnOk result (map rule_form rules.new.items ≡ map rule_form rules.old.items ++ term_rules (numbering (bodies numbers.now))
        (vec_len rules.old) (resolved numbers.now (parser_term term.now))) }
{
    match term {
        ParserTerm::Block(alts) => push_block(alts, numbers, rules),
        ParserTerm::Opt(term) => push_suffixed(term, Suffix::Question, numbers, rules),
        ParserTerm::Star(term) => push_suffixed(term, Suffix::Star, numbers, rules),
        ParserTerm::Plus(term) => push_suffixed(term, Suffix::Plus, numbers, rules),
        _ => Ok(()),
    }
}

/// Adds the rule of the term with the suffix, and after it the term's new rules.
#[cycle(rules)]
fn push_suffixed(
    term: &ParserTerm,
    suffix: Suffix,
    numbers: &Numbers<'_>,
    rules: &mut Vec<NormalRule>,
) -> Result<(), Memory>
    requires { vec_len rules.old + 1 + new_rules (resolved numbers.now (parser_term term.now)) < 2 ^ 32 }
    ensures len { OnOk result (vec_len rules.new ≡ vec_len rules.old + 1 + new_rules (resolved numbers.now (parser_term term.now))) }
    ensures rules { OnOk result (map rule_form rules.new.items ≡ map rule_form rules.old.items
        ++ (suffix_form suffix (symbol (numbering (bodies numbers.now)) (vec_len rules.old + 1) (resolved numbers.now (parser_term term.now))) ∷ term_rules
        (numbering (bodies numbers.now)) (vec_len rules.old + 1) (resolved numbers.now (parser_term term.now)))) }
{
    let symbol = numbers.symbol(term, rules.len() as u32 + 1)?;
    rules.push(suffix_rule(suffix, symbol))?;
    push_term(term, numbers, rules)
}

/// Adds the regular rule of the alternatives, and after it their new rules. It takes time near
/// linear in the alternatives. Out of memory may leave some of these rules after those that were
/// there, regular ones without their alternatives; no contract says which.
#[cycle(rules)]
pub(crate) fn push_block(
    alts: &ParserAlts,
    numbers: &Numbers<'_>,
    rules: &mut Vec<NormalRule>,
) -> Result<(), Memory>
    requires { vec_len rules.old + 1 + alts_new_rules (resolved_alts numbers.now (written_alts (parser_alts alts.now))) < 2 ^ 32 }
    ensures len { OnOk result (vec_len rules.new ≡ vec_len rules.old + 1 + alts_new_rules (resolved_alts numbers.now (written_alts (parser_alts alts.now)))) }
    ensures rules { OnOk result (map rule_form rules.new.items ≡ map rule_form rules.old.items
        ++ (RuleForm.regular (alts_symbols (numbering (bodies numbers.now)) (vec_len rules.old + 1)
        (resolved_alts numbers.now (written_alts (parser_alts alts.now)))) ∷ alts_rules (numbering (bodies numbers.now)) (vec_len rules.old + 1)
        (resolved_alts numbers.now (written_alts (parser_alts alts.now))))) }
{
    let own = rules.len();
    rules.push(NormalRule::Regular(Vec::new(numbers.alloc())))?;
    let symbols = push_alts(alts, numbers, rules)?;
    put_regular(rules, own, symbols);
    Ok(())
}

/// Adds the new rules of the alternatives. The answer is their symbols.
#[cycle(rules)]
fn push_alts(
    alts: &ParserAlts,
    numbers: &Numbers<'_>,
    rules: &mut Vec<NormalRule>,
) -> Result<Vec<Vec<Sym>>, Memory>
    requires { vec_len rules.old + alts_new_rules (resolved_alts numbers.now (written_alts (parser_alts alts.now))) < 2 ^ 32 }
    ensures symbols { IfOk result (λ symbols. alts_form symbols.items ≡ alts_symbols (numbering (bodies numbers.now)) (vec_len rules.old)
        (resolved_alts numbers.now (written_alts (parser_alts alts.now)))) }
    ensures len { OnOk result (vec_len rules.new ≡ vec_len rules.old + alts_new_rules (resolved_alts numbers.now (written_alts (parser_alts alts.now)))) }
    ensures rules { OnOk result (map rule_form rules.new.items ≡ map rule_form rules.old.items ++ alts_rules (numbering (bodies numbers.now))
        (vec_len rules.old) (resolved_alts numbers.now (written_alts (parser_alts alts.now)))) }
{
    let mut symbols = Vec::new(numbers.alloc());
    for alt in alts.items.iter() {
        symbols.push(push_seq(alt, numbers, rules)?)?;
    }
    Ok(symbols)
}

/// Adds the new rules of the terms. The answer is their symbols. It takes time near linear in the
/// terms. Out of memory may leave some of these rules after those that were there, regular ones
/// without their alternatives; no contract says which.
#[cycle(rules)]
pub(crate) fn push_seq(
    terms: &ParserTerms,
    numbers: &Numbers<'_>,
    rules: &mut Vec<NormalRule>,
) -> Result<Vec<Sym>, Memory>
    requires { vec_len rules.old + seq_new_rules (resolved_seq numbers.now (written_seq (parser_terms terms.now))) < 2 ^ 32 }
    ensures symbols { IfOk result (λ symbols. symbols.items ≡ seq_symbols (numbering (bodies numbers.now)) (vec_len rules.old)
        (resolved_seq numbers.now (written_seq (parser_terms terms.now)))) }
    ensures len { OnOk result (vec_len rules.new ≡ vec_len rules.old + seq_new_rules (resolved_seq numbers.now (written_seq (parser_terms terms.now)))) }
    ensures rules { OnOk result (map rule_form rules.new.items ≡ map rule_form rules.old.items ++ seq_rules (numbering (bodies numbers.now)) (vec_len rules.old)
        (resolved_seq numbers.now (written_seq (parser_terms terms.now)))) }
{
    let mut symbols = Vec::new(numbers.alloc());
    for term in terms.items.iter() {
        push_symbol(term, numbers, rules.len() as u32, &mut symbols)?;
        push_term(term, numbers, rules)?;
    }
    Ok(symbols)
}
