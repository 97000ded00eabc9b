//! The rules that a parser rule makes.

ghost use Rattle.std.specs.Prelude.{◌≡◌, [], ◌∷◌, ◌+◌, ◌++◌, ◌<◌, ◌^◌, IfOk, OnOk, is_some, map, vec_len};
ghost use Rattle.grammar_tree.specs.Corners.{alts_new_rules, group_size, rest_of, rests};
ghost use Rattle.grammar_tree.specs.Derives.{bodies, resolved, resolved_alts, resolved_seq};
ghost use Rattle.grammar_tree.specs.View.{parser_alts, parser_term, parser_terms};
ghost use Rattle.grammar_tree.specs.Written.{written_alts, written_seq};
ghost use Rattle.normal_form.specs.Numbering.{alts_rules, with_base, with_rest, base_symbols, group, head_of, recursive_group, rest_symbols, tail};
ghost use Rattle.normal_form.specs.NormalOf.{numbering};
ghost use Rattle.normal_form.specs.View.{alts_form, rule_form};

use crate::numbers::Numbers;
use crate::rules::{push_block, push_seq, put_regular};
use faults::Memory;
use grammar_check_recursion::{has_rest, is_recursive};
use grammar_tree::{ParserAlts, ParserTerms};
use normal_form::{NormalRule, Sym};
use std::alloc::Global;

/// The symbols of a rule's bases and of its rests.
#[derive(Drop)]
struct Sorted {
    bases: Vec<Vec<Sym>>,
    rests: Vec<Vec<Sym>>,
}

fn without_first(mut symbols: Vec<Sym>) -> Vec<Sym>
    ensures { result.items ≡ tail symbols.items }
{
    if !symbols.is_empty() {
        symbols.remove(0);
    }
    symbols
}

/// Adds the symbols of a directly recursive alternative, without the rule itself.
fn push_rest(rests: &mut Vec<Vec<Sym>>, symbols: Vec<Sym>) -> Result<(), Memory>
    ensures { OnOk result (alts_form rests.new.items ≡ alts_form rests.old.items ++ tail symbols.items ∷ []) }
{
    rests.push(without_first(symbols))?;
    Ok(())
}

/// Adds the symbols of the alternative to the bases, or to the rests without the rule itself.
fn sort(
    alt: &ParserTerms,
    numbers: &Numbers<'_>,
    rule: u32,
    symbols: Vec<Sym>,
    sorted: &mut Sorted,
) -> Result<(), Memory>
    ensures bases { OnOk result (alts_form sorted.new.bases.items ≡ alts_form sorted.old.bases.items ++ with_base
        (rest_of rule (resolved_seq numbers.now (written_seq (parser_terms alt.now)))) symbols.items []) }
    ensures rests { OnOk result (alts_form sorted.new.rests.items ≡ alts_form sorted.old.rests.items ++ with_rest
        (rest_of rule (resolved_seq numbers.now (written_seq (parser_terms alt.now)))) symbols.items []) }
{
    if is_recursive(alt, numbers.names(), rule) {
        return push_rest(&mut sorted.rests, symbols);
    }
    sorted.bases.push(symbols)?;
    Ok(())
}

/// Adds the new rules of the alternatives, in written order. The answer is the symbols of the bases
/// and of the rests.
fn push_sorted(
    alts: &ParserAlts,
    numbers: &Numbers<'_>,
    rule: u32,
    rules: &mut Vec<NormalRule>,
) -> Result<Sorted, Memory>
    requires { vec_len rules.old + alts_new_rules (resolved_alts numbers.now (written_alts (parser_alts alts.now))) < 2 ^ 32 }
    ensures bases { IfOk result (λ sorted. alts_form sorted.bases.items ≡ base_symbols (numbering (bodies numbers.now)) rule (vec_len rules.old)
        (resolved_alts numbers.now (written_alts (parser_alts alts.now)))) }
    ensures rests { IfOk result (λ sorted. alts_form sorted.rests.items ≡ rest_symbols (numbering (bodies numbers.now)) rule (vec_len rules.old)
        (resolved_alts numbers.now (written_alts (parser_alts alts.now)))) }
    ensures len { OnOk result (vec_len rules.new ≡ vec_len rules.old + alts_new_rules (resolved_alts numbers.now (written_alts (parser_alts alts.now)))) }
    ensures rules { OnOk result (map rule_form rules.new.items ≡ map rule_form rules.old.items ++ alts_rules (numbering (bodies numbers.now))
        (vec_len rules.old) (resolved_alts numbers.now (written_alts (parser_alts alts.now)))) }
{
    let mut sorted = Sorted {
        bases: Vec::new(numbers.alloc()),
        rests: Vec::new(numbers.alloc()),
    };
    for alt in alts.items.iter() {
        let symbols = push_seq(alt, numbers, rules)?;
        sort(alt, numbers, rule, symbols, &mut sorted)?;
    }
    Ok(sorted)
}

/// Adds the first four rules of a rule with rests; its bases and rests are put in later.
fn push_head(alloc: Global, rules: &mut Vec<NormalRule>) -> Result<(), Memory>
    requires { vec_len rules.old + 4 < 2 ^ 32 }
    ensures len { OnOk result (vec_len rules.new ≡ vec_len rules.old + 4) }
    ensures rules { OnOk result (map rule_form rules.new.items ≡ map rule_form rules.old.items ++ head_of (vec_len rules.old) [] []) }
{
    let own = rules.len() as u32;
    let parts = vec![in alloc; Sym::Rule(own + 1), Sym::Rule(own + 2)]?;
    rules.push(NormalRule::Regular(vec![in alloc; parts]?))?;
    rules.push(NormalRule::Regular(Vec::new(alloc)))?;
    rules.push(NormalRule::Star(Sym::Rule(own + 3)))?;
    rules.push(NormalRule::Regular(Vec::new(alloc)))?;
    Ok(())
}

/// Adds the rules of a rule with rests.
fn push_recursive(
    alts: &ParserAlts,
    numbers: &Numbers<'_>,
    rule: u32,
    rules: &mut Vec<NormalRule>,
) -> Result<(), Memory>
    requires { vec_len rules.old + 4 + alts_new_rules (resolved_alts numbers.now (written_alts (parser_alts alts.now))) < 2 ^ 32 }
    ensures len { OnOk result (vec_len rules.new ≡ vec_len rules.old + 4 + alts_new_rules (resolved_alts numbers.now (written_alts (parser_alts alts.now)))) }
    ensures rules { OnOk result (map rule_form rules.new.items ≡ map rule_form rules.old.items ++ recursive_group (numbering (bodies numbers.now))
        (vec_len rules.old) rule (resolved_alts numbers.now (written_alts (parser_alts alts.now)))) }
{
    let own = rules.len();
    push_head(numbers.alloc(), rules)?;
    let sorted = push_sorted(alts, numbers, rule, rules)?;
    let Sorted { bases, rests } = sorted;
    put_regular(rules, own + 1, bases);
    put_regular(rules, own + 3, rests);
    Ok(())
}

/// Adds the rules that the parser rule with this number makes.
pub(crate) fn push_group(
    alts: &ParserAlts,
    numbers: &Numbers<'_>,
    rule: u32,
    rules: &mut Vec<NormalRule>,
) -> Result<(), Memory>
    requires { vec_len rules.old + group_size rule (resolved_alts numbers.now (written_alts (parser_alts alts.now))) < 2 ^ 32 }
    ensures len { OnOk result (vec_len rules.new ≡ vec_len rules.old + group_size rule (resolved_alts numbers.now (written_alts (parser_alts alts.now)))) }
    ensures rules { OnOk result (map rule_form rules.new.items ≡ map rule_form rules.old.items ++ group (numbering (bodies numbers.now))
        (vec_len rules.old) rule (resolved_alts numbers.now (written_alts (parser_alts alts.now)))) }
{
    if has_rest(alts, numbers.names(), rule) {
        return push_recursive(alts, numbers, rule, rules);
    }
    push_block(alts, numbers, rules)
}
