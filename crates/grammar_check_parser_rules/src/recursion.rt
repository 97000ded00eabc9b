//! Directly left-recursive alternatives of parser rules: their bases and rests.

ghost use Rattle.std.specs.Prelude.{◌≡◌, ◌++◌, ◌&&◌, ℕ, ◌<◌, ◌^◌, Bool, List, [], OnOk, IfOk, drop, false, is_some, length, map, true};
ghost use Rattle.std.specs.Option.{option_map_or};
ghost use Rattle.grammar_tree.specs.Corners.{bases, rest_of, rests};
ghost use Rattle.grammar_tree.specs.Derives.{bodies, resolved, resolved_alts, resolved_seq};
ghost use Rattle.grammar_tree.specs.View.{parser_alts, parser_term, parser_terms};
ghost use Rattle.grammar_tree.specs.Written.{written_alts, written_seq};
ghost use Rattle.grammar_check_parser_rules.specs.Corners.{AreCornerEdges, alts_corners, rule_corners};
ghost use Rattle.grammar_check_nodes.specs.Flags.{flag};
ghost use Rattle.grammar_check_parser_rules.specs.Empty.{AreBodies, alts_is_empty, is_empty, seq_is_empty};
ghost use Rattle.grammar_check_parser_rules.specs.inner.Recursion.{is_empty_base};

use crate::corners::add_seq_corners;
use crate::empty::{seq_can_be_empty, term_can_be_empty};
use faults::Memory;
use grammar_check_recursion::is_recursive;
use grammar_names::Names;
use grammar_tree::{ParserAlts, ParserTerm, ParserTerms};
use std::alloc::Global;

/// Whether the terms after the first one can all be empty.
fn tail_can_be_empty(terms: &ParserTerms, names: &Names, flags: &[bool]) -> bool
    ensures { result ≡ seq_is_empty (flag flags.now) (resolved_seq names.now (written_seq (drop 1 (parser_terms terms.now)))) }
{
    for i in 1..terms.items.len() {
        if !term_can_be_empty(&terms.items[i], names, flags) {
            return false;
        }
    }
    true
}

/// Whether the alternative is a base that can be empty.
fn base_can_be_empty(terms: &ParserTerms, names: &Names, flags: &[bool], number: u32) -> bool
    ensures { result ≡ is_empty_base (flag flags.now) number (resolved_seq names.now (written_seq (parser_terms terms.now))) }
{
    !is_recursive(terms, names, number) && seq_can_be_empty(terms, names, flags)
}

/// Whether the alternative is directly recursive, and its rest can be empty.
fn rest_can_be_empty(terms: &ParserTerms, names: &Names, flags: &[bool], number: u32) -> bool
    ensures { result ≡ option_map_or (seq_is_empty (flag flags.now)) (rest_of number (resolved_seq names.now (written_seq (parser_terms terms.now)))) false }
{
    is_recursive(terms, names, number) && tail_can_be_empty(terms, names, flags)
}

/// Whether some base of the rule can be empty.
fn some_base_can_be_empty(alts: &ParserAlts, names: &Names, flags: &[bool], number: u32) -> bool
    ensures { result ≡ alts_is_empty (flag flags.now) (bases number (resolved_alts names.now (written_alts (parser_alts alts.now)))) }
{
    for terms in alts.items.iter() {
        if base_can_be_empty(terms, names, flags, number) {
            return true;
        }
    }
    false
}

/// Whether some rest of the rule can be empty.
pub fn some_rest_can_be_empty(alts: &ParserAlts, names: &Names, flags: &[bool], number: u32) -> bool
    ensures { result ≡ alts_is_empty (flag flags.now) (rests number (resolved_alts names.now (written_alts (parser_alts alts.now)))) }
{
    for terms in alts.items.iter() {
        if rest_can_be_empty(terms, names, flags, number) {
            return true;
        }
    }
    false
}

/// Adds the rules that can be first in a base of the rule.
fn add_base_corners(
    alts: &ParserAlts,
    names: &Names,
    flags: &[bool],
    number: u32,
    found: &mut Vec<u32>,
) -> Result<(), Memory>
    ensures { OnOk result (found.new.items ≡ found.old.items ++ alts_corners (flag flags.now)
        (bases number (resolved_alts names.now (written_alts (parser_alts alts.now))))) }
{
    for terms in alts.items.iter() {
        if !is_recursive(terms, names, number) {
            add_seq_corners(terms, 0, names, flags, found)?;
        }
    }
    Ok(())
}

/// Adds the rules that can be first in a rest of the rule.
fn add_rest_corners(
    alts: &ParserAlts,
    names: &Names,
    flags: &[bool],
    number: u32,
    found: &mut Vec<u32>,
) -> Result<(), Memory>
    ensures { OnOk result (found.new.items ≡ found.old.items ++ alts_corners (flag flags.now)
        (rests number (resolved_alts names.now (written_alts (parser_alts alts.now))))) }
{
    for terms in alts.items.iter() {
        if is_recursive(terms, names, number) {
            add_seq_corners(terms, 1, names, flags, found)?;
        }
    }
    Ok(())
}

/// The left corners of the rule with this number, where the table says which rules can be empty.
fn left_corners(
    alloc: Global,
    alts: &ParserAlts,
    names: &Names,
    flags: &[bool],
    number: u32,
) -> Result<Vec<u32>, Memory>
    ensures { IfOk result (λ found. found.items ≡ rule_corners (flag flags.now) number (resolved_alts names.now (written_alts (parser_alts alts.now)))) }
{
    let mut found = Vec::new(alloc);
    add_base_corners(alts, names, flags, number, &mut found)?;
    if some_base_can_be_empty(alts, names, flags, number) {
        add_rest_corners(alts, names, flags, number, &mut found)?;
    }
    Ok(found)
}

/// The left corners of the rules, in the order of their numbers.
pub fn corner_edges(
    alloc: Global,
    rules: &[&ParserAlts],
    names: &Names,
    flags: &[bool],
) -> Result<Vec<Vec<u32>>, Memory>
    requires small { length rules.now < 2 ^ 32 }
    requires bodies { AreBodies names.now (map (λ a. parser_alts a.now) rules.now) }
    ensures { IfOk result (λ edges. AreCornerEdges (bodies names.now) (flag flags.now) (map (λ successors. successors.items) edges.items)) }
{
    let mut edges = Vec::new(alloc);
    for number in 0..rules.len() {
        edges.push(left_corners(alloc, rules[number], names, flags, number as u32)?)?;
    }
    Ok(edges)
}
