//! The faults of parser rules that their derivations have: no base, empty loops, left recursion.

ghost use Rattle.std.specs.Prelude.{ℕ, ◌<◌, ◌^◌, List, IfOk, length, map};
ghost use Rattle.grammar_tree.specs.Derives.{bodies};
ghost use Rattle.grammar_tree.specs.View.{parser_alts};
ghost use Rattle.grammar_check_parser_rules.specs.Empty.{AreBodies, AreEmptyRules};
ghost use Rattle.grammar_check_nodes.specs.First.{IsFirstOrNone};
ghost use Rattle.grammar_check_faults.specs.inner.ParserFaults.{HasLoopAt, HasNoBaseAt, LeadsBackAt};

use faults::Memory;
use grammar_check_nodes::first_on_cycle;
use grammar_check_parser_rules::{alts_have_empty_loop, corner_edges, some_rest_can_be_empty};
use grammar_check_recursion::has_base;
use grammar_names::Names;
use grammar_tree::ParserAlts;
use std::alloc::Global;

/// The first rule each of whose alternatives is directly recursive, by its number.
pub(crate) fn first_without_base(rules: &[&ParserAlts], names: &Names) -> Option<usize>
    requires small { length rules.now < 2 ^ 32 }
    requires bodies { AreBodies names.now (map (λ a. parser_alts a.now) rules.now) }
    ensures { IsFirstOrNone (HasNoBaseAt (bodies names.now)) result }
{
    for number in 0..rules.len() {
        if !has_base(rules[number], names, number as u32) {
            return Some(number);
        }
    }
    None
}

/// The first rule with a star or plus over what can be empty, or with a rest that can be, by its
/// number.
pub(crate) fn first_with_loop(rules: &[&ParserAlts], names: &Names, flags: &[bool]) -> Option<usize>
    requires small { length rules.now < 2 ^ 32 }
    requires bodies { AreBodies names.now (map (λ a. parser_alts a.now) rules.now) }
    requires empty { AreEmptyRules (bodies names.now) flags.now }
    ensures { IsFirstOrNone (HasLoopAt (bodies names.now)) result }
{
    for number in 0..rules.len() {
        let alts = rules[number];
        if alts_have_empty_loop(alts, names, flags) {
            return Some(number);
        }
        if some_rest_can_be_empty(alts, names, flags, number as u32) {
            return Some(number);
        }
    }
    None
}

/// The first rule that is on a cycle of left corners, by its number.
pub(crate) fn first_left_recursive(
    alloc: Global,
    rules: &[&ParserAlts],
    names: &Names,
    flags: &[bool],
) -> Result<Option<usize>, Memory>
    requires small { length rules.now < 2 ^ 32 }
    requires bodies { AreBodies names.now (map (λ a. parser_alts a.now) rules.now) }
    requires empty { AreEmptyRules (bodies names.now) flags.now }
    ensures { IfOk result (IsFirstOrNone (LeadsBackAt (bodies names.now))) }
{
    let edges = corner_edges(alloc, rules, names, flags)?;
    first_on_cycle(alloc, &edges)
}
