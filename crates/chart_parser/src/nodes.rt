//! The nodes of a preferred tree, each before those below it, from left to right.

ghost use Rattle.std.specs.Prelude.{◌≡◌, ◌+◌, ◌<◌, ◌^◌, ◌++◌, ◌∷◌, [], length, map, reverse, slice_index, vec_len, IfOk, OnOk};
ghost use Rattle.normal_form.specs.Spans.{DerivesSpan};
ghost use Rattle.normal_form.specs.declared.normal.Sym;
ghost use Rattle.syntax_tree.specs.Nodes.{AreNodesOf};
ghost use Rattle.syntax_tree.specs.Preferred.{Preferred};
ghost use Rattle.syntax_tree.specs.Trees.{PlainTree};
ghost use Rattle.chart_parser.specs.declared.part.Asked.{Asked};
ghost use Rattle.chart_parser.specs.inner.Preorder.{AreBegun, AreDerived, below, leaf_node};

use crate::choice::rule_parts;
use crate::part::{Asked, Part};
use chart_parser_ends::Chart;
use faults::{Limit, Memory};
use normal_form::{Normal, Sym, spans_by_form};
use std::alloc::Global;
use syntax_tree::{Node, preferred_trees_are_valid};

/// Asks for the children of the node with this number, the first one next.
fn ask_for(stack: &mut Vec<Asked>, parts: &mut Vec<Part>, parent: u32) -> Result<(), Memory>
    ensures { OnOk result (stack.new.items ≡ stack.old.items ++ reverse (map (below parent) parts.old.items)) }
{
    while let Some(part) = parts.pop() {
        stack.push(Asked {
            part,
            parent: Some(parent),
        })?;
    }
    Ok(())
}

/// Adds the node of a rule that is asked for, and asks for its children.
fn add_rule_node(
    alloc: Global,
    chart: &mut Chart<'_>,
    normal: &Normal,
    rule: u32,
    asked: Asked,
    nodes: &mut Vec<Node>,
    stack: &mut Vec<Asked>,
    parts: &mut Vec<Part>,
) -> Result<(), Memory>
    requires form { chart.old.normal ≡ normal.now }
    requires slot { asked.part.slot ≡ Sym.Rule rule }
    requires derived { AreDerived chart.old.normal chart.old.kinds (asked ∷ reverse stack.old.items) }
    requires few { vec_len nodes.old < 2 ^ 32 }
    ensures same { chart.new ≡ chart.old }
    ensures count { OnOk result (vec_len nodes.new ≡ vec_len nodes.old + 1) }
    ensures derived { OnOk result (AreDerived chart.old.normal chart.old.kinds (reverse stack.new.items)) }
    ensures begun { (root : Asked) → AreBegun chart.old.normal chart.old.kinds root nodes.old.items (asked ∷ reverse stack.old.items)
        → OnOk result (AreBegun chart.old.normal chart.old.kinds root nodes.new.items (reverse stack.new.items)) }
{
    preferred_trees_are_valid();
    let number = nodes.len() as u32;
    let Asked { part, parent } = asked;
    let alt = rule_parts(alloc, chart, normal, rule, part, parts)?;
    let count = parts.len();
    Limit::Numbers.within(count)?;
    nodes.push(Node {
        sym: part.slot,
        slot: part.slot,
        alt,
        children: count as u32,
        parent,
        first: part.first,
        end: part.end,
    })?;
    ask_for(stack, parts, number)
}

/// The leaf of a token that is asked for.
fn leaf_of(kinds: &[u32], asked: Asked) -> Node
    requires { asked.part.first < length kinds.now }
    ensures { result ≡ leaf_node asked (slice_index kinds.now asked.part.first) }
{
    let Asked { part, parent } = asked;
    Node {
        sym: Sym::Kind(kinds[part.first as usize]),
        slot: part.slot,
        alt: 0,
        children: 0,
        parent,
        first: part.first,
        end: part.end,
    }
}

/// The nodes of the preferred tree of what the symbol derives, which is all of the kinds.
pub(crate) fn preferred_nodes(
    alloc: Global,
    chart: &mut Chart<'_>,
    normal: &Normal,
    start: Sym,
    kinds: &[u32],
) -> Result<Vec<Node>, Memory>
    requires form { chart.old.normal ≡ normal.now }
    requires kinds { chart.old.kinds ≡ kinds.now }
    requires few { length kinds.now < 2 ^ 32 }
    requires derived { DerivesSpan chart.old.normal chart.old.kinds start 0 (length kinds.now) }
    ensures tree { IfOk result (λ nodes. (t : PlainTree) × Preferred chart.old.normal chart.old.kinds start 0 (length kinds.now) t
        × AreNodesOf chart.old.normal start nodes.items t) }
    ensures few { IfOk result (λ nodes. vec_len nodes < 2 ^ 32) }
{
    preferred_trees_are_valid();
    spans_by_form();
    let part = Part {
        slot: start,
        first: 0,
        end: kinds.len() as u32,
    };
    let mut nodes = Vec::new(alloc);
    let mut parts = Vec::new(alloc);
    let mut stack = vec![in alloc; Asked { part, parent: None }]?;
    while let Some(asked) = stack.pop() {
        Limit::Numbers.within(nodes.len() + 1)?;
        match asked.part.slot {
            Sym::Rule(rule) => add_rule_node(
                alloc, chart, normal, rule, asked, &mut nodes, &mut stack, &mut parts,
            )?,
            _ => nodes.push(leaf_of(kinds, asked))?,
        }
    }
    Ok(nodes)
}
