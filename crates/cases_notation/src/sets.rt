//! The sets of a grammar's lexer rules, as they are printed: ranges of characters, by number.

use anyhow::{Result, bail};
use grammar_reader::read_grammar;
use grammar_tree::{CharSet, LexAlts, LexTerm, Rule};
use std::alloc::Global;

/// The set that the term is, or that the first term of a block is.
fn first_set(alts: &LexAlts) -> Option<&CharSet> {
    set_of(alts.items.first()?.items.first()?)
}

fn set_of(term: &LexTerm) -> Option<&CharSet> {
    match term {
        LexTerm::Set(set) => Some(set),
        _ => None,
    }
}

/// The set that is repeated, or that begins the block which is.
fn operand(term: &LexTerm) -> Option<&CharSet> {
    match term {
        LexTerm::Block(alts) => first_set(alts),
        _ => set_of(term),
    }
}

fn set_in(term: &LexTerm) -> Option<&CharSet> {
    match term {
        LexTerm::Star(inner) => operand(inner),
        LexTerm::Plus(inner) => operand(inner),
        _ => set_of(term),
    }
}

/// Adds copies of the sets of a rule's first alternative, in written order.
fn add_sets(sets: &mut Vec<CharSet>, rule: &Rule) -> Result<()> {
    if let Rule::Lexer { alts, .. } = rule {
        if let Some(terms) = alts.items.first() {
            for term in &terms.items {
                if let Some(set) = set_in(term) {
                    sets.push(set.copy()?)?;
                }
            }
        }
    }
    Ok(())
}

/// The sets of the first alternatives of lexer rules, in written order.
fn sets_of(alloc: Global, rules: &[Rule]) -> Result<Vec<CharSet>> {
    let mut sets = Vec::new(alloc);
    for rule in rules {
        add_sets(&mut sets, rule)?;
    }
    Ok(sets)
}

fn ranges_shown(alloc: Global, set: &CharSet) -> Result<String> {
    let mut shown = String::new(alloc);
    for range in set.ranges() {
        if !shown.is_empty() {
            shown.push(' ')?;
        }
        let (first, last) = *range;
        shown.push_str(format!(in alloc; "{first}-{last}")?.as_str())?;
    }
    Ok(shown)
}

/// A set, and after ` / ` the characters outside it.
fn set_shown(alloc: Global, set: &CharSet) -> Result<String> {
    let inside = ranges_shown(alloc, set)?;
    let outside = ranges_shown(alloc, &set.complement()?)?;
    Ok(format!(in alloc; "{inside} / {outside}")?)
}

/// The grammar's name, how many tokens it declares and how many rules it has; then its sets, each in
/// a line of its own.
pub fn sets_shown(alloc: Global, bytes: &[u8]) -> Result<String> {
    let grammar = match read_grammar(alloc, bytes) {
        Ok(grammar) => grammar,
        Err(fault) => bail!("{fault}"),
    };
    let tokens = grammar.tokens.len();
    let rules = grammar.rules.len();
    let name = grammar.name.as_str();
    let mut shown = format!(in alloc; "{name}: {tokens} tokens, {rules} rules")?;
    for set in &sets_of(alloc, &grammar.rules)? {
        shown.push_str("\n    ")?;
        shown.push_str(set_shown(alloc, set)?.as_str())?;
    }
    Ok(shown)
}

/// The union of a grammar's first two sets, which is the same in either order.
pub fn union_shown(alloc: Global, bytes: &[u8]) -> Result<String> {
    let grammar = match read_grammar(alloc, bytes) {
        Ok(grammar) => grammar,
        Err(fault) => bail!("{fault}"),
    };
    let sets = sets_of(alloc, &grammar.rules)?;
    match sets.as_slice() {
        [one, other, ..] => {
            let union = one.union(other)?;
            if other.union(one)?.ranges() != union.ranges() {
                bail!("the order of the sets changes their union");
            }
            ranges_shown(alloc, &union)
        }
        _ => bail!("the grammar has fewer than two sets"),
    }
}
