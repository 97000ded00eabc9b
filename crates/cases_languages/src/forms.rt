//! Printed normal forms, and lists of kinds that rules derive.

use anyhow::{Result, bail};
use chart_parser_ends::derives;
use grammar_tree::{Checked, Grammar, Rule, Text};
use normal_form::{Normal, Sym};
use normal_form_build::normalise;
use normal_form_print::normal_text;
use std::alloc::Global;

/// The text of a copy of the grammar's normal form.
fn form_text(alloc: Global, checked: &Checked) -> Result<Vec<u8>> {
    let normal = normalise(alloc, checked)?.copy(alloc)?;
    Ok(normal_text(alloc, checked, &normal)?)
}

/// The same of a copy of the grammar.
fn copied_text(alloc: Global, checked: &Checked) -> Result<Vec<u8>> {
    let copy = checked.copy(alloc)?;
    form_text(alloc, &copy)
}

/// The normal form of the grammar, and that a copy of the grammar has the same.
pub(crate) fn form_shown(alloc: Global, checked: &Checked) -> Result<String> {
    let text = form_text(alloc, checked)?;
    let copied = copied_text(alloc, checked)?;
    if text.as_slice() != copied.as_slice() {
        return Ok(String::from_str(alloc, "the copy has another one")?);
    }
    Ok(String::from_utf8(text)?)
}

/// The numbers in the text.
pub(crate) fn numbers(alloc: Global, text: &str) -> Result<Vec<u32>> {
    let mut all = Vec::new(alloc);
    for word in text.split_whitespace() {
        all.push(word.parse::<u32>()?)?;
    }
    Ok(all)
}

/// The name of the parser rule with this number, which counts the parser rules alone from 0.
fn parser_rule_name(grammar: &Grammar, number: u32) -> Option<&Text> {
    let mut before = 0u32;
    for rule in &grammar.rules {
        if let Rule::Parser { name, .. } = rule {
            if before == number {
                return Some(name);
            }
            before = before.saturating_add(1);
        }
    }
    None
}

/// The number that the parser rule with this number has in the normal form, where it has its name.
fn own_rule(checked: &Checked, normal: &Normal, number: u32) -> Option<u32> {
    let name = parser_rule_name(checked.grammar(), number)?;
    let mut rule = 0u32;
    for other in normal.names() {
        if other.is(name) {
            return Some(rule);
        }
        rule = rule.saturating_add(1);
    }
    None
}

/// Whether the rule of the normal form derives the list of kinds.
fn answer_of(alloc: Global, normal: &Normal, rule: u32, kinds: &[u32]) -> Result<String> {
    if kinds.len() > u32::MAX as usize {
        bail!("there are too many kinds");
    }
    let derived = derives(alloc, normal, Sym::Rule(rule), kinds)?;
    Ok(derived.to_string(alloc)?)
}

/// Whether the parser rule with this number derives the list of kinds.
fn rule_answer(alloc: Global, checked: &Checked, number: u32, kinds: &[u32]) -> Result<String> {
    let normal = normalise(alloc, checked)?;
    match own_rule(checked, &normal, number) {
        Some(rule) => answer_of(alloc, &normal, rule, kinds),
        None => Ok(String::from_str(alloc, "false")?),
    }
}

/// Whether a parser rule derives the list of kinds. The text has the rule's number, `=>` and the kinds.
/// A number that no parser rule has derives nothing.
pub(crate) fn derived_shown(alloc: Global, checked: &Checked, text: &str) -> Result<String> {
    let (rule, kinds) = text.split_once("=>").unwrap_or((text, ""));
    let number = rule.trim().parse::<u32>()?;
    rule_answer(alloc, checked, number, &numbers(alloc, kinds)?)
}

/// Whether the start derives the list of kinds.
pub(crate) fn start_shown(alloc: Global, checked: &Checked, text: &str) -> Result<String> {
    let kinds = numbers(alloc, text)?;
    let normal = normalise(alloc, checked)?;
    answer_of(alloc, &normal, normal.start(), &kinds)
}
