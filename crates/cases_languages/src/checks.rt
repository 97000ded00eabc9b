//! The first faults of grammars.

use anyhow::Result;
use cases_answers::checked_shown;
use std::alloc::Global;
use test_grammars::checked;

/// The fault of a grammar with these rules, which come after the name of its start and `=>`. Where no
/// name is given, the start is the first parser rule.
pub(crate) fn fault_shown(alloc: Global, text: &str) -> Result<String> {
    let (start, rules) = text.split_once("=> ").unwrap_or(("", text));
    let start = start.trim();
    let grammar = format!(in alloc; "grammar G; {rules}")?;
    let wanted = if start.len() == 0 { None } else { Some(start) };
    let reading = checked(alloc, grammar.as_str(), wanted);
    Ok(checked_shown(alloc, &reading)?)
}
