//! The bounds of lexers, normal forms and their tables: how many states a lexer may have, how many ranges
//! its sets, how many rules a normal form, and how many symbols may fit.

use crate::checked_of;
use crate::checks::fault_shown;
use anyhow::{Result, bail};
use compat_table::compat;
use lexer::Lexer;
use normal_form_build::normalise;
use std::alloc::Global;

/// Adds the text so many times.
fn add_times(out: &mut String, text: &str, times: u32) -> Result<()> {
    for _ in 0..times {
        out.push_str(text)?;
    }
    Ok(())
}

/// A grammar with one token, a literal of so many characters: its lexer has a state for each, and one
/// for the end.
fn with_states(alloc: Global, count: u32) -> Result<String> {
    let mut out = String::from_str(alloc, "grammar G; a : '")?;
    add_times(&mut out, "x", count)?;
    out.push_str("' ;")?;
    Ok(out)
}

/// A character alone, by its number: no two of these are side by side.
fn range_text(alloc: Global, number: u32) -> Result<String> {
    Ok(format!(in alloc;
        "\\u{{{:x}}}",
        number.saturating_mul(2).saturating_add(0x1000)
    )?)
}

/// A grammar with one token, which uses a set of 1,000 ranges so many times.
fn with_sets(alloc: Global, count: u32) -> Result<String> {
    let mut out = String::from_str(alloc, "grammar G; a : A ; A : ")?;
    add_times(&mut out, "F ", count)?;
    out.push_str("; fragment F : [")?;
    for number in 0..1000u32 {
        out.push_str(range_text(alloc, number)?.as_str())?;
    }
    out.push_str("] ;")?;
    Ok(out)
}

/// Whether the lexer of the grammar is built.
fn is_built(alloc: Global, grammar: &str) -> Result<bool> {
    let checked = checked_of(alloc, grammar, None)?;
    Ok(Lexer::build(alloc, &checked).is_ok())
}

/// Whether the lexer of a grammar is built. The text has `states` or `sets`, and how many there are
/// of the literal's characters, or of the uses of the set.
pub(crate) fn built_shown(alloc: Global, text: &str) -> Result<String> {
    let (what, count) = text.split_once(' ').unwrap_or((text, ""));
    let count = count.parse::<u32>()?;
    let grammar = match what {
        "states" => with_states(alloc, count)?,
        "sets" => with_sets(alloc, count)?,
        _ => bail!("neither states nor sets: {what}"),
    };
    let answer = if is_built(alloc, grammar.as_str())? {
        "built"
    } else {
        "out of memory"
    };
    Ok(String::from_str(alloc, answer)?)
}

/// A grammar of so many rules, each of which is the next one alone, and the last one a token. So the first
/// leads to each other and the token, the second to one fewer, and so on.
fn with_chain(alloc: Global, count: u32) -> Result<String> {
    let mut out = String::from_str(alloc, "grammar G; ")?;
    for number in 1..count {
        let next = number.saturating_add(1);
        out.push_str(format!(in alloc; "r{number} : r{next} ; ")?.as_str())?;
    }
    out.push_str(format!(in alloc; "r{count} : 'x' ;")?.as_str())?;
    Ok(out)
}

/// Whether the table of the symbols that fit is made for a chain of so many rules.
pub(crate) fn chain_shown(alloc: Global, text: &str) -> Result<String> {
    let grammar = with_chain(alloc, text.parse::<u32>()?)?;
    let normal = normalise(alloc, &checked_of(alloc, grammar.as_str(), None)?)?;
    match compat(alloc, &normal) {
        Ok(_) => Ok(String::from_str(alloc, "made")?),
        Err(_) => Ok(String::from_str(alloc, "out of memory")?),
    }
}

/// The rules, and then one with so many blocks. Its normal form has one rule more than it has blocks.
fn with_blocks(alloc: Global, rules: &str, count: u32) -> Result<String> {
    let mut out = String::from_str(alloc, rules)?;
    out.push_str(" a : ")?;
    add_times(&mut out, "('x')", count)?;
    out.push_str(" ;")?;
    Ok(out)
}

/// The first fault of a grammar with very many blocks. The text has how many, and after `=>` the rules
/// that come before the one with the blocks.
pub(crate) fn blocks_shown(alloc: Global, text: &str) -> Result<String> {
    let (count, rules) = text.split_once("=>").unwrap_or((text, ""));
    let rules = with_blocks(alloc, rules, count.trim().parse::<u32>()?)?;
    fault_shown(alloc, rules.as_str())
}
