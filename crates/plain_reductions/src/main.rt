//! Compares the reducer of trees with a plain one on small random texts, for the gate.
//!
//! A line of the input is a grammar's name, a number and a text, in which `|` is a newline. The text is
//! reduced in the modes `perses` and `hdd`, without and with a squeezed text before the rounds. A rule
//! answers the questions: the text itself has yes, and another one by its bytes and the number. Both
//! reducers have to ask the same questions in the same order, and to come to the same text and counts.
//! The program prints these, or that they differ. What is in `stdout` is of a third reducer, which was
//! written apart from the program, in another language.
//!
//! The plain reducer (`reduction`) has the definitions of a reduction, a round of a mode and a list step,
//! as loops over lists of the nodes that are left (`specs/Nodes.antt`). It answers its questions itself, by
//! a rule (`specs/Verdicts.antt`), and keeps them. Each call on such a list copies what it gives, in a time
//! that grows with the square of the tree.
//!
//! Read `specs/Results.antt` first: where the two agree, the reduction in the mode (`specs/RoundsOf.antt`),
//! followed over the rule's verdicts, ends with what the plain one comes to (`specs/Ends.antt`).
#![tactic(auto)]

mod agreement;
mod compare;
mod list_parts;
mod nodes;
mod parts;
mod reduction;
mod texts;
mod verdicts;

use crate::reduction::Mode;
use anyhow::Result;
use compare::{Case, answer};
use faults::Memory;
use grammar_tree::Checked;
use std::alloc::{AllocError, Global};
use test_grammars::checked;

/// Statements with nested blocks and expressions.
const STATEMENTS: &str =
    "grammar Statements; file : stmt* EOF ; stmt : ID '=' expr ';' | '{' stmt* '}' ; expr : expr '+' expr | '(' expr ')' | ID | INT ; ID : [a-z]+ ; INT : \
    [0-9]+ ; WS : [ \\n]+ -> skip ;";

/// Lists with optional parts.
const LISTS: &str =
    "grammar Lists; file : list EOF ; list : '[' body? ']' ; body : item? (',' item?)* ; item : list | ID | NUM ; ID : [a-z]+ ; NUM : [0-9]+ ; WS : [ \\n]+ \
    -> skip ;";

/// Sets of kinds, lists of at least one, and rules of one symbol alone.
const SETS: &str =
    "grammar Sets; file : row+ EOF ; row : '<' cell+ '>' | 'if' row ('else' row)? | value ';' ; cell : ~('<' | '>' | ';' | '(' | ')') | '(' cell+ ')' | pair \
    ; pair : value ':' value ; value : '[' value+ ']' | atom ; atom : ID | NUM ; ID : [a-z]+ ; NUM : [0-9]+ ; WS : [ \\n]+ -> skip ;";

/// The grammar of this name.
fn grammar_named(name: &str) -> Option<&'static str> {
    match name {
        "Statements" => Some(STATEMENTS),
        "Lists" => Some(LISTS),
        "Sets" => Some(SETS),
        _ => None,
    }
}

/// The text with another character in place of each one of these.
fn exchanged(alloc: Global, text: &str, old: char, new: char) -> Result<String, AllocError> {
    text.chars()
        .map(|c| if c == old { new } else { c })
        .collect(alloc)
}

/// What the start is reduced to in a mode, without and with a squeezed text before the rounds.
fn answers_in(
    alloc: Global,
    grammar: &Checked,
    start: &str,
    seed: u64,
    mode: Mode,
) -> Result<Option<String>, Memory> {
    let mut case = Case {
        grammar,
        start,
        seed,
        mode,
        squeezes: false,
    };
    let Some(plain) = answer(alloc, case)? else {
        return Ok(None);
    };
    case.squeezes = true;
    let Some(squeezed) = answer(alloc, case)? else {
        return Ok(None);
    };
    let both = format!(in alloc; "{plain}; squeezed {squeezed}")?;
    Ok(Some(exchanged(alloc, both.as_str(), '\n', '|')?))
}

/// What the start is reduced to in both modes.
fn answers_by(
    alloc: Global,
    grammar: &Checked,
    start: &str,
    seed: u64,
) -> Result<Option<String>, Memory> {
    let Some(perses) = answers_in(alloc, grammar, start, seed, Mode::Perses)? else {
        return Ok(None);
    };
    let Some(hdd) = answers_in(alloc, grammar, start, seed, Mode::Hdd)? else {
        return Ok(None);
    };
    Ok(Some(format!(in alloc; "{perses}\n    hdd {hdd}")?))
}

/// What the text is reduced to in both modes by the grammar that another text spells.
fn answers(alloc: Global, grammar: &str, seed: u64, text: &str) -> Result<Option<String>, Memory> {
    let start = exchanged(alloc, text, '|', '\n')?;
    match checked(alloc, grammar, None) {
        Ok(grammar) => answers_by(alloc, &grammar, start.as_str(), seed),
        Err(_) => Ok(None),
    }
}

/// What is found of the case in a line; None where it is none.
fn answer_of(alloc: Global, line: &str) -> Result<Option<String>, Memory> {
    let Some((name, case)) = line.split_once(' ') else {
        return Ok(None);
    };
    let Some((number, text)) = case.split_once(' ') else {
        return Ok(None);
    };
    match (grammar_named(name), number.parse::<u64>()) {
        (Some(grammar), Ok(seed)) => answers(alloc, grammar, seed, text),
        _ => Ok(None),
    }
}

/// Prints the line, and then what is found of its case.
fn answer_line(rt: &HostRuntime, alloc: Global, line: &str) -> Result<()> {
    match answer_of(alloc, line)? {
        Some(answer) => println!(rt; "{line}\n    {answer}")?,
        None => println!(rt; "{line}\n    no case")?,
    }
    Ok(())
}

/// Answers the lines of the input, one after another.
fn answer_lines(rt: &HostRuntime, alloc: Global) -> Result<()> {
    for line in rt.lines(alloc) {
        answer_line(rt, alloc, line?.as_str())?;
    }
    Ok(())
}

fn main(rt: HostRuntime) -> Result<()> {
    answer_lines(&rt, rt.alloc())
}
