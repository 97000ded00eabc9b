//! Prints what edits leave of the trees of small texts, for the gate to compare.
//!
//! `grammar NAME` takes the grammar of that name, or in the file NAME, for the rows after it.
//! `case TEXT / EDIT / EDIT ..` parses the text, and makes one edit after another: `delete LIST
//! ELEMENT`, `empty OPTIONAL` and `replace NODE BY`. `nested COUNT OPEN INNER CLOSE / EDIT ..` does so
//! for a nested text. Nodes are named by their numbers in the parsed tree: from 0, each before those
//! below it, from left to right. An edit that can't be made is refused, and nothing is changed.
//!
//! After each edit is printed whether it was made, and what is left: the text as it was and squeezed;
//! and the nodes, each with its number, `@` and its slot where that isn't its own symbol (a letter for
//! kind, set or rule, and its number), its weight, `#` and its first token where it has one, from 0 among
//! those of the text, and its children in brackets. Of more than 200 nodes only counts are printed, of
//! a tree after edits that of its tokens.
//!
//! `below NODE` among the edits changes nothing: it prints the numbers of what is left below the node,
//! level by level, and then those of them that fit the node's slot and have fewer tokens; or `not left`.
//!
//! `stdout` is worked out apart from the program, most of it by hand and the rest by a second program
//! of the definitions: the nodes of a text are written down by the rules of its grammar's normal form,
//! and numbered; an edit strikes some of them out; the tokens that are left give the text, the weights
//! and the first tokens. None of it comes from a run.
#![tactic(auto)]

mod case;
mod descendants;
mod edit;
mod edit_text;
mod node;
mod showing;

ghost use Rattle.std.specs.Prelude.{◌≡◌, map};
ghost use Rattle.std.specs.Str.{chars};
ghost use Rattle.lexer.specs.Tokens.{HasTokens, token_of};
ghost use Rattle.syntax_tree_cut.specs.Cuts.{IsCutOf};

use crate::case::Case;
use crate::edit::make;
use crate::edit_text::{edit_of, number_of};
use crate::showing::{cut_shown, whole_shown};
use anyhow::{Result, bail};
use cases_answers::{Language, kinds_of, start_tree};
use compat_table::compat;
use std::alloc::Global;
use std::fs;
use syntax_tree_cut::Cut;
use test_grammars::grammars::STATEMENTS;

/// The numbers below a node in level order, and those of them that can take its position.
fn below_shown(case: &Case<'_>, cut: &Cut, node: u32) -> Result<String>
    requires of { IsCutOf case.now.tree cut.now }
    requires compat { case.now.compat ≡ case.now.tree.form }
{
    match case.nodes_below(cut, node)? {
        Some(below) => Ok(format!(in case.alloc; "{:?} {:?}", below.all, below.compatible)?),
        None => Ok(String::from_str(case.alloc, "not left")?),
    }
}

/// Answers a step: prints what is below a node, or makes an edit and prints what is left.
fn show_step(rt: &HostRuntime, case: &Case<'_>, cut: &mut Cut, step: &str) -> Result<()>
    requires of { IsCutOf case.now.tree cut.old }
    requires tokens { HasTokens case.now.language.now.lexer.grammar (chars case.now.text.now) (map token_of case.now.tokens.items.items) }
    requires compat { case.now.compat ≡ case.now.tree.form }
    ensures { IsCutOf case.now.tree cut.new }
{
    if let Some(node) = step.strip_prefix("below ") {
        let below = below_shown(case, cut, number_of(node)?)?;
        println!(rt; "    {step}: {below}")?;
        return Ok(());
    }
    let edit = edit_of(case.alloc, step)?;
    let made = make(&case.tree, cut, &case.compat, edit);
    let left = cut_shown(case, cut)?;
    let answer = if made { "made" } else { "refused" };
    println!(rt; "    {step}: {answer}\n    {left}")?;
    Ok(())
}

/// Prints the whole tree, and answers the steps one after another.
fn show_steps(rt: &HostRuntime, case: &Case<'_>, steps: &[&str]) -> Result<()>
    requires tokens { HasTokens case.now.language.now.lexer.grammar (chars case.now.text.now) (map token_of case.now.tokens.items.items) }
    requires compat { case.now.compat ≡ case.now.tree.form }
{
    let mut cut = Cut::new(case.alloc, &case.tree)?;
    let whole = whole_shown(case, &cut)?;
    println!(rt; "    {whole}")?;
    for step in steps {
        show_step(rt, case, &mut cut, step)?;
    }
    Ok(())
}

/// Parses the text, and answers the steps.
fn show_case(
    rt: &HostRuntime,
    alloc: Global,
    language: &Language,
    text: &str,
    steps: &[&str],
) -> Result<()> {
    let tokens = language.tokens(text)?;
    let kinds = kinds_of(alloc, &tokens)?;
    let normal = &language.normal;
    let Some(tree) = start_tree(alloc, normal, &kinds)? else {
        println!(rt; "    no tree")?;
        return Ok(());
    };
    let compat = compat(alloc, normal)?;
    let case = Case {
        alloc,
        language,
        text,
        tokens,
        tree,
        compat,
    };
    show_steps(rt, &case, steps)
}

/// The text so many times.
fn repeated(alloc: Global, text: &str, count: u32) -> Result<String> {
    let mut repeated = String::new(alloc);
    for _ in 0..count {
        repeated.push_str(text)?;
    }
    Ok(repeated)
}

/// So many of a text, another one, and as many of a third one.
fn nested_text(alloc: Global, words: &str) -> Result<String> {
    let words: Vec<&str> = words.split_whitespace().collect(alloc)?;
    let [count, open, inner, close] = words.as_slice() else {
        bail!("give the count, and what opens, is inside and closes");
    };
    let count = number_of(count)?;
    let open = repeated(alloc, open, count)?;
    let close = repeated(alloc, close, count)?;
    Ok(format!(in alloc; "{open}{inner}{close}")?)
}

/// The grammar of this name, or else in the file of this name.
fn language_named(rt: &HostRuntime, alloc: Global, name: &str) -> Result<Language> {
    if name == "Statements" {
        return Ok(Language::new(alloc, STATEMENTS)?);
    }
    Ok(Language::new(alloc, fs::read_to_string(rt, name)?.as_str())?)
}

/// Answers a row about texts.
fn show_row(
    rt: &HostRuntime,
    alloc: Global,
    language: &Language,
    question: &str,
    text: &str,
) -> Result<()> {
    let parts: Vec<&str> = text.split(" / ").collect(alloc)?;
    let [start, steps @ ..] = parts.as_slice() else {
        bail!("no text: {text}");
    };
    if question == "nested" {
        let nested = nested_text(alloc, start)?;
        return show_case(rt, alloc, language, nested.as_str(), steps);
    }
    show_case(rt, alloc, language, start, steps)
}

/// Prints the line, and then takes the grammar that it names, or answers the row.
fn answer_line(rt: &HostRuntime, alloc: Global, language: &mut Language, line: &str) -> Result<()> {
    println!(rt; "{line}")?;
    let (question, text) = line.split_once(' ').unwrap_or((line, ""));
    if question != "grammar" {
        return show_row(rt, alloc, language, question, text);
    }
    *language = language_named(rt, alloc, text)?;
    Ok(())
}

/// Answers the lines of the input, one after another.
fn answer_lines(rt: &HostRuntime, alloc: Global, language: &mut Language) -> Result<()> {
    for line in rt.lines(alloc) {
        answer_line(rt, alloc, language, line?.as_str())?;
    }
    Ok(())
}

fn main(rt: HostRuntime) -> Result<()> {
    let alloc = rt.alloc();
    let mut language = Language::new(alloc, "grammar G; a : 'a' ;")?;
    answer_lines(&rt, alloc, &mut language)
}
