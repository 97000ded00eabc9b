//! Lexes a text, cuts it into its pieces and parses it so many times, and prints how many tokens it has,
//! and, where it is parsed, how many nodes its tree has, or without a tree how many tokens begin a text
//! that has one: `bench_texts TEXT LEXED CUT PARSED` by the grammar Mini, and
//! `bench_texts TEXT LEXED CUT PARSED GRAMMAR` by the grammar in a file. `bench/lexer`, `bench/parser` and
//! `bench/grammars` run it and take the times.
#![tactic(auto)]

mod lexing;
mod parsing;

use crate::lexing::{counted, cut};
use crate::parsing::parsed_shown;
use anyhow::{Result, bail};
use grammar_tree::Checked;
use lexer::Lexer;
use std::alloc::Global;
use std::{env, fs};
use test_grammars::checked;
use test_grammars::grammars::MINI;

/// How often the text is lexed, at least once, and how often it is then cut into its pieces, and parsed.
#[derive(Clone, Copy)]
struct Times {
    lexed: u32,
    cut: u32,
    parsed: u32,
}

/// Lexes, cuts and parses the text by the grammar, and says what was counted.
fn shown_by(alloc: Global, checked: &Checked, text: &str, times: Times) -> Result<String> {
    if text.len() >= u32::MAX as usize {
        bail!("the file is too long");
    }
    let lexer = Lexer::build(alloc, checked)?;
    let count = counted(&lexer, text, times.lexed)?;
    cut(&lexer, text, times.cut)?;
    if times.parsed == 0 {
        Ok(format!(in alloc; "{count} tokens")?)
    } else {
        parsed_shown(alloc, checked, &lexer, text, times.parsed)
    }
}

/// The same by the grammar that another text spells.
fn shown(alloc: Global, grammar: &str, text: &str, times: Times) -> Result<String> {
    match checked(alloc, grammar, None) {
        Ok(checked) => shown_by(alloc, &checked, text, times),
        Err(refused) => bail!("the grammar is refused: {refused:?}"),
    }
}

/// The grammar in the file of this name; Mini where none is given.
fn grammar_named(rt: &HostRuntime, alloc: Global, name: Option<&String>) -> Result<String> {
    match name {
        Some(name) => Ok(fs::read_to_string(rt, name.as_str())?),
        None => Ok(String::from_str(alloc, MINI)?),
    }
}

fn main(rt: HostRuntime) -> Result<()> {
    let alloc = rt.alloc();
    let words: Vec<String> = env::args(&rt)?.collect(alloc)?;
    if words.len() < 5 || words.len() > 6 {
        bail!(
            "give the name of a text, how often it is lexed, cut and parsed, and maybe a grammar"
        );
    }
    let lexed = words[2].as_str().parse::<u32>()?;
    let cut = words[3].as_str().parse::<u32>()?;
    let parsed = words[4].as_str().parse::<u32>()?;
    let grammar = grammar_named(&rt, alloc, words.get(5))?;
    let text = fs::read_to_string(&rt, words[1].as_str())?;
    let times = Times { lexed, cut, parsed };
    let shown = shown(alloc, grammar.as_str(), text.as_str(), times)?;
    println!(rt; "{shown}")?;
    Ok(())
}
