//! Finds so many times whether a text without two of its tokens keeps the others, and prints how often
//! pieces are read for it: `bench_joins TEXT TIMES` by the grammar Mini. `bench/joins` runs it and takes
//! the times.
#![tactic(auto)]

ghost use Rattle.std.specs.Prelude.{◌<◌, ◌-◌, ◌^◌, IfOk, length, map};
ghost use Rattle.std.specs.Str.{chars};
ghost use Rattle.lexer.specs.Pieces.{ArePiecesOf};
ghost use Rattle.lexer.specs.Tokens.{HasTokens, token_of};

use anyhow::{Result, bail};
use lexer::{LexReader, Lexer, Pieces, Tokens};
use std::alloc::Global;
use std::{env, fs};
use test_grammars::checked;
use test_grammars::grammars::MINI;
use token_print::{Style, are_kept, keeps_printed, print};

/// The tokens of the text.
fn tokens_of(lexer: &Lexer, text: &str) -> Result<Tokens>
    requires { length text.now < 2 ^ 32 - 1 }
    ensures { IfOk result (λ tokens. HasTokens lexer.now.grammar (chars text.now) (map token_of tokens.items.items)) }
{
    match lexer.lex(text) {
        Ok(tokens) => Ok(tokens),
        Err(fault) => bail!("{fault}"),
    }
}

/// The pieces of the text.
fn pieces_of(lexer: &Lexer, text: &str) -> Result<Pieces>
    requires { length text.now < 2 ^ 32 - 1 }
    ensures { IfOk result (ArePiecesOf lexer.now.grammar text.now) }
{
    match lexer.pieces(text) {
        Ok(pieces) => Ok(pieces),
        Err(fault) => bail!("{fault}"),
    }
}

/// The numbers of so many tokens without those after one third and two thirds of them, which makes two
/// joins.
fn kept_of(alloc: Global, many: u32) -> Result<Vec<u32>> {
    let mut kept = Vec::new(alloc);
    for number in 0..many {
        if number != many / 3 && number != many / 3 * 2 {
            kept.push(number)?;
        }
    }
    Ok(kept)
}

/// How often pieces are read for the text of these tokens, which is looked at so many times.
fn read_for(alloc: Global, lexer: &Lexer, text: &str, times: u32) -> Result<u64>
    requires { length text.now < 2 ^ 32 - 1 }
{
    let tokens = tokens_of(lexer, text)?;
    let pieces = pieces_of(lexer, text)?;
    if tokens.items.len() > u32::MAX as usize {
        bail!("too many tokens");
    }
    let kept = kept_of(alloc, tokens.items.len() as u32)?;
    if !are_kept(&tokens, &kept) {
        bail!("no such tokens");
    }
    let printed = print(alloc, text, &tokens, lexer, &kept, Style::AsWas)?;
    if printed.len() >= u32::MAX as usize {
        bail!("too long");
    }
    let mut reads = 0;
    for _ in 0..times {
        let mut reader = LexReader::new(lexer);
        if !keeps_printed(
            text,
            &pieces,
            &tokens,
            &kept,
            Style::AsWas,
            &printed,
            &mut reader,
        )? {
            bail!("the tokens aren't kept");
        }
        reads = reader.reads();
    }
    Ok(reads)
}

/// The lexer of the grammar Mini.
fn mini_lexer(alloc: Global) -> Result<Lexer> {
    match checked(alloc, MINI, None) {
        Ok(checked) => Ok(Lexer::build(alloc, &checked)?),
        Err(refused) => bail!("the grammar is refused: {refused:?}"),
    }
}

/// How often pieces are read for what the words of the command line ask for.
fn reads(rt: &HostRuntime, alloc: Global, words: &[String]) -> Result<u64> {
    if words.len() != 3 {
        bail!("give the name of a text, and how often it is looked at");
    }
    let times = words[2].as_str().parse::<u32>()?;
    let text = fs::read_to_string(rt, words[1].as_str())?;
    if text.len() >= u32::MAX as usize {
        bail!("the file is too long");
    }
    let lexer = mini_lexer(alloc)?;
    read_for(alloc, &lexer, text.as_str(), times)
}

fn main(rt: HostRuntime) -> Result<()> {
    let alloc = rt.alloc();
    let words: Vec<String> = env::args(&rt)?.collect(alloc)?;
    let reads = reads(&rt, alloc, &words)?;
    println!(rt; "{reads} reads")?;
    Ok(())
}
