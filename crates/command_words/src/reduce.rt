//! Command lines of `reduce`.

ghost use Rattle.std.specs.Prelude.{◌≡◌, ◌≤◌, ◌&&◌, List, IfOk, IfSome, MatchOption, Some, None, codes, false, if◌then◌else◌, map, option_and_then};
ghost use Rattle.std.specs.Prelude.{option_map, string_bytes, true};
ghost use Rattle.command_words.specs.Options.{Use, where_fits};
ghost use Rattle.command_words.specs.Tables.{reduce_table};
ghost use Rattle.command_words.specs.inner.Found.{HasFound, fitting_jobs, line_with, names_files};
ghost use Rattle.command_words.specs.Commands.{fitting_respell, reduce_line, reduce_of, says_protects, text_of};
ghost use Rattle.command_words.specs.Lines.{journal_of, protects_read, reduce_read};

use crate::commands::{ProtectLine, ReduceLine};
use crate::mode::mode_of;
use crate::options::{ClapOption, Takes, read_options};
use crate::protects::{protects_of, texts_of};
use crate::values::read_number;
use clap::ArgMatches;
use faults::Memory;
use std::alloc::Global;

/// The options of `reduce`.
static OPTIONS: [ClapOption; 17] = [
    ClapOption {
        name: "input",
        takes: Takes::Value,
    },
    ClapOption {
        name: "output",
        takes: Takes::Value,
    },
    ClapOption {
        name: "script",
        takes: Takes::Value,
    },
    ClapOption {
        name: "grammar",
        takes: Takes::Value,
    },
    ClapOption {
        name: "lexer",
        takes: Takes::Value,
    },
    ClapOption {
        name: "mode",
        takes: Takes::Value,
    },
    ClapOption {
        name: "start",
        takes: Takes::Value,
    },
    ClapOption {
        name: "jobs",
        takes: Takes::Value,
    },
    ClapOption {
        name: "journal",
        takes: Takes::Value,
    },
    ClapOption {
        name: "resume",
        takes: Takes::Value,
    },
    ClapOption {
        name: "work",
        takes: Takes::Value,
    },
    ClapOption {
        name: "keep",
        takes: Takes::Several,
    },
    ClapOption {
        name: "squeeze",
        takes: Takes::Nothing,
    },
    ClapOption {
        name: "respell",
        takes: Takes::Nothing,
    },
    ClapOption {
        name: "protect",
        takes: Takes::Several,
    },
    ClapOption {
        name: "protect-text",
        takes: Takes::Several,
    },
    ClapOption {
        name: "only",
        takes: Takes::Value,
    },
];

/// The folder of the candidates, where none is named.
const WORK_FOLDER: &str = "perses-work";
/// The most workers.
const MOST_JOBS: u32 = 16;

/// What the words after `reduce` ask for. None where they are no options of it.
pub(crate) fn read_reduce<'a>(
    alloc: Global,
    words: &'a [String],
) -> Result<Option<ReduceLine<'a>>, Memory>
    ensures line { IfOk result (λ line. option_map reduce_read line ≡ reduce_line (map string_bytes words.entry.now)) }
    ensures size { IfOk result (λ found. IfSome found (λ line. (1 ≤ line.jobs) × (line.jobs ≤ 16))) }
{
    let Some(matches) = read_options(alloc, "reduce", &OPTIONS, words)? else {
        return Ok(None);
    };
    line_of(alloc, &matches)
}

/// What the options that were found ask for. None where one is missing, or a value is none that the
/// option takes.
fn line_of<'a>(alloc: Global, matches: &ArgMatches<'a>) -> Result<Option<ReduceLine<'a>>, Memory>
    ensures line { (uses : List Use) → HasFound reduce_table uses matches.now
        → IfOk result (λ line. option_map reduce_read line ≡ option_and_then reduce_of (where_fits reduce_table (Some uses))) }
    ensures size { IfOk result (λ found. IfSome found (λ line. (1 ≤ line.jobs) × (line.jobs ≤ 16))) }
{
    let Some(keeps) = texts_of(alloc, matches, "keep")? else {
        return Ok(None);
    };
    match protects_of(alloc, matches)? {
        None => Ok(None),
        Some(protects) => Ok(line_with(matches, keeps, protects)),
    }
}

/// What the options that were found ask for, with these keep texts and these lines that must stay. None as
/// for `line_of`.
fn line_with<'a>(
    matches: &ArgMatches<'a>,
    keeps: Vec<&'a str>,
    protects: ProtectLine<'a>,
) -> Option<ReduceLine<'a>>
    ensures size { IfSome result (λ line. (1 ≤ line.jobs) × (line.jobs ≤ 16)) }
    ensures line { (uses : List Use) → HasFound reduce_table uses matches.now
        → option_map reduce_read result ≡ line_with uses (Some (map (λ keep. keep.now) keeps.entry.items)) (Some (protects_read protects.entry)) }
{
    let files = files_of(matches)?;
    let mode = mode_of(matches)?;
    let respell = respell_of(matches)?;
    let jobs = jobs_of(matches)?;
    Some(ReduceLine {
        mode,
        respell,
        input: files.input,
        output: files.output,
        script: files.script,
        journal: matches.get_str("journal"),
        resume: matches.get_str("resume"),
        work: matches.get_str("work").unwrap_or(WORK_FOLDER),
        jobs,
        keeps,
        protects,
    })
}

/// The files that must be named.
#[derive(Clone, Copy, Debug)]
struct Files<'a> {
    input: &'a str,
    output: &'a str,
    script: &'a str,
}

/// The files that must be named, where they are.
fn files_of<'a>(matches: &ArgMatches<'a>) -> Option<Files<'a>>
    ensures { (uses : List Use) → HasFound reduce_table uses matches.now → MatchOption result
        (names_files (codes "script") uses ≡ false)
        (λ files. (names_files (codes "script") uses ≡ true) × (files.input.now ≡ text_of (codes "input") uses)
        × (files.output.now ≡ text_of (codes "output") uses) × (files.script.now ≡ text_of (codes "script") uses)) }
{
    let input = matches.get_str("input")?;
    let output = matches.get_str("output")?;
    let script = matches.get_str("script")?;
    Some(Files {
        input,
        output,
        script,
    })
}

/// Whether it is said which lines must stay.
fn says_protects(matches: &ArgMatches<'_>) -> bool
    ensures { (uses : List Use) → HasFound reduce_table uses matches.now → result ≡ says_protects uses }
{
    let lines = matches.contains_id("protect");
    let texts = matches.contains_id("protect-text");
    let only = matches.contains_id("only");
    let named = lines || texts;
    named || only
}

/// Whether what is left is respelled. None where that doesn't go with the other options.
fn respell_of(matches: &ArgMatches<'_>) -> Option<bool>
    ensures { (uses : List Use) → HasFound reduce_table uses matches.now → result ≡ fitting_respell uses }
{
    let respell = matches.get_flag("respell");
    let mode = matches.get_str("mode").unwrap_or("perses");
    let lines = mode == "lines";
    let protects = says_protects(matches);
    respell_if(respell, lines || protects)
}

/// Whether what is left is respelled. None where another option excludes it.
fn respell_if(respell: bool, excluded: bool) -> Option<bool>
    ensures { result ≡ (if respell && excluded then None else Some respell) }
{
    if respell && excluded {
        None
    } else {
        Some(respell)
    }
}

/// How many workers there are.
fn jobs_of(matches: &ArgMatches<'_>) -> Option<u32>
    ensures jobs { (uses : List Use) → HasFound reduce_table uses matches.now → result ≡ fitting_jobs uses }
    ensures size { IfSome result (λ jobs. (1 ≤ jobs) × (jobs ≤ 16)) }
{
    match matches.get_str("jobs") {
        None => Some(1),
        Some(jobs) => read_number(jobs, 1, MOST_JOBS),
    }
}

/// The path of the journal: the one that is named, or the output's followed by `.journal`.
pub fn journal_name(alloc: Global, line: &ReduceLine<'_>) -> Result<String, Memory>
    ensures { IfOk result (λ name. string_bytes name ≡ journal_of line.now) }
{
    let name = match line.journal {
        Some(name) => String::from_str(alloc, name)?,
        None => format!(in alloc; "{}.journal", line.output)?,
    };
    Ok(name)
}
