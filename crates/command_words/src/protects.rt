//! Which lines must stay, as options say it.

ghost use Rattle.std.specs.Prelude.{◌≡◌, List, IfOk, map, option_map};
ghost use Rattle.command_words.specs.Options.{OptionRow, Use};
ghost use Rattle.command_words.specs.Tables.{reduce_table};
ghost use Rattle.command_words.specs.inner.Found.{HasFound, fitting_only, fitting_protects, fitting_spans, fitting_texts};
ghost use Rattle.command_words.specs.inner.Read.{NamesValue};
ghost use Rattle.command_words.specs.Lines.{protects_read, span_read};

use crate::commands::{LineSpan, ProtectLine};
use crate::values::{read_span, read_spans};
use clap::ArgMatches;
use faults::Memory;
use std::alloc::Global;

/// How often at most an option may be there that may be there several times.
const MOST_USES: usize = 8;

/// The texts that are given for an option, where there are not too many.
pub(crate) fn texts_of<'a>(
    alloc: Global,
    matches: &ArgMatches<'a>,
    name: &str,
) -> Result<Option<Vec<&'a str>>, Memory>
    ensures { (table : List OptionRow) (uses : List Use) → HasFound table uses matches.now → NamesValue table name.now
        → IfOk result (λ texts. option_map (λ texts. map (λ text. text.now) texts.items) texts ≡ fitting_texts name.now uses) }
{
    match matches.get_strs(name) {
        None => Ok(Some(Vec::new(alloc))),
        Some(texts) if texts.len() > MOST_USES => Ok(None),
        Some(texts) => Ok(Some(Vec::from_slice(alloc, texts)?)),
    }
}

/// The lines that `--protect` names, where there are not too many and each is such.
fn spans_of(alloc: Global, matches: &ArgMatches<'_>) -> Result<Option<Vec<LineSpan>>, Memory>
    ensures { (uses : List Use) → HasFound reduce_table uses matches.now
        → IfOk result (λ spans. option_map (λ spans. map span_read spans.items) spans ≡ fitting_spans uses) }
{
    match matches.get_strs("protect") {
        None => Ok(Some(Vec::new(alloc))),
        Some(texts) if texts.len() > MOST_USES => Ok(None),
        Some(texts) => read_spans(alloc, texts),
    }
}

/// The lines that `--only` names, if it is there; none where they are no such.
fn only_of(matches: &ArgMatches<'_>) -> Option<Option<LineSpan>>
    ensures { (uses : List Use) → HasFound reduce_table uses matches.now → option_map (option_map span_read) result ≡ fitting_only uses }
{
    match matches.get_str("only") {
        None => Some(None),
        Some(text) => Some(Some(read_span(text)?)),
    }
}

/// Which lines must stay, where the options for it fit.
pub(crate) fn protects_of<'a>(
    alloc: Global,
    matches: &ArgMatches<'a>,
) -> Result<Option<ProtectLine<'a>>, Memory>
    ensures { (uses : List Use) → HasFound reduce_table uses matches.now → IfOk result (λ protects. option_map protects_read protects ≡ fitting_protects uses) }
{
    let Some(lines) = spans_of(alloc, matches)? else {
        return Ok(None);
    };
    let Some(texts) = texts_of(alloc, matches, "protect-text")? else {
        return Ok(None);
    };
    match only_of(matches) {
        None => Ok(None),
        Some(only) => Ok(Some(ProtectLine { lines, texts, only })),
    }
}
