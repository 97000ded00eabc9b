ghost use Rattle.std.specs.Prelude.{◌≡◌, IfOk};
ghost use Rattle.reduce_journal.specs.Report.{first_lines, report_text};

use faults::Memory;
use std::alloc::Global;

/// What a reduction says of itself at its end. Units are tokens, in mode `lines` lines.
#[derive(Clone, Copy, Debug, PartialEq, Eq)]
pub struct Counts {
    /// The units of the start.
    pub start_units: u64,
    /// The units of the result.
    pub end_units: u64,
    /// The bytes of the start.
    pub start_bytes: u64,
    /// The bytes of the result.
    pub end_bytes: u64,
    /// The rounds, with the last one, in which nothing changed.
    pub rounds: u64,
    /// The answers that the reducer was given.
    pub used: u64,
    /// The texts that have a record, asked or kept.
    pub records: u64,
}

/// The first four lines of a report, each ended by a newline: all but how many records there are.
pub fn first_lines(alloc: Global, counts: &Counts) -> Result<Vec<u8>, Memory>
    ensures { IfOk result (λ text. text.items ≡ first_lines counts.now) }
{
    let Counts {
        start_units,
        end_units,
        start_bytes,
        end_bytes,
        rounds,
        used,
        records: _,
    } = *counts;
    let text = format!(in alloc;
        "units: {start_units} -> {end_units}\nbytes: {start_bytes} -> {end_bytes}\nrounds: {rounds}\nused: {used}\n"
    )?;
    Ok(text.into_bytes())
}

/// The five lines of a report, each ended by a newline.
pub fn report(alloc: Global, counts: &Counts) -> Result<Vec<u8>, Memory>
    ensures { IfOk result (λ text. text.items ≡ report_text counts.now) }
{
    let mut text = first_lines(alloc, counts)?;
    let records = counts.records;
    let last = format!(in alloc; "records: {records}\n")?;
    text.extend_from_slice(last.as_bytes())?;
    Ok(text)
}
