//! Scripts that can't be asked, or say no to the start.

use notice_places::Quoted;
use script_gate::{ScriptCall, ScriptFault};
use std::alloc::AllocError;
use std::io;
use std::process::ExitStatus;

/// The last ask of a worker.
#[derive(Clone, Copy)]
pub struct LastAsk<'a> {
    /// The script's path, as it is started.
    pub script: &'a str,
    /// The candidate's file.
    pub file: &'a str,
    /// How the script ended; none before the first ask.
    pub end: Option<ExitStatus>,
    /// What failed, if anything.
    pub fault: Option<ScriptFault>,
}

/// What the machine's number of an error means for a script that can't be started.
fn advice_for(error: &io::Error) -> &'static str {
    match error.raw_os_error() {
        Some(2) => {
            "it isn't there, or what its first line names isn't (is there a carriage return at that line's end?)"
        }
        Some(8) => "its first line names no program: begin it with #!/bin/sh",
        Some(26) => "it is being written: is it also the journal?",
        Some(13) => "it isn't executable (chmod +x), or a folder on the way can't be entered",
        _ => "see docs/GUIDE.md, Writing a script",
    }
}

/// Why a script couldn't be asked.
pub(crate) fn add_fault(
    text: &mut String,
    ask: &LastAsk<'_>,
    fault: &ScriptFault,
) -> Result<(), AllocError> {
    let LastAsk { script, file, .. } = *ask;
    let error = &fault.error;
    match fault.call {
        ScriptCall::MakeFolder => write!(text, "perses: the work folder: {error}\n"),
        ScriptCall::WriteCandidate => write!(text, "perses: {file}: {error}\n"),
        ScriptCall::RunScript => {
            let advice = advice_for(error);
            write!(text, "perses: {script}: {error}\nperses: {advice}\n")
        }
    }
}

/// What a shell's statuses mean.
fn meaning_of(end: ExitStatus) -> &'static str {
    match end.code() {
        Some(126) => ": a command in it could not be run",
        Some(127) => ": a command in it was not found",
        Some(124) => ": a timeout in it ran out",
        _ => "",
    }
}

/// How the script ended on the whole input, and how to try it by hand.
pub(crate) fn add_no(text: &mut String, ask: &LastAsk<'_>) -> Result<(), AllocError> {
    let (script, file) = (Quoted(ask.script), Quoted(ask.file));
    if let Some(end) = ask.end {
        let meaning = meaning_of(end);
        write!(
            text,
            "perses: on the whole input the script ended with {end}{meaning}\n"
        )?;
    }
    write!(
        text,
        "perses: it has to end with 0 there; try it: {script} {file}; echo $?\n"
    )
}
