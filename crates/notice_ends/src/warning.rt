//! What is said before a run.

use command_resume::is_one_file;
use command_words::{ModeLine, ReduceLine};
use std::alloc::AllocError;
use std::fs;
use std::os::unix::fs::PermissionsExt;
use std::rt::Files;

/// A file that a command line names.
#[derive(Clone, Copy, Debug)]
struct Named<'a> {
    /// What it is.
    what: &'static str,
    /// Its path.
    path: &'a str,
    /// Whether the program writes it.
    written: bool,
}

/// Warns of those of the other files that are this one, where one of both is written.
fn add_same_as<R: Files>(
    text: &mut String,
    rt: &R,
    file: Named<'_>,
    others: &[Named<'_>],
) -> Result<(), AllocError> {
    for other in others {
        if (file.written || other.written) && is_one_file(rt, file.path, other.path) {
            write!(
                text,
                "perses: warning: {} and {} are one and the same file, {}\n",
                other.what, file.what, file.path
            )?;
        }
    }
    Ok(())
}

fn add_same<R: Files>(text: &mut String, rt: &R, files: &[Named<'_>]) -> Result<(), AllocError> {
    for (index, file) in files.iter().enumerate() {
        add_same_as(text, rt, *file, files.get(..index).unwrap_or(&[]))?;
    }
    Ok(())
}

/// Warns of those of the files that a worker's candidates are written to.
fn add_candidates<R: Files + AllocGlobal>(
    text: &mut String,
    rt: &R,
    line: &ReduceLine<'_>,
    files: &[Named<'_>],
) -> Result<(), AllocError> {
    let name = name_of(line.input);
    for number in 1..line.jobs.saturating_add(1) {
        let path = format!(in rt.alloc(); "{}/{number}/{name}", line.work)?;
        add_same_as(text, rt, written("a candidate", path.as_str()), files)?;
    }
    Ok(())
}

/// Warns of those of the files that are one, or that a worker's candidates are written to.
fn add_one_file<R: Files + AllocGlobal>(
    text: &mut String,
    rt: &R,
    line: &ReduceLine<'_>,
    files: &[Named<'_>],
) -> Result<(), AllocError> {
    add_same(text, rt, files)?;
    add_candidates(text, rt, line, files)
}

/// Warns where the journal that is resumed is the output, or a file that a worker's candidates are written to.
fn add_resumed<R: Files + AllocGlobal>(
    text: &mut String,
    rt: &R,
    line: &ReduceLine<'_>,
    output: Named<'_>,
) -> Result<(), AllocError> {
    let Some(path) = line.resume else {
        return Ok(());
    };
    let resumed = [read("the journal of --resume", path)];
    add_same_as(text, rt, output, &resumed)?;
    add_candidates(text, rt, line, &resumed)
}

fn add_empty<R: Files>(text: &mut String, rt: &R, file: Named<'_>) -> Result<(), AllocError> {
    match fs::metadata(rt, file.path) {
        Ok(found) if found.is_file() && found.len() == 0 => {
            write!(
                text,
                "perses: warning: {} {} is empty\n",
                file.what, file.path
            )
        }
        _ => Ok(()),
    }
}

fn add_script<R: Files>(text: &mut String, rt: &R, script: &str) -> Result<(), AllocError> {
    match fs::metadata(rt, script) {
        Ok(found) if found.is_file() && found.permissions().mode() & 0o111 == 0 => write!(
            text,
            "perses: warning: the script {script} isn't executable: chmod +x {script}\n"
        ),
        _ => Ok(()),
    }
}

/// The part of a path after its last slash.
fn name_of(path: &str) -> &str {
    match path.rsplit_once('/') {
        Some((_, name)) => name,
        None => path,
    }
}

/// The folder that a path is in.
fn folder_of(path: &str) -> &str {
    match path.rsplit_once('/') {
        Some(("", _)) => "/",
        Some((folder, _)) => folder,
        None => ".",
    }
}

fn add_folder<R: Files>(text: &mut String, rt: &R, file: Named<'_>) -> Result<(), AllocError> {
    let folder = folder_of(file.path);
    match fs::metadata(rt, folder) {
        Ok(found) if found.is_dir() && !found.permissions().readonly() => Ok(()),
        Ok(_) => write!(
            text,
            "perses: warning: {} can't be written into {folder}\n",
            file.what
        ),
        Err(_) => write!(
            text,
            "perses: warning: the folder {folder} of {} isn't there\n",
            file.what
        ),
    }
}

/// Whether a worker's folder has this name, a number from 1 to 16.
fn is_workers(name: &str) -> bool {
    match name.parse::<u32>() {
        Ok(number) => 1 <= number && number <= 16,
        Err(_) => false,
    }
}

fn add_work<R: Files + AllocGlobal + Clone + Drop>(
    text: &mut String,
    rt: &R,
    work: &str,
) -> Result<(), AllocError> {
    let Ok(entries) = fs::read_dir(rt, work) else {
        return Ok(());
    };
    for entry in entries {
        let Ok(entry) = entry else {
            return Ok(());
        };
        let name = entry.file_name();
        if !is_workers(name) {
            return write!(
                text,
                "perses: warning: the work folder {work} holds {name}, which isn't from here\n"
            );
        }
    }
    Ok(())
}

/// A file that the program reads.
fn read<'a>(what: &'static str, path: &'a str) -> Named<'a> {
    Named {
        what,
        path,
        written: false,
    }
}

/// A file that the program writes.
fn written<'a>(what: &'static str, path: &'a str) -> Named<'a> {
    Named {
        what,
        path,
        written: true,
    }
}

/// What will go wrong with this command line, or may: a line for each.
pub fn warnings<R: Files + AllocGlobal + Clone + Drop>(
    rt: &R,
    line: &ReduceLine<'_>,
    journal: &str,
) -> Result<String, AllocError> {
    let mut text = String::new(rt.alloc());
    let input = read("the input", line.input);
    let script = read("the script", line.script);
    let output = written("the output", line.output);
    let journal = written("the journal", journal);
    add_empty(&mut text, rt, input)?;
    match line.mode {
        ModeLine::Lines => add_one_file(&mut text, rt, line, &[input, script, output, journal])?,
        ModeLine::ByGrammar(by) => {
            let grammar = read("the grammar", by.grammar.path);
            add_empty(&mut text, rt, grammar)?;
            match by.grammar.lexer {
                None => {
                    let files = [input, grammar, script, output, journal];
                    add_one_file(&mut text, rt, line, &files)?;
                }
                Some(path) => {
                    let lexer = read("the lexer grammar", path);
                    add_empty(&mut text, rt, lexer)?;
                    let files = [input, grammar, lexer, script, output, journal];
                    add_one_file(&mut text, rt, line, &files)?;
                }
            }
        }
    }
    add_resumed(&mut text, rt, line, output)?;
    add_script(&mut text, rt, line.script)?;
    add_folder(&mut text, rt, output)?;
    add_work(&mut text, rt, line.work)?;
    Ok(text)
}
