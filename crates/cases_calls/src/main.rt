//! Prints how the top call ends over files, gates, a journal and an output in memory, for `rt ci` to
//! compare with `stdout`, which was worked out by hand; none of it comes from a run. The ends of
//! reductions by a grammar, and the journals and reports, were worked out apart from the program, by an
//! independent model.
//!
//! Its input is a list of cases. `case` and what it shows begins one: there is no file, the gates always
//! say yes, no call fails, and the output takes all. The lines after it change that, as [`Case::set`]
//! says. `run` and the words of a command line run the program. After each run comes how it ended: the
//! status, and then, where there are any, what was put, the journal's records, commits, torn tail and
//! name, the openings of the gates, the files that changed, and the calls of the files, where the case shows
//! them. Of very many events there are the counts. Where several workers came to a result, the records that
//! the commits use are in place of all; where the script failed, nothing is; and the numbers of records and
//! of a worker that isn't the only one to fail are left out: these depend on how the workers interleave. In
//! a word or a text `%` and two hexadecimal digits are a byte, as `%0A` for a newline.
#![tactic(auto)]

mod case;
mod outcome;
mod run;

use crate::case::Case;
use crate::run::run_shown;
use anyhow::Result;
use percent_encoding::percent_decode;
use std::alloc::Global;

/// The bytes of a text, in which `%` and two hexadecimal digits are a byte.
pub(crate) fn decoded(alloc: Global, text: &str) -> Result<Vec<u8>> {
    let mut bytes = Vec::new(alloc);
    percent_decode(text.as_bytes()).append_to(&mut bytes)?;
    Ok(bytes)
}

/// The words between single blanks. Two blanks in a row have the empty word between them, and the
/// empty text has no words.
fn words_in(alloc: Global, text: &str) -> Result<Vec<String>> {
    let mut words = Vec::new(alloc);
    if !text.is_empty() {
        for word in text.split(' ') {
            words.push(String::from_utf8(decoded(alloc, word)?)?)?;
        }
    }
    Ok(words)
}

fn main(rt: HostRuntime) -> Result<()> {
    let alloc = rt.alloc();
    let mut case = Case::new(alloc);
    for line in rt.lines(alloc) {
        let line = line?;
        let (key, text) = line.as_str().split_once(' ').unwrap_or((line.as_str(), ""));
        if key == "run" {
            let words = words_in(alloc, text)?;
            let outcome = run_shown(&rt, alloc, &case, &words)?;
            println!(rt; "{line}\n{outcome}")?;
        } else {
            case.set(alloc, key, text)?;
            println!(rt; "{line}")?;
        }
    }
    Ok(())
}
