//! The journal that is resumed.

ghost use Rattle.std.specs.Option.{option_to_list};
ghost use Rattle.std.specs.Prelude.{◌≡◌, IfErr, IfOk, IfSome, MatchOption, OnOk, option_map};
ghost use Rattle.edge_io.specs.Files.{SameFiles};
ghost use Rattle.reduce_journal.specs.History.{records_of};
ghost use Rattle.command_ends.specs.World.{IsQuiet, WereRead, seen};
ghost use Rattle.command_reduce.specs.Resume.{IsKeptFrom, IsOfOther, IsResumed};
ghost use Rattle.command_reduce.specs.inner.Resume.{KeptFails, ResumeRefused, ResumeRefusedCalls};

use command_ends::{JOURNAL_LIMIT, NamedFile, Refusal, read_file};
use edge_io::Files;
use reduce_journal::{Digest, Journal, read_journal};
use script_gate_trait::Bytes;
use std::alloc::Global;
use verdict_table::Kept;

/// The verdicts that are kept: those of the journal that is named, where it is one of this start; none
/// where no journal is named. A torn tail is passed over. The file's bytes stay in memory, which the texts
/// share; beside them it takes the list of the events, until the texts are kept, and an index of them.
pub(crate) fn read_kept<F: Files>(
    alloc: Global,
    files: &mut F,
    path: Option<&str>,
    start: &Digest,
) -> Result<Kept, Refusal>
    ensures kept { IfOk result (λ kept. IsKeptFrom (option_map (λ path. path.now) path.entry) (seen F.content F.faults files.old) start.now kept) }
    ensures quiet { OnOk result (IsQuiet (seen F.content F.faults files.old) (seen F.content F.faults files.new)) }
    ensures refused { IfErr result (λ refusal. ResumeRefused (option_map (λ path. path.now) path.entry) start.now
        (seen F.content F.faults files.old) (seen F.content F.faults files.new) refusal) }
    ensures read { OnOk result (WereRead (option_to_list (option_map (λ path. path.now) path.entry)) (F.calls files.old) (F.calls files.new)) }
    ensures calls { IfErr result (ResumeRefusedCalls (option_map (λ path. path.now) path.entry) (F.calls files.old) (F.calls files.new)) }
    ensures same { SameFiles (F.content files.old) (F.content files.new) }
{
    let Some(path) = path else {
        return Ok(Kept::new(alloc));
    };
    let read = read_file(files, path, JOURNAL_LIMIT, NamedFile::Journal)?;
    let bytes = Bytes::from_vec(read)?;
    let journal = match read_journal(alloc, &bytes) {
        Ok(journal) => journal,
        Err(fault) => return Err(Refusal::of_journal(alloc, fault)),
    };
    kept_of(alloc, &journal, start)
}

/// The verdicts of a journal, where it is one of this start, or of no start.
fn kept_of(alloc: Global, journal: &Journal, start: &Digest) -> Result<Kept, Refusal>
    ensures kept { IfOk result (λ kept. IsResumed start.now kept journal.now.start (records_of journal.now.events.items)) }
    ensures refused { IfErr result (λ refusal. KeptFails start.now journal.now.start refusal) }
{
    match other_start(journal, start) {
        Some(other) => Err(Refusal::of_other_start(alloc, &other, start)),
        None => Ok(journal.kept(alloc)?),
    }
}

/// The digest of a journal's start, where it is another than this.
fn other_start(journal: &Journal, start: &Digest) -> Option<Digest>
    ensures { MatchOption result (IfSome journal.now.start (λ found. found ≡ start.now))
        (λ other. IsOfOther start.now other journal.now.start (records_of journal.now.events.items)) }
{
    let found = journal.start?;
    if found == *start {
        return None;
    }
    Some(found)
}
