ghost use Rattle.std.specs.Prelude.{◌≡◌, ◌≤◌, ◌⊎◌, ◌↔◌, Some, option_copied, IfOk, OnOk, OnErr, IsErrOf, vec_len};
ghost use Rattle.edge_io.specs.Calls.{CountsCall, IsNextToFail};
ghost use Rattle.edge_io.specs.MemFiles.{after_write, content_of, entries_of, new_files, IsMissing, IsTooLong};

use crate::calls::Calls;
use crate::files::{FileFault, Files, WriteFault};
use std::alloc::Global;
use std::marker::Model;

/// Files in memory, some calls of which can be made to fail. Which calls were made is shown by `LoggedFiles` over them.
#[derive(Drop)]
pub struct MemFiles {
    alloc: Global,
    entries: Vec<(String, Vec<u8>)>,
    calls: Calls,
}

impl Model for MemFiles {
    ghost use Rattle.edge_io.specs.MemFiles.{FilesState, entries_of};

    ghost Value = { FilesState };

    ghost view = { λ m. record { entries = entries_of m.entries.items; calls = m.calls } };
}

fn find<'a>(entries: &'a [(String, Vec<u8>)], name: &str) -> Option<&'a [u8]>
    ensures { option_copied result ≡ content_of (entries_of entries.entry.now) name.now }
{
    let entry = entries.iter().find(|entry| entry.0.as_str() == name)?;
    Some(entry.1.as_slice())
}

impl MemFiles {
    /// Files with these names and bytes; of two entries with one name the first counts. `fail` has
    /// the numbers, from 1, of the calls that fail; calls of `read` and `write` are counted together.
    pub fn new(alloc: Global, entries: Vec<(String, Vec<u8>)>, fail: Vec<u64>) -> MemFiles
        ensures { result ≡ new_files (entries_of entries.items) fail.items }
    {
        MemFiles {
            alloc,
            entries,
            calls: Calls::new(fail),
        }
    }

    /// What the file of this name holds, `None` where it is missing. It counts as no call.
    pub fn content(&self, name: &str) -> Option<&[u8]>
        ensures { option_copied result ≡ content_of self.now.entries name.now }
    {
        find(self.entries.as_slice(), name)
    }

    /// How many calls failed.
    pub fn faults(&self) -> u64
        ensures { result ≡ self.now.calls.faults }
    {
        self.calls.faults()
    }
}

impl Files for MemFiles {
    ghost use Rattle.std.specs.Prelude.{None};

    ghost content = { λ m name. Some (content_of m.entries name) };

    ghost calls = { λ _. None };

    ghost faults = { λ m. m.calls.faults };

    fn read(&mut self, name: &str, limit: u64) -> Result<Vec<u8>, FileFault>
        ensures bytes { IfOk result (λ bytes. content_of self.old.entries name.now ≡ Some bytes.items) }
        ensures limit { IfOk result (λ bytes. vec_len bytes ≤ limit) }

        // Both errors come exactly where they should; out of memory alone is free.
        ensures failed { IsErrOf result FileFault.Failed
            ↔ (IsNextToFail self.old.calls ⊎ IsMissing name.now self.old) }
        ensures too_long { IsErrOf result FileFault.TooLong
            ↔ ((¬ IsNextToFail self.old.calls) × IsTooLong limit name.now self.old) }

        // The entries stay, and the call is counted, as a fault exactly where it failed.
        ensures entries { self.new.entries ≡ self.old.entries }
        ensures calls { CountsCall (IsErrOf result FileFault.Failed) self.old.calls self.new.calls }
        ensures count { self.old.calls.faults ≤ self.new.calls.faults }
    {
        if self.calls.is_next_to_fail() {
            self.calls.count_fault();
            return Err(FileFault::Failed);
        }
        let Some(bytes) = find(self.entries.as_slice(), name) else {
            self.calls.count_fault();
            return Err(FileFault::Failed);
        };
        self.calls.count_call();
        if bytes.len() as u64 > limit {
            return Err(FileFault::TooLong);
        }
        Ok(Vec::from_slice(self.alloc, bytes)?)
    }

    /// The file that is written comes before the entries that had its name, which no longer count.
    fn write(&mut self, name: &str, bytes: &[u8]) -> Result<(), WriteFault>
        ensures failed { IsErrOf result WriteFault.Failed ↔ IsNextToFail self.old.calls }
        ensures ok { OnOk result (self.new.entries ≡ after_write name.now bytes.now self.old.entries) }
        ensures err { OnErr result (self.new.entries ≡ self.old.entries) }

        // The call is counted, as a fault exactly where it failed.
        ensures calls { CountsCall (IsErrOf result WriteFault.Failed) self.old.calls self.new.calls }
        ensures count { self.old.calls.faults ≤ self.new.calls.faults }
    {
        if self.calls.is_next_to_fail() {
            self.calls.count_fault();
            return Err(WriteFault::Failed);
        }
        self.calls.count_call();
        let entry = (
            String::from_str(self.alloc, name)?,
            Vec::from_slice(self.alloc, bytes)?,
        );
        self.entries.insert(0, entry)?;
        Ok(())
    }
}
