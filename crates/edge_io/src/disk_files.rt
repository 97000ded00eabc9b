ghost use Rattle.std.specs.Prelude.{◌≡◌, ◌≤◌, IfOk, IsErrOf, vec_len};
ghost use Rattle.edge_io.specs.Calls.{CountsFault};

use crate::files::{FileFault, Files, WriteFault};
use crate::machine::{keep_failure, write_whole};
use crate::replacing::replace;
use std::alloc::{AllocError, Global};
use std::io::Read;
use std::marker::Model;
use std::{fs, io};

/// Of a longer file no copy is kept: grammars, inputs and results have at most so many bytes, and a journal
/// may have a thousand times as many.
const MOST_KEPT: usize = 1_048_576;

/// A file that was read: its name, and its bytes.
#[derive(Drop)]
struct FirstRead {
    name: String,
    bytes: Vec<u8>,
}

/// The files of the machine. Their content and their calls aren't visible to contracts, which see the count of their faults alone.
#[derive(Drop)]
pub struct DiskFiles<R: std::rt::Files> {
    rt: R,
    alloc: Global,
    faults: u64,
    reason: Option<io::Error>,
    reads: Vec<FirstRead>,
}

impl<R: std::rt::Files> Model for DiskFiles<R> {
    ghost use Rattle.std.specs.Prelude.{ℕ};

    ghost Value = { ℕ };

    ghost view = { λ d. d.faults };
}

impl<R: std::rt::Files> DiskFiles<R> {
    /// The files that `rt` reaches; a name is a path from where the program runs.
    pub fn new(rt: R, alloc: Global) -> DiskFiles<R>
        ensures { result ≡ 0 }
    {
        DiskFiles {
            rt,
            alloc,
            faults: 0,
            reason: None,
            reads: Vec::new(alloc),
        }
    }

    /// Why the last call failed that counted as a fault; none before the first.
    pub fn reason(&self) -> Option<io::Error> {
        self.reason
    }

    /// The first of what was read of this name and has at most 1,048,576 bytes. None where there was none, or
    /// memory ran out for a copy of it.
    pub fn first_read(&self, name: &str) -> Option<&[u8]> {
        let read = self.reads.iter().find(|read| read.name.as_str() == name)?;
        Some(read.bytes.as_slice())
    }

    // Writes over what the file of this name has, or makes the file. `Memory` comes only before it is made; from
    // then on an error is `Failed`.
    fn write_in_place(&mut self, name: &str, bytes: &[u8]) -> Result<(), WriteFault>
        ensures count { self.old ≤ self.new }
        ensures faults { CountsFault (IsErrOf result WriteFault.Failed) self.old self.new }
    {
        let mut file = match fs::create(&self.rt, name) {
            Ok(file) => file,
            Err(error) => return self.failed_write(error),
        };
        if let Err(error) = write_whole(&mut file, bytes) {
            self.faults = self.faults.saturating_add(1);
            self.reason = Some(error);
            return Err(WriteFault::Failed);
        }
        Ok(())
    }

    // Ends a write by this error, which came while the file was as before.
    fn failed_write(&mut self, error: io::Error) -> Result<(), WriteFault>
        ensures count { self.old ≤ self.new }
        ensures faults { CountsFault (IsErrOf result WriteFault.Failed) self.old self.new }
    {
        match keep_failure(&mut self.faults, &mut self.reason, error) {
            Some(memory) => Err(WriteFault::Memory(memory)),
            None => Err(WriteFault::Failed),
        }
    }
}

// The file's first bytes, up to `most` of them.
fn read_start<R: std::rt::Files>(
    rt: &R,
    alloc: Global,
    name: &str,
    most: u64,
) -> io::Result<Vec<u8>> {
    let mut bytes = Vec::new(alloc);
    fs::open(rt, name)?.take(most).read_to_end(&mut bytes)?;
    Ok(bytes)
}

// Keeps a copy of what was read, where there is memory for it.
fn keep_read(
    reads: &mut Vec<FirstRead>,
    alloc: Global,
    name: &str,
    bytes: &[u8],
) -> Result<(), AllocError> {
    let copy = FirstRead {
        name: String::from_str(alloc, name)?,
        bytes: Vec::from_slice(alloc, bytes)?,
    };
    let _ = reads.push(copy);
    Ok(())
}

impl<R: std::rt::Files> Files for DiskFiles<R> {
    ghost use Rattle.std.specs.Prelude.{None};

    ghost content = { λ _ _. None };

    ghost calls = { λ _. None };

    ghost faults = { λ d. d };

    fn read(&mut self, name: &str, limit: u64) -> Result<Vec<u8>, FileFault>
        ensures limit { IfOk result (λ bytes. vec_len bytes ≤ limit) }
        ensures count { self.old ≤ self.new }
        ensures faults { CountsFault (IsErrOf result FileFault.Failed) self.old self.new }
    {
        // A file that is too long has one byte more than the limit.
        match read_start(&self.rt, self.alloc, name, limit.saturating_add(1)) {
            Ok(bytes) if bytes.len() as u64 > limit => Err(FileFault::TooLong),
            Ok(bytes) => {
                if bytes.len() <= MOST_KEPT {
                    let _ = keep_read(&mut self.reads, self.alloc, name, bytes.as_slice());
                }
                Ok(bytes)
            }
            Err(error) => match keep_failure(&mut self.faults, &mut self.reason, error) {
                Some(memory) => Err(FileFault::Memory(memory)),
                None => Err(FileFault::Failed),
            },
        }
    }

    /// A new file takes the place of the old one, so that a crash leaves the old bytes or the new ones. In place
    /// is written what is a link or no ordinary file, has several names, another owner or group than a new file,
    /// or is where no new file can be made, synced or renamed, though there is space. Only then `Failed` leaves
    /// anything but the old bytes.
    fn write(&mut self, name: &str, bytes: &[u8]) -> Result<(), WriteFault>
        ensures count { self.old ≤ self.new }
        ensures faults { CountsFault (IsErrOf result WriteFault.Failed) self.old self.new }
    {
        match replace(&self.rt, self.alloc, name, bytes) {
            Ok(true) => Ok(()),
            Ok(false) => self.write_in_place(name, bytes),
            Err(error) => self.failed_write(error),
        }
    }
}
