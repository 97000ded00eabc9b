//! What is done alike wherever a call of the machine is made.

ghost use Rattle.std.specs.Prelude.{◌≤◌, ◌↔◌, IsNone, IsSome, OnOk};
ghost use Rattle.std.specs.Io.KnownBytes.{Appends};
ghost use Rattle.faults.specs.Memory.{IsOutOfMemory};
ghost use Rattle.edge_io.specs.Calls.{CountsFault};

use faults::Memory;
use std::io;
use std::io::Write;

/// Writes the whole piece, also where the machine takes it in parts. After an error some part of
/// it may have been written.
pub fn write_whole<W: Write>(writer: &mut W, piece: &[u8]) -> io::Result<()>
    ensures { OnOk result (Appends (W.contents writer.old) (W.contents writer.new) piece.now) }
{
    writer.write_all(piece)
}

/// Counts the error of a call that failed, and answers none. Where the program itself had no memory it
/// counts nothing, and gives that.
pub fn count_failure(faults: &mut u64, error: &io::Error) -> Option<Memory>
    ensures memory { IsSome result ↔ IsOutOfMemory error.now }
    ensures faults { CountsFault (IsNone result) faults.old faults.new }
    ensures count { faults.old ≤ faults.new }
{
    match Memory::of_error(error) {
        Some(memory) => Some(memory),
        None => {
            *faults = faults.saturating_add(1);
            None
        }
    }
}

/// Counts the error of a call that failed, keeps it, and answers none. Where the program itself had no
/// memory it does neither, and gives that.
pub(crate) fn keep_failure(
    faults: &mut u64,
    reason: &mut Option<io::Error>,
    error: io::Error,
) -> Option<Memory>
    ensures memory { IsSome result ↔ IsOutOfMemory error }
    ensures faults { CountsFault (IsNone result) faults.old faults.new }
    ensures count { faults.old ≤ faults.new }
{
    let memory = count_failure(faults, &error);
    if memory.is_none() {
        *reason = Some(error);
    }
    memory
}
