//! Reading and writing the files that a command line names.

ghost use Rattle.std.specs.Prelude.{◌≤◌, IfErr, IfOk, OnOk, length};
ghost use Rattle.edge_io.specs.Files.{Holds, SameFiles, SameOthers};
ghost use Rattle.edge_io.specs.FileCalls.{WereMade};
ghost use Rattle.command_ends.specs.Status.{ReadFails, WriteFails, read_makes, write_makes};
ghost use Rattle.command_ends.specs.declared.status.NamedFile.TheVariants.{Input};
ghost use Rattle.command_ends.specs.World.{input_limit, IsQuiet, seen};

use crate::status::{NamedFile, Refusal};
use edge_io::{FileFault, Files, WriteFault};
use reduce_step::TEXT_LIMIT;

/// The longest input, in bytes.
const INPUT_LIMIT: u64 = TEXT_LIMIT as u64;

/// The longest file of a grammar, in bytes.
pub const GRAMMAR_LIMIT: u64 = 1_048_576;

/// The longest journal that is read, in bytes.
pub const JOURNAL_LIMIT: u64 = 1_073_741_824;

/// The bytes of a file that has at most `limit` of them.
pub fn read_file<F: Files>(
    files: &mut F,
    name: &str,
    limit: u64,
    file: NamedFile,
) -> Result<Vec<u8>, Refusal>
    ensures bytes { IfOk result (λ bytes. Holds bytes.items (F.content files.old name.now)) }
    ensures limit { IfOk result (λ bytes. length bytes.items ≤ limit) }
    ensures quiet { OnOk result (IsQuiet (seen F.content F.faults files.old) (seen F.content F.faults files.new)) }
    ensures refused { IfErr result (λ refusal. ReadFails limit file (F.content files.old name.now)
        (seen F.content F.faults files.old) (seen F.content F.faults files.new) refusal) }
    ensures calls { WereMade (read_makes name.now result) (F.calls files.old) (F.calls files.new) }
    ensures same { SameFiles (F.content files.old) (F.content files.new) }
{
    match files.read(name, limit) {
        Ok(bytes) => Ok(bytes),
        Err(FileFault::Failed) => Err(Refusal::CannotRead(file)),
        Err(FileFault::TooLong) => Err(Refusal::TooLong(file)),
        Err(FileFault::Memory(memory)) => Err(Refusal::Memory(memory)),
    }
}

/// The bytes of the input, which has at most `TEXT_LIMIT` of them.
pub fn read_input<F: Files>(files: &mut F, name: &str) -> Result<Vec<u8>, Refusal>
    ensures bytes { IfOk result (λ bytes. Holds bytes.items (F.content files.old name.now)) }
    ensures limit { IfOk result (λ bytes. length bytes.items ≤ input_limit) }
    ensures quiet { OnOk result (IsQuiet (seen F.content F.faults files.old) (seen F.content F.faults files.new)) }
    ensures refused { IfErr result (λ refusal. ReadFails input_limit Input (F.content files.old name.now)
        (seen F.content F.faults files.old) (seen F.content F.faults files.new) refusal) }
    ensures calls { WereMade (read_makes name.now result) (F.calls files.old) (F.calls files.new) }
    ensures same { SameFiles (F.content files.old) (F.content files.new) }
{
    read_file(files, name, INPUT_LIMIT, NamedFile::Input)
}

/// Makes a file hold these bytes. After `CannotWrite` it may hold anything.
pub fn write_file<F: Files>(files: &mut F, name: &str, bytes: &[u8]) -> Result<(), Refusal>
    ensures written { OnOk result (Holds bytes.now (F.content files.new name.now)) }
    ensures quiet { OnOk result (IsQuiet (seen F.content F.faults files.old) (seen F.content F.faults files.new)) }
    ensures others { SameOthers (F.content files.old) (F.content files.new) name.now }
    ensures refused { IfErr result (λ refusal. WriteFails (seen F.content F.faults files.old) (seen F.content F.faults files.new) refusal) }
    ensures calls { WereMade (write_makes name.now result) (F.calls files.old) (F.calls files.new) }
{
    match files.write(name, bytes) {
        Ok(()) => Ok(()),
        Err(WriteFault::Failed) => Err(Refusal::CannotWrite),
        Err(WriteFault::Memory(memory)) => Err(Refusal::Memory(memory)),
    }
}
