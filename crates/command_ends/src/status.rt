//! The refusals of the program, each with its status and its line.

ghost use Rattle.std.specs.Prelude.{◌≡◌, IfOk, string_bytes};
ghost use Rattle.hex.specs.Hex.{encode_lower};
ghost use Rattle.grammar_load.specs.Message.{grammar_fault_text};
ghost use Rattle.command_ends.specs.Status.{IsBeyondRefusal, IsGrammarRefusal, IsInputRefusal, IsJournalRefusal, IsKeepRefusal};
ghost use Rattle.command_ends.specs.Status.{IsOtherStartRefusal, line_of, other_start_text, script_text, status_of};
ghost use Rattle.command_ends.specs.World.{line_of_text};

use arrayvec::ArrayString;
use faults::Memory;
use grammar_load::GrammarFault;
use reduce_journal::{Digest, JournalFault};
use reduce_trees_input::InputFault;
use run_gated::RunFault;
use std::alloc::{AllocError, Global};

/// A file that the program reads.
#[derive(Clone, Copy, Debug, PartialEq, Eq)]
pub enum NamedFile {
    /// The file to be reduced.
    Input,
    /// The file of the grammar, or of its parser rules.
    Grammar,
    /// The file of its lexer rules, where it is in two.
    Lexer,
    /// The file that is taken for the result of a run.
    Result,
    /// The journal of a run.
    Journal,
}

/// Why a command ends without its result.
#[derive(Drop)]
pub enum Refusal {
    /// Memory ran out.
    Memory(Memory),
    /// The words are no command line.
    Usage,
    /// This file can't be read.
    CannotRead(NamedFile),
    /// The result can't be written.
    CannotWrite,
    /// The grammar has a fault, which this line names.
    Grammar(String),
    /// The input isn't UTF-8, or isn't cut into tokens, which this line says.
    Uncut(String),
    /// The grammar's start rule doesn't derive the input's tokens.
    NoParse,
    /// A keep text doesn't occur in the input, which this line says.
    KeepMissing(String),
    /// The start's verdict is no.
    NotInteresting,
    /// This file is longer than its limit.
    TooLong(NamedFile),
    /// The script of a worker can't be asked, which this line says.
    Script(ArrayString<64>),
    /// The journal can't be written.
    Journal,
    /// The journal of a run is of another start, which this line says.
    OtherStart(String),
    /// The journal of a run isn't one, which this line says.
    BadJournal(String),
    /// The files aren't those of a finished run, and this line has the cause.
    NotConfirmed(String),
    /// A line that an option names is beyond the last of the input, which this line says.
    BeyondLines(String),
}

/// The line for a call that failed of the gate of this worker. It takes no memory, so that a fault of a
/// script keeps its status.
fn script_line(worker: u32) -> ArrayString<64>
    ensures { result.bytes ≡ line_of_text (script_text worker) }
{
    let mut digits = itoa::Buffer::new();
    let mut line = ArrayString::<64>::new();
    line.push_str("perses: script fault at worker ");
    line.push_str(digits.format(worker));
    line.push('\n');
    line
}

/// A digest as 64 lower-case hexadecimal digits.
fn digits_of(alloc: Global, digest: &Digest) -> Result<String, Memory>
    ensures { IfOk result (λ digits. string_bytes digits ≡ encode_lower digest.now.bytes) }
{
    Ok(hex::encode(alloc, digest.bytes.as_slice())?)
}

/// The line of a journal that is of another start: its digest, and the input's.
fn other_start_line(alloc: Global, other: &Digest, start: &Digest) -> Result<String, Memory>
    ensures { IfOk result (λ line. string_bytes line ≡ line_of_text (other_start_text other.now start.now)) }
{
    let other = digits_of(alloc, other)?;
    let start = digits_of(alloc, start)?;
    let line = format!(in alloc; "perses: journal is of another start: {other}, input: {start}\n")?;
    Ok(line)
}

impl Refusal {
    /// The refusal of a grammar that has this fault; `Memory` where memory runs out.
    pub fn of_grammar(alloc: Global, fault: &GrammarFault) -> Refusal
        ensures { IsGrammarRefusal (grammar_fault_text fault.now) result }
    {
        match format!(in alloc; "perses: grammar: {fault}\n") {
            Ok(line) => Refusal::Grammar(line),
            Err(refused) => Refusal::from(refused),
        }
    }

    /// The refusal of an input that has this fault; `Memory` where memory runs out.
    pub fn of_input(alloc: Global, fault: &InputFault) -> Refusal
        ensures { IsInputRefusal fault.now result }
    {
        match fault {
            InputFault::NotUtf8 { .. } | InputFault::NoToken { .. } => {
                match format!(in alloc; "perses: {fault}\n") {
                    Ok(line) => Refusal::Uncut(line),
                    Err(refused) => Refusal::from(refused),
                }
            }
            InputFault::NoParse => Refusal::NoParse,
            InputFault::Memory(memory) => Refusal::Memory(*memory),
        }
    }

    /// The refusal of an input in which keep text `number`, counted from 1, doesn't occur; `Memory`
    /// where memory runs out.
    pub fn of_keep(alloc: Global, number: u64) -> Refusal
        ensures { IsKeepRefusal number result }
    {
        match format!(in alloc; "perses: keep text {number} is missing\n") {
            Ok(line) => Refusal::KeepMissing(line),
            Err(refused) => Refusal::from(refused),
        }
    }

    /// The refusal of bytes that are no journal for this cause; `Memory` where memory runs out.
    pub fn of_journal(alloc: Global, fault: JournalFault) -> Refusal
        ensures { IsJournalRefusal fault result }
    {
        let line = match fault {
            JournalFault::BadHead => String::from_str(alloc, "perses: bad journal head\n"),
            JournalFault::BadRecord { offset } => {
                format!(in alloc; "perses: bad journal at byte {offset}\n")
            }
            JournalFault::Memory(memory) => return Refusal::Memory(memory),
        };
        match line {
            Ok(line) => Refusal::BadJournal(line),
            Err(refused) => Refusal::from(refused),
        }
    }

    /// The refusal of a journal that is of another start than the input; `Memory` where memory runs out.
    pub fn of_other_start(alloc: Global, other: &Digest, start: &Digest) -> Refusal
        ensures { IsOtherStartRefusal other.now start.now result }
    {
        match other_start_line(alloc, other, start) {
            Ok(line) => Refusal::OtherStart(line),
            Err(memory) => Refusal::Memory(memory),
        }
    }

    /// The refusal where an option names this line, counted from 1, of an input that has fewer; `Memory`
    /// where memory runs out.
    pub fn of_beyond(alloc: Global, line: u64, lines: u64) -> Refusal
        ensures { IsBeyondRefusal line lines result }
    {
        match format!(in alloc; "perses: line {line} is beyond line {lines}\n") {
            Ok(line) => Refusal::BeyondLines(line),
            Err(refused) => Refusal::from(refused),
        }
    }

    /// The status that the program ends with, and the line that it puts on `out`.
    pub fn ending(&self) -> (u8, &str)
        ensures status { result.0 ≡ status_of self.now }
        ensures line { result.1.now ≡ line_of self.now }
    {
        match self {
            Refusal::Memory(_) => (1, "perses: out of memory\n"),
            Refusal::Usage => (2, "perses: bad command line\n"),
            Refusal::CannotRead(NamedFile::Input) => (3, "perses: cannot read input\n"),
            Refusal::CannotRead(NamedFile::Grammar) => (3, "perses: cannot read grammar\n"),
            Refusal::CannotRead(NamedFile::Lexer) => (3, "perses: cannot read lexer grammar\n"),
            Refusal::CannotRead(NamedFile::Result) => (3, "perses: cannot read result\n"),
            Refusal::CannotRead(NamedFile::Journal) => (3, "perses: cannot read journal\n"),
            Refusal::CannotWrite => (4, "perses: cannot write\n"),
            Refusal::Grammar(line) => (5, line.as_str()),
            Refusal::Uncut(line) => (6, line.as_str()),
            Refusal::NoParse => (7, "perses: input does not parse\n"),
            Refusal::NotInteresting => (8, "perses: start is not interesting\n"),
            Refusal::KeepMissing(line) => (9, line.as_str()),
            Refusal::TooLong(NamedFile::Input) => (10, "perses: input is too long\n"),
            Refusal::TooLong(NamedFile::Grammar) => (10, "perses: grammar is too long\n"),
            Refusal::TooLong(NamedFile::Lexer) => (10, "perses: lexer grammar is too long\n"),
            Refusal::TooLong(NamedFile::Result) => (10, "perses: result is too long\n"),
            Refusal::TooLong(NamedFile::Journal) => (10, "perses: journal is too long\n"),
            Refusal::Script(line) => (11, line.as_str()),
            Refusal::Journal => (12, "perses: journal fault\n"),
            Refusal::OtherStart(line) => (13, line.as_str()),
            Refusal::BadJournal(line) => (14, line.as_str()),
            Refusal::NotConfirmed(line) => (15, line.as_str()),
            Refusal::BeyondLines(line) => (16, line.as_str()),
        }
    }
}

impl From<Memory> for Refusal {
    ghost use Rattle.command_ends.specs.declared.status.Refusal.TheVariants.{Memory as OutOfMemory};

    ghost from_gives = { λ memory refusal. refusal ≡ OutOfMemory memory };

    fn from(memory: Memory) -> Refusal {
        Refusal::Memory(memory)
    }
}

impl From<AllocError> for Refusal {
    ghost use Rattle.faults.specs.Memory.{ran_out};
    ghost use Rattle.command_ends.specs.declared.status.Refusal.TheVariants.{Memory as OutOfMemory};

    ghost from_gives = { λ _ refusal. refusal ≡ OutOfMemory ran_out };

    fn from(refused: AllocError) -> Refusal {
        Refusal::Memory(Memory::from(refused))
    }
}

impl From<RunFault> for Refusal {
    ghost use Rattle.std.specs.Prelude.{◌≡◌};
    ghost use Rattle.command_ends.specs.Status.{ending_of, ending_of_run};

    ghost from_gives = { λ fault refusal. ending_of refusal ≡ ending_of_run fault };

    fn from(fault: RunFault) -> Refusal {
        match fault {
            RunFault::NotInteresting => Refusal::NotInteresting,
            RunFault::Script { worker } => Refusal::Script(script_line(worker)),
            RunFault::Journal => Refusal::Journal,
            RunFault::Memory(memory) => Refusal::Memory(memory),
        }
    }
}
