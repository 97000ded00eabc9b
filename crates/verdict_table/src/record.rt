ghost use Rattle.std.specs.Prelude.{◌≡◌, ◌==◌, [], ◌∷◌, ◌++◌, length, OnOk, OnErr};

use faults::Memory;
use script_gate_trait::{Bytes, Verdict};
use std::alloc::Global;
use std::marker::Model;

/// A text and its verdict.
#[derive(Drop)]
pub struct Record {
    /// The text, in bytes.
    pub text: Bytes,
    /// The verdict on it.
    pub verdict: Verdict,
}

/// Records in the order in which the verdicts came. The first has number 1.
#[derive(Drop)]
pub struct Records {
    records: Vec<Record>,
}

impl Model for Records {
    ghost use Rattle.std.specs.Prelude.{List};
    ghost use Rattle.verdict_table.specs.declared.record.Record.{Record};

    ghost Value = { List Record };

    ghost view = { λ list. list.records.items };
}

impl Records {
    /// No record; it takes no memory.
    pub fn new(alloc: Global) -> Records
        ensures { result ≡ [] }
    {
        Records {
            records: Vec::new(alloc),
        }
    }

    /// These records, without a copy.
    pub fn from_vec(records: Vec<Record>) -> Records
        ensures { result ≡ records.items }
    {
        Records { records }
    }

    /// Adds a record at the end. After an error the list is as before.
    pub fn push(&mut self, added: Record) -> Result<(), Memory>
        ensures ok { OnOk result (self.new ≡ self.old ++ added ∷ []) }
        ensures err { OnErr result (self.new ≡ self.old) }
    {
        self.records.push(added)?;
        Ok(())
    }

    /// The records in their order.
    pub fn as_slice(&self) -> &[Record]
        ensures { result.now ≡ self.now }
    {
        self.records.as_slice()
    }

    /// How many records there are.
    pub fn len(&self) -> usize
        ensures { result ≡ length self.now }
    {
        self.records.len()
    }

    /// Whether there is none.
    pub fn is_empty(&self) -> bool
        ensures { result ≡ (length self.now == 0) }
    {
        self.records.is_empty()
    }
}
