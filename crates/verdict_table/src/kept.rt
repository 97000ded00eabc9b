//! Verdicts that are kept from an earlier run.

ghost use Rattle.std.specs.Prelude.{◌≡◌, [], OnErr, OnOk};
ghost use Rattle.std.specs.Option.{option_copied};
ghost use Rattle.verdict_table.specs.Kept.{record_in, with_first};
ghost use Rattle.verdict_table.specs.TableState.{verdict_in};

use crate::found::Found;
use crate::record::Record;
use crate::table::Table;
use faults::Memory;
use script_gate_trait::{Bytes, Verdict};
use std::alloc::Global;
use std::marker::Model;

/// A finite map from texts to verdicts, to which texts are added and from which none is taken. A clause
/// sees it as a list of records, of which no two have one text. A look-up costs what it costs in a
/// [`Table`].
#[derive(Drop)]
pub struct Kept {
    table: Table,
}

impl Model for Kept {
    ghost use Rattle.std.specs.Prelude.{◌≡◌, [], List};
    ghost use Rattle.verdict_table.specs.declared.record.Record.{Record};

    ghost Value = { List Record };

    ghost view = { λ kept. kept.table.records };

    ghost invariant = { λ kept. record {
      no_claims : kept.table.claims ≡ [];
    } };
}

impl Kept {
    /// The empty map; it takes no memory.
    pub fn new(alloc: Global) -> Kept
        ensures { result ≡ [] }
    {
        Kept {
            table: Table::new(alloc),
        }
    }

    /// Adds a text with its verdict, where the map hasn't the text, and changes nothing otherwise. After
    /// an error the map is as before.
    pub fn add(&mut self, text: Bytes, verdict: Verdict) -> Result<(), Memory>
        ensures ok { OnOk result (self.new ≡ with_first (record { text = text; verdict = verdict }) self.old) }
        ensures err { OnErr result (self.new ≡ self.old) }
    {
        match self.find(text.as_slice()) {
            Some(_) => Ok(()),
            None => {
                let claim = self.table.claim(text)?;
                self.table.fill(claim, verdict);
                Ok(())
            }
        }
    }

    /// The verdict of a text; none exactly where the map hasn't the text. It takes no memory.
    pub fn find(&self, text: &[u8]) -> Option<Verdict>
        ensures { result ≡ verdict_in self.now text.now }
    {
        match self.table.find(text) {
            Found::Filled { verdict, .. } => Some(verdict),
            Found::Claimed(_) | Found::Absent => None,
        }
    }

    /// A text with its verdict; none exactly where the map hasn't the text. It takes no memory.
    pub fn record(&self, text: &[u8]) -> Option<&Record>
        ensures { option_copied result ≡ record_in self.now text.now }
    {
        match self.table.find(text) {
            Found::Filled { number, .. } => Some(self.table.record(number)),
            Found::Claimed(_) | Found::Absent => None,
        }
    }
}
