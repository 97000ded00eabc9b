//! Numbers of texts.

ghost use Rattle.std.specs.Prelude.{◌≡◌, ℕ, List, Option, None, OnOk};
ghost use Rattle.grammar_tree.specs.Kinds.{same_text};
ghost use Rattle.grammar_names.specs.Index.{Finds, or_added};

use faults::Memory;
use grammar_tree::Text;
use std::alloc::Global;
use std::collections::BTreeMap;

/// A number for each text. Of several numbers that are added to equal texts the first one counts.
#[derive(Drop)]
pub struct Index {
    numbers: BTreeMap<String, u32>,
}

impl Index {
    /// No text has a number.
    pub fn new(alloc: Global) -> Index
        ensures { Finds result (λ _. None) }
    {
        Index {
            numbers: BTreeMap::new(alloc),
        }
    }

    /// The number of the text. It takes time logarithmic in the number of texts.
    pub fn get(&self, text: &Text) -> Option<u32>
        ensures { (f : List ℕ → Option ℕ) → Finds self.now f → result ≡ f text.now }
    {
        self.numbers.get(text.as_str()).copied()
    }

    /// Gives the text this number, unless it has one.
    pub fn add(&mut self, alloc: Global, text: &Text, number: u32) -> Result<(), Memory>
        ensures { OnOk result ((f : List ℕ → Option ℕ) → Finds self.old f → Finds self.new (λ t. or_added (f t) (same_text text.now t) number)) }
    {
        let name = text.as_str();
        if self.numbers.contains_key(name) {
            return Ok(());
        }
        let key = String::from_str(alloc, name)?;
        self.numbers.insert(key, number)?;
        Ok(())
    }
}
