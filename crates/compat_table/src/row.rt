//! Rows of symbols.

ghost use Rattle.std.specs.Prelude.{◌≡◌, ℕ, ◌+◌, ◌<◌, ◌≤◌, ◌^◌, [], ◌∷◌, ◌↔◌, IsTrue, OnOk, length, vec_len};
ghost use Rattle.std.specs.List.{All, Contains};
ghost use Rattle.std.specs.List.Sorted.{IsNonDecreasing};
ghost use Rattle.normal_form.specs.declared.normal.Sym.{Sym as Symbol};
ghost use Rattle.normal_form.specs.declared.normal.Sym.TheVariants.{Rule};
ghost use Rattle.compat_table.specs.inner.Rows.{IsAmong, IsGrown, IsMarked, size};
ghost use Rattle.compat_table.specs.inner.Table.{IsSortedRow};
ghost use Rattle.compat_table.specs.inner.View.{symbols_of};

use faults::{Limit, Memory};
use grammar_names::is_among;
use normal_form::Sym;
use std::alloc::Global;

/// Symbols, by their numbers.
#[derive(Drop)]
pub(crate) struct Row {
    pub(crate) kinds: Vec<u32>,
    pub(crate) sets: Vec<u32>,
    pub(crate) rules: Vec<u32>,
}

impl Row {
    /// No symbols.
    pub(crate) fn new(alloc: Global) -> Row
        ensures { symbols_of result ≡ record { kinds = []; sets = []; rules = [] } }
    {
        Row {
            kinds: Vec::new(alloc),
            sets: Vec::new(alloc),
            rules: Vec::new(alloc),
        }
    }

    /// Adds a rule, unless it is marked by the number, and marks it.
    fn add_rule(&mut self, rule: u32, marks: &mut [u32], number: u32) -> Result<(), Memory>
        requires rule { rule < length marks.old }
        requires marked { IsMarked marks.old number (symbols_of self.old) }
        ensures marked { OnOk result (IsMarked marks.new number (symbols_of self.new)) }
        ensures grown { OnOk result (IsGrown (Rule rule ∷ []) (symbols_of self.old) (symbols_of self.new)) }
        ensures same { (n : ℕ) → number < n → All (λ m. m < n) marks.old → All (λ m. m < n) marks.new }
    {
        if marks[rule as usize] != number {
            self.rules.push(rule)?;
            marks[rule as usize] = number;
        }
        Ok(())
    }

    /// Adds a symbol.
    fn add_symbol(&mut self, symbol: Sym, marks: &mut [u32], number: u32) -> Result<(), Memory>
        requires symbol { (q : ℕ) → symbol ≡ Rule q → q < length marks.old }
        requires marked { IsMarked marks.old number (symbols_of self.old) }
        ensures marked { OnOk result (IsMarked marks.new number (symbols_of self.new)) }
        ensures grown { OnOk result (IsGrown (symbol ∷ []) (symbols_of self.old) (symbols_of self.new)) }
        ensures same { (n : ℕ) → number < n → All (λ m. m < n) marks.old → All (λ m. m < n) marks.new }
    {
        match symbol {
            Sym::Kind(kind) => self.kinds.push(kind)?,
            Sym::Set(set) => self.sets.push(set)?,
            Sym::Rule(rule) => self.add_rule(rule, marks, number)?,
        }
        Ok(())
    }

    /// Adds a symbol, also where it is one of these.
    pub(crate) fn push(&mut self, symbol: Sym) -> Result<(), Memory>
        ensures { OnOk result (IsGrown (symbol ∷ []) (symbols_of self.old) (symbols_of self.new)) }
    {
        match symbol {
            Sym::Kind(kind) => self.kinds.push(kind)?,
            Sym::Set(set) => self.sets.push(set)?,
            Sym::Rule(rule) => self.rules.push(rule)?,
        }
        Ok(())
    }

    /// Adds symbols that were found, and counts them. Memory runs out where more than 16,777,216 are found.
    pub(crate) fn add(
        &mut self,
        symbols: &[Sym],
        marks: &mut [u32],
        number: u32,
        found: &mut usize,
    ) -> Result<(), Memory>
        requires symbols { (q : ℕ) → Contains symbols.now (Rule q) → q < length marks.old }
        requires marked { IsMarked marks.old number (symbols_of self.old) }
        requires few { found.old ≤ 2 ^ 24 }
        ensures few { OnOk result (found.new ≤ 2 ^ 24) }
        ensures found { OnOk result (found.new ≡ found.old + length symbols.now) }
        ensures marked { OnOk result (IsMarked marks.new number (symbols_of self.new)) }
        ensures grown { OnOk result (IsGrown symbols.now (symbols_of self.old) (symbols_of self.new)) }
        ensures same { (n : ℕ) → number < n → All (λ m. m < n) marks.old → All (λ m. m < n) marks.new }
    {
        let count = *found + symbols.len();
        Limit::Symbols.within(count)?;
        for symbol in symbols {
            self.add_symbol(*symbol, marks, number)?;
        }
        *found = count;
        Ok(())
    }

    /// Whether the symbol is one of these, which are sorted.
    pub(crate) fn contains(&self, symbol: Sym) -> bool
        requires { IsSortedRow (symbols_of self.now) }
        ensures { IsTrue result ↔ IsAmong (symbols_of self.now) symbol }
    {
        match symbol {
            Sym::Kind(kind) => is_among(&self.kinds, kind),
            Sym::Set(set) => is_among(&self.sets, set),
            Sym::Rule(rule) => is_among(&self.rules, rule),
        }
    }

    /// The same symbols, each once, by rising numbers.
    pub(crate) fn sorted(self) -> Row
        ensures sorted { IsSortedRow (symbols_of result) }
        ensures few { size (symbols_of result) ≤ size (symbols_of self) }
        ensures same { (t : Symbol) → (IsAmong (symbols_of result) t → IsAmong (symbols_of self) t)
            × (IsAmong (symbols_of self) t → IsAmong (symbols_of result) t) }
    {
        let Row { kinds, sets, rules } = self;
        Row {
            kinds: rising(kinds),
            sets: rising(sets),
            rules: rising(rules),
        }
    }
}

/// The same numbers, each once, rising.
fn rising(mut numbers: Vec<u32>) -> Vec<u32>
    ensures rising { IsNonDecreasing result.items }
    ensures few { vec_len result ≤ vec_len numbers }
    ensures only { (x : ℕ) → Contains result.items x → Contains numbers.items x }
    ensures all { (x : ℕ) → Contains numbers.items x → Contains result.items x }
{
    numbers.sort_unstable();
    numbers.dedup();
    numbers
}
