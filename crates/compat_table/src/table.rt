//! The table of what fits each rule.

ghost use Rattle.std.specs.Prelude.{◌≡◌, ◌≢◌, ◌↔◌, ℕ, IsTrue, Some};
ghost use Rattle.std.specs.List.{Contains};
ghost use Rattle.normal_form.specs.declared.normal.Sym.{Sym as Symbol};
ghost use Rattle.normal_form.specs.declared.normal.Sym.TheVariants.{Rule};
ghost use Rattle.compat_table.specs.Fits.{Fits, IsKindIn, IsPlusOf};
ghost use Rattle.compat_table.specs.inner.Rows.{IsAmong};
ghost use Rattle.compat_table.specs.inner.Table.{IsInRow, IsSortedRow};
ghost use Rattle.compat_table.specs.inner.View.{symbols_of};

use crate::row::Row;
use crate::stars::plus_symbol;
use normal_form::{Normal, Sym};
use std::marker::Model;

/// A normal form, with the symbols that fit each of its rules. Kinds of a set and pluses of a star
/// aren't among them: sets, and the symbols of stars, are there in their place.
#[derive(Drop)]
pub struct Compat {
    pub(crate) normal: Normal,
    pub(crate) rows: Vec<Row>,

    /// For each rule the symbols of the stars among it and the rules in its row.
    pub(crate) stars: Vec<Row>,
}

impl Model for Compat {
    ghost use Rattle.normal_form.specs.Form.{NormalForm};
    ghost use Rattle.normal_form.specs.inner.Code.{normal_coded};

    ghost Value = { NormalForm };

    ghost coded = { normal_coded };

    ghost use Rattle.std.specs.Prelude.{map};
    ghost use Rattle.compat_table.specs.inner.Table.{IsTableOf};
    ghost use Rattle.compat_table.specs.inner.View.{symbols_of};

    ghost view = { λ c. c.normal };

    ghost invariant = { λ c. IsTableOf c.normal (map symbols_of c.rows.items) (map symbols_of c.stars.items) };
}

/// Whether the symbols are the same.
fn is_same(symbol: Sym, other: Sym) -> bool
    ensures { IsTrue result ↔ (symbol ≡ other) }
{
    symbol == other
}

impl Compat {
    /// The normal form.
    pub fn normal(&self) -> &Normal
        ensures { result.now ≡ self.now }
    {
        &self.normal
    }

    /// Whether the symbol fits the slot. It takes no memory, and time logarithmic in how many symbols
    /// fit a rule; for a kind also time for each set that fits it.
    pub fn fits(&self, child: Sym, slot: Sym) -> bool
        ensures { IsTrue result ↔ Fits self.now child slot }
    {
        if is_same(child, slot) {
            return true;
        }
        match slot {
            Sym::Kind(_) => false,
            Sym::Set(set) => self.fits_set(child, set),
            Sym::Rule(rule) => self.fits_rule(child, rule),
        }
    }

    /// Whether the symbol is a kind in the set.
    fn fits_set(&self, child: Sym, set: u32) -> bool
        ensures { IsTrue result ↔ IsKindIn self.now child set }
    {
        match child {
            Sym::Kind(kind) => self.normal.sets().contains(set, kind),
            _ => false,
        }
    }

    /// Whether the symbol is a kind in one of the sets.
    fn fits_some_set(&self, child: Sym, sets: &[u32]) -> bool
        ensures { IsTrue result ↔ ((i : ℕ) × Contains sets.now i × IsKindIn self.now child i) }
    {
        for set in sets {
            if self.fits_set(child, *set) {
                return true;
            }
        }
        false
    }

    /// The symbol that is repeated, where the symbol is a plus.
    fn repeated(&self, child: Sym) -> Option<Sym>
        ensures { (t : Symbol) → (result ≡ Some t) ↔ IsPlusOf self.now child t }
    {
        match child {
            Sym::Rule(rule) => plus_symbol(self.normal.rules(), rule),
            _ => None,
        }
    }

    /// Whether the symbol is a plus of one of these symbols, which are sorted.
    fn is_plus_of_one(&self, child: Sym, symbols: &Row) -> bool
        requires { IsSortedRow (symbols_of symbols.now) }
        ensures { IsTrue result ↔ ((t : Symbol) × IsPlusOf self.now child t × IsAmong (symbols_of symbols.now) t) }
    {
        match self.repeated(child) {
            Some(symbol) => symbols.contains(symbol),
            None => false,
        }
    }

    /// Whether the symbol is in a row, or is a kind in one of the sets there or a plus of the symbol of one
    /// of the stars there.
    fn is_in_row(&self, child: Sym, row: &Row, stars: &Row) -> bool
        requires row { IsSortedRow (symbols_of row.now) }
        requires stars { IsSortedRow (symbols_of stars.now) }
        ensures { IsTrue result ↔ IsInRow self.now (symbols_of row.now) (symbols_of stars.now) child }
    {
        if row.contains(child) {
            return true;
        }
        if self.fits_some_set(child, &row.sets) {
            return true;
        }
        self.is_plus_of_one(child, stars)
    }

    /// Whether the symbol, which isn't the rule itself, fits the rule.
    fn fits_rule(&self, child: Sym, rule: u32) -> bool
        requires { child ≢ Rule rule }
        ensures { IsTrue result ↔ Fits self.now child (Rule rule) }
    {
        match self.rows.get(rule as usize) {
            Some(row) => self.is_in_row(child, row, &self.stars[rule as usize]),
            None => false,
        }
    }
}
