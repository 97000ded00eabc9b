//! The table of a board, with a copy of each claimed text, which the event of its record takes.

ghost use Rattle.std.specs.Prelude.{◌≡◌, ◌+◌, [], ◌∷◌, ◌++◌, ◌==◌, Some, length, nat_eq, position, Contains, IfOk, OnErr, IfSome, IsSome};
ghost use Rattle.std.specs.List.{IsDistinct};
ghost use Rattle.verdict_table.specs.TableState.{IsSound, all_numbers, claim_count, found_in, numbers_of, other_claims, text_claimed};
ghost use Rattle.verdict_table.specs.declared.found.Found.TheVariants.{Absent};

use faults::Memory;
use script_gate_trait::{Bytes, Verdict};
use std::alloc::Global;
use std::marker::Model;
use verdict_table::{Claim, Found, Table};

/// A table, beside a copy of the text of each open claim: so that no copy is made, which may fail, once
/// there is a verdict. A clause sees it as the table.
#[derive(Drop)]
pub(crate) struct ClaimTable {
    table: Table,
    copies: Vec<Claim>,
}

impl Model for ClaimTable {
    ghost use Rattle.std.specs.Prelude.{◌≡◌};
    ghost use Rattle.verdict_table.specs.TableState.{TableState};

    ghost Value = { TableState };

    ghost view = { λ table. table.table };

    ghost invariant = { λ table. table.copies.items ≡ table.table.claims };
}

/// Where the claim with this number is.
fn index_of(claims: &[Claim], number: u64) -> Option<usize>
    ensures { result ≡ position (λ c. c.number == number) claims.now }
{
    claims.iter().position(|claim| claim.number == number)
}

/// Takes out the copy of this claim's text.
fn take_copy(copies: &mut Vec<Claim>, number: u64) -> Bytes
    requires is_open { IsSome (text_claimed number copies.old.items) }
    requires numbered { IsDistinct nat_eq (numbers_of copies.old.items) }
    ensures text { text_claimed number copies.old.items ≡ Some result }
    ensures others { copies.new.items ≡ other_claims number copies.old.items }
{
    match index_of(copies, number) {
        None => unreachable!(),
        Some(index) => {
            let Claim { number: _, text } = copies.remove(index);
            text
        }
    }
}

impl ClaimTable {
    /// An empty table; it takes no memory.
    pub(crate) fn new(alloc: Global) -> ClaimTable
        ensures { result ≡ record { claims = []; records = []; filled = [] } }
    {
        ClaimTable {
            table: Table::new(alloc),
            copies: Vec::new(alloc),
        }
    }

    /// What the table holds for a text. It takes no memory.
    pub(crate) fn find(&self, text: &[u8]) -> Found
        ensures found { result ≡ found_in self.now text.now }
    {
        self.table.find(text)
    }

    /// Opens a claim, as a table does, and reserves a copy of its text.
    pub(crate) fn claim(&mut self, text: Bytes) -> Result<u64, Memory>
        requires absent { found_in self.old text ≡ Absent }
        ensures claimed { IfOk result (λ claim. self.new ≡ record self.old {
          claims = self.old.claims ++ record { number = claim; text = text } ∷ [];
        }) }
        ensures opened { IfOk result (λ claim. text_claimed claim self.new.claims ≡ Some text) }
        ensures number { IfOk result (λ claim. claim ≡ claim_count self.old) }
        ensures fresh { IfOk result (λ claim. ¬ (Contains (all_numbers self.old) claim)) }
        ensures memory { OnErr result (self.new ≡ self.old) }
    {
        self.copies.reserve(1)?;
        let copy = text.share()?;
        let number = self.table.claim(text)?;
        self.copies.push(Claim { number, text: copy }).unwrap();
        Ok(number)
    }

    /// Ends an open claim without a verdict. It takes no memory.
    pub(crate) fn withdraw(&mut self, claim: u64)
        requires is_open { IsSome (text_claimed claim self.old.claims) }
        requires last { claim + 1 ≡ claim_count self.old }
        requires sound { IsSound self.old }
        ensures { self.new ≡ record self.old { claims = other_claims claim self.old.claims } }
    {
        let _ = take_copy(&mut self.copies, claim);
        self.table.withdraw(claim);
    }

    /// Records the verdict on an open claim's text, and gives the record's number and the copy of the
    /// text. It takes no memory.
    pub(crate) fn fill(&mut self, claim: u64, verdict: Verdict) -> (u64, Bytes)
        requires is_open { IsSome (text_claimed claim self.old.claims) }
        requires sound { IsSound self.old }
        ensures recorded { IfSome (text_claimed claim self.old.claims) (λ text.
            self.new.records ≡ self.old.records ++ record { text = text; verdict = verdict } ∷ []) }
        ensures closed { self.new.claims ≡ other_claims claim self.old.claims }
        ensures filled { self.new.filled ≡ self.old.filled ++ claim ∷ [] }
        ensures number { result.0 ≡ length self.new.records }
        ensures text { text_claimed claim self.old.claims ≡ Some result.1 }
    {
        let copy = take_copy(&mut self.copies, claim);
        let number = self.table.fill(claim, verdict);
        (number, copy)
    }
}
