ghost use Rattle.std.specs.Prelude.{◌≡◌, ◌<◌, ◌≤◌, ◌+◌, ◌-◌, [], ◌∷◌, ◌++◌, ◌==◌, Some, length, nat_eq, position, slice_get, Contains, IfOk, OnErr};
ghost use Rattle.std.specs.Prelude.{IfSome, IsSome};
ghost use Rattle.std.specs.List.{IsDistinct};
ghost use Rattle.std.specs.List.Sorted.{IsPermutation};
ghost use Rattle.std.specs.Str.{bytes_eq};
ghost use Rattle.verdict_table.specs.TableState.{HasOnce, IsThere, all_numbers, claim_count, claim_in, found_in, numbers_of, other_claims};
ghost use Rattle.verdict_table.specs.inner.TextIndex.{IsIndexOf};
ghost use Rattle.verdict_table.specs.TableState.{record_from, text_claimed, texts_of, verdict_found, verdict_in};

use crate::found::Found;
use crate::record::{Record, Records};
use crate::text_index::TextIndex;
use faults::Memory;
use script_gate_trait::{Bytes, Verdict};
use std::alloc::Global;
use std::marker::Model;

/// An open claim: a text whose verdict is still to come, under a number of its own.
#[derive(Drop)]
pub struct Claim {
    /// The count of the claims that were made before it.
    pub number: u64,
    /// The text whose verdict is to come.
    pub text: Bytes,
}

/// A finite map from texts to verdicts: the records in their order, and the open claims.
/// Each text is in it at most once.
///
/// A text is looked for by a hash of its bytes: it is compared with the records whose texts have the
/// same hash, and with each open claim. The hash has a fixed seed, so that an input can be made whose
/// texts collide; a look-up then compares with all of these. No clause states this cost.
#[derive(Drop)]
pub struct Table {
    alloc: Global,
    claims: Vec<Claim>,
    records: Vec<Record>,
    filled: Vec<u64>,
    index: TextIndex,
}

impl Model for Table {
    ghost use Rattle.std.specs.Prelude.{◌+◌, ◌≤◌, length, vec_capacity};
    ghost use Rattle.std.specs.HashMap.{spare};
    ghost use Rattle.verdict_table.specs.TableState.{IsSound, TableState, texts_of};
    ghost use Rattle.verdict_table.specs.inner.TextIndex.{IsIndexOf};

    ghost Value = { TableState };

    ghost view = { λ table. record {
      claims = table.claims.items;
      records = table.records.items;
      filled = table.filled.items;
    } };

    ghost invariant = { λ table. record {
      sound : IsSound (record {
        claims = table.claims.items;
        records = table.records.items;
        filled = table.filled.items;
      });
      record_capacity : length table.claims.items + length table.records.items ≤ vec_capacity table.records;
      filled_capacity : length table.claims.items + length table.records.items ≤ vec_capacity table.filled;
      indexed : IsIndexOf (texts_of table.records.items) table.index.newest table.index.older.items;
      newest_room : length table.claims.items ≤ spare table.index.newest;
      older_capacity : length table.claims.items + length table.records.items ≤ vec_capacity table.index.older;
    } };
}

// The record with this text. Texts of equal numbers are told apart by their bytes; without a record, no
// number is computed.
#[tactic(auto, using(crate::proofs::TextIndexLemmas::left_within))]
fn record_of(records: &[Record], filled: &[u64], index: &TextIndex, text: &[u8]) -> Option<Found>
    requires filled { length filled.now ≡ length records.now }
    requires indexed { IsIndexOf (texts_of records.now) index.now.newest index.now.older.items }
    requires once { IsDistinct bytes_eq (texts_of records.now) }
    ensures { result ≡ record_from 1 text.now records.now filled.now }
{
    if records.is_empty() {
        return None;
    }
    let mut next = index.newest(text);
    while let Some(at) = next {
        let record = &records[at];
        if text == record.text.as_slice() {
            return Some(Found::Filled {
                claim: filled[at],
                number: at as u64 + 1,
                verdict: record.verdict,
            });
        }
        next = index.older(at);
    }
    None
}

fn claim_of(claims: &[Claim], text: &[u8]) -> Option<Found>
    ensures { result ≡ claim_in text.now claims.now }
{
    for claim in claims {
        if text == claim.text.as_slice() {
            return Some(Found::Claimed(claim.number));
        }
    }
    None
}

fn index_of(claims: &[Claim], number: u64) -> Option<usize>
    ensures { result ≡ position (λ c. c.number == number) claims.now }
{
    claims.iter().position(|claim| claim.number == number)
}

// Takes the claim with this number out.
fn take_claim(claims: &mut Vec<Claim>, number: u64) -> Claim
    requires is_open { IsSome (text_claimed number claims.old.items) }
    requires numbered { IsDistinct nat_eq (numbers_of claims.old.items) }
    ensures number { result.number ≡ number }
    ensures text { text_claimed number claims.old.items ≡ Some result.text }
    ensures others { claims.new.items ≡ other_claims number claims.old.items }
    ensures moved { IsPermutation claims.old.items (result ∷ claims.new.items) }
{
    match index_of(claims, number) {
        None => unreachable!(),
        Some(index) => claims.remove(index),
    }
}

impl Table {
    ghost use Rattle.verdict_table.specs.declared.found.Found.TheVariants.{Absent};

    /// An empty table; it takes no memory.
    pub fn new(alloc: Global) -> Table
        ensures { result ≡ record { claims = []; records = []; filled = [] } }
    {
        Table {
            alloc,
            claims: Vec::new(alloc),
            records: Vec::new(alloc),
            filled: Vec::new(alloc),
            index: TextIndex::new(alloc),
        }
    }

    /// What the table holds for a text. It takes no memory.
    pub fn find(&self, text: &[u8]) -> Found
        ensures found { result ≡ found_in self.now text.now }
        ensures verdict { verdict_found result ≡ verdict_in self.now.records text.now }
        ensures there { IsThere self.now text.now result }
        ensures once { HasOnce self.now }
    {
        match record_of(&self.records, &self.filled, &self.index, text) {
            Some(found) => found,
            None => claim_of(&self.claims, text).unwrap_or(Found::Absent),
        }
    }

    /// Opens a claim of a text that the table doesn't hold, and answers the claim's number, which no claim had before.
    /// It reserves the memory of the claim's record, so that filling it takes none.
    pub fn claim(&mut self, text: Bytes) -> Result<u64, Memory>
        requires absent { found_in self.old text ≡ Absent }
        ensures claimed { IfOk result (λ claim. self.new ≡ record self.old {
          claims = self.old.claims ++ record { number = claim; text = text } ∷ [];
        }) }
        ensures opened { IfOk result (λ claim. text_claimed claim self.new.claims ≡ Some text) }
        ensures number { IfOk result (λ claim. claim ≡ claim_count self.old) }
        ensures fresh { IfOk result (λ claim. ¬ (Contains (all_numbers self.old) claim)) }
        ensures memory { OnErr result (self.new ≡ self.old) }
    {
        let open = self.claims.len();
        self.records.reserve(open + 1)?;
        self.filled.reserve(open + 1)?;
        self.index.reserve(open + 1)?;
        let number = (open + self.records.len()) as u64;
        self.claims.push(Claim { number, text })?;
        Ok(number)
    }

    /// Ends the open claim that was made last without a verdict, as if it hadn't been made. It takes no
    /// memory.
    pub fn withdraw(&mut self, claim: u64)
        requires is_open { IsSome (text_claimed claim self.old.claims) }
        requires last { claim + 1 ≡ claim_count self.old }
        ensures { self.new ≡ record self.old { claims = other_claims claim self.old.claims } }
    {
        take_claim(&mut self.claims, claim);
    }

    /// Records the verdict on an open claim's text, and answers the record's number, counted from 1.
    /// It takes no memory.
    pub fn fill(&mut self, claim: u64, verdict: Verdict) -> u64
        requires is_open { IsSome (text_claimed claim self.old.claims) }
        ensures recorded { IfSome (text_claimed claim self.old.claims) (λ text.
            self.new.records ≡ self.old.records ++ record { text = text; verdict = verdict } ∷ []) }
        ensures closed { self.new.claims ≡ other_claims claim self.old.claims }
        ensures filled { self.new.filled ≡ self.old.filled ++ claim ∷ [] }
        ensures number { result ≡ length self.new.records }
    {
        let Claim { number, text } = take_claim(&mut self.claims, claim);
        self.index.push(text.as_slice());
        self.records.push(Record { text, verdict }).unwrap();
        self.filled.push(number).unwrap();
        self.records.len() as u64
    }

    /// The record with this number, counted from 1. It takes no memory.
    pub fn record(&self, number: u64) -> &Record
        requires first { 0 < number }
        requires within { number ≤ length self.now.records }
        ensures { slice_get self.now.records (number - 1) ≡ Some result.now }
    {
        &self.records[number as usize - 1]
    }

    /// The records in their order. Open claims are dropped.
    pub fn into_records(self) -> Records
        ensures records { result ≡ self.records }
        ensures once { IsDistinct bytes_eq (texts_of result) }
    {
        let Table { records, .. } = self;
        Records::from_vec(records)
    }
}
