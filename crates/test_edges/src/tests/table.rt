//! Texts with their verdicts, as they come.

use faults::Memory;
use script_gate_trait::{Bytes, Verdict};
use std::alloc::Global;
use std::test::Fail;
use verdict_table::{Found, Record, Records, Table};

/// Whether the table has these at the texts `one` and `two`, and nothing at `tw`.
fn has_found(table: &Table, one: Found, two: Found) -> bool {
    table.find(b"one") == one && table.find(b"two") == two && table.find(b"tw") == Found::Absent
}

fn filled(claim: u64, number: u64, verdict: Verdict) -> Found {
    Found::Filled {
        claim,
        number,
        verdict,
    }
}

/// Whether these are the records' texts, in their order.
fn has_texts(records: &Records, wanted: &[&[u8]]) -> bool {
    for (record, text) in records.as_slice().iter().zip(wanted) {
        if record.text.as_slice() != *text {
            return false;
        }
    }
    records.len() == wanted.len()
}

/// Claims two texts and fills the claims in the other order: whether the table has what it should at
/// first, with one claim, with two, with one filled and with two filled; and whether its records are in that
/// order then.
fn two_filled(alloc: Global) -> Result<([bool; 5], bool), Memory> {
    let mut table = Table::new(alloc);
    let at_first = has_found(&table, Found::Absent, Found::Absent);
    let one = table.claim(Bytes::from_slice(alloc, b"one")?)?;
    let with_one = has_found(&table, Found::Claimed(one), Found::Absent);
    let two = table.claim(Bytes::from_slice(alloc, b"two")?)?;
    let with_two = has_found(&table, Found::Claimed(one), Found::Claimed(two));
    let is_first = table.fill(two, Verdict::No) == 1;
    let of_two = filled(two, 1, Verdict::No);
    let with_half = is_first && has_found(&table, Found::Claimed(one), of_two);
    let is_second = table.fill(one, Verdict::Yes) == 2;
    let with_all = is_second && has_found(&table, filled(one, 2, Verdict::Yes), of_two);
    let seen = [at_first, with_one, with_two, with_half, with_all];
    let records = table.into_records();
    Ok((seen, has_texts(&records, &[b"two", b"one"])))
}

#[test]
fn fills_two_claims_in_the_other_order(rt: HostRuntime) -> Result<(), Fail> {
    assert_eq!(rt; two_filled(rt.alloc())?, ([true; 5], true));
    Ok(())
}

/// How many texts of one length there are.
const MANY: u32 = 20_000;

/// The text of a number, which has 16 bytes.
fn text_of(number: u32) -> [u8; 16] {
    (number as u128).to_be_bytes()
}

fn verdict_of(number: u32) -> Verdict {
    if number % 3 == 0 {
        Verdict::Yes
    } else {
        Verdict::No
    }
}

/// Puts the record of this number into the table, if it lacks its text.
fn add_record(alloc: Global, table: &mut Table, number: u32) -> Result<(), Memory> {
    let text = Bytes::from_slice(alloc, &text_of(number))?;
    if let Found::Absent = table.find(text.as_slice()) {
        let claim = table.claim(text)?;
        table.fill(claim, verdict_of(number));
    }
    Ok(())
}

/// A table of the records of the numbers below `MANY`, in order.
fn many_filled(alloc: Global) -> Result<Table, Memory> {
    let mut table = Table::new(alloc);
    for number in 0..MANY {
        add_record(alloc, &mut table, number)?;
    }
    Ok(table)
}

/// Whether the table has the record of this number where it was put.
fn has_record(table: &Table, number: u32) -> bool {
    let place = number as u64;
    table.find(&text_of(number)) == filled(place, place + 1, verdict_of(number))
}

/// How many of these records the table has, and whether it lacks the next one.
fn found_in(table: &Table) -> (usize, bool) {
    let found = (0..MANY)
        .filter(|number| has_record(table, *number))
        .count();
    (found, table.find(&text_of(MANY)) == Found::Absent)
}

/// That of the table of these records, and how many records it gives back.
fn many_found(alloc: Global) -> Result<((usize, bool), usize), Memory> {
    let table = many_filled(alloc)?;
    let found = found_in(&table);
    Ok((found, table.into_records().len()))
}

#[test]
fn finds_each_of_many_texts(rt: HostRuntime) -> Result<(), Fail> {
    let all = MANY as usize;
    assert_eq!(rt; many_found(rt.alloc())?, ((all, true), all));
    Ok(())
}

/// Adds a record of this text.
fn add_yes(alloc: Global, records: &mut Records, text: &[u8]) -> Result<(), Memory> {
    records.push(Record {
        text: Bytes::from_slice(alloc, text)?,
        verdict: Verdict::Yes,
    })
}

/// Whether two records are in the order in which they were added.
fn adds_two(alloc: Global) -> Result<bool, Memory> {
    let mut records = Records::new(alloc);
    add_yes(alloc, &mut records, b"a")?;
    add_yes(alloc, &mut records, b"b")?;
    Ok(has_texts(&records, &[b"a", b"b"]))
}

#[test]
fn adds_records_at_the_end(rt: HostRuntime) -> Result<(), Fail> {
    assert!(rt; adds_two(rt.alloc())?);
    Ok(())
}
