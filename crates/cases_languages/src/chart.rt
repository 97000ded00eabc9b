//! Where the rules span.

ghost use Rattle.std.specs.Prelude.{◌≡◌, ◌⊎◌, ◌↔◌, ◌<◌, ◌+◌, ◌++◌, ℕ, suc, true, false, IfOk, OnOk, length, vec_len, map, Some, slice_get};
ghost use Rattle.cases_languages.specs.Positions.{AddsRows, AreRows, Fit, Grows, IsBlank, IsExact, IsIn, Known, Pairs, SameEnds, SameLength, SpansBy};
ghost use Rattle.cases_languages.specs.View.{pattern};

use crate::pattern::Pattern;
use crate::positions;
use faults::Memory;
use std::alloc::Global;

/// Up to which positions a rule is known to span from one position.
#[derive(Drop)]
pub struct Row {
    pub rule: usize,
    pub start: usize,
    pub ends: Vec<bool>,
}

/// The positions up to which the rule is known to span from a marked position.
pub(crate) fn known_ends(
    alloc: Global,
    rows: &[Row],
    rule: usize,
    from: &[bool],
) -> Result<Vec<bool>, Memory>
    requires { Fit rows.now (length from.now) }
    ensures len { IfOk result (λ to. vec_len to ≡ length from.now) }
    ensures marks { IfOk result (λ to. (j : ℕ) → IsIn to.items j ↔ ((i : ℕ) × IsIn from.now i × Known rows.now rule i j)) }
{
    let mut to = positions::none(alloc, from.len())?;
    for row in rows {
        if row.rule == rule && from[row.start] {
            to = positions::union(alloc, &to, &row.ends)?;
        }
    }
    Ok(to)
}

/// Up to which positions the pattern spans from the list's start, given what the rows say.
pub fn ends_from_start(
    alloc: Global,
    rows: &[Row],
    list: &[u32],
    whole: &Pattern,
) -> Result<Vec<bool>, Memory>
    requires { Fit rows.now (length list.now + 1) }
    ensures len { IfOk result (λ ends. vec_len ends ≡ length list.now + 1) }
    ensures ends { IfOk result (λ ends. (j : ℕ) → IsIn ends.items j ↔ SpansBy (Known rows.now) list.now (pattern whole.now) 0 j) }
{
    let from = positions::only(alloc, list.len() + 1, 0)?;
    let ends = whole.ends(alloc, rows, list, &from)?;
    Ok(ends)
}

/// Where the rules with these bodies span in the list. Rows grow from what is known of the rules
/// until nothing more is found; each time takes the rows of all rules and positions, and looks each
/// name up in all rows.
pub fn closed_rows(alloc: Global, bodies: &[Pattern], list: &[u32]) -> Result<Vec<Row>, Memory>
    ensures fit { IfOk result (λ rows. Fit rows.items (length list.now + 1)) }
    ensures exact { IfOk result (λ rows. IsExact rows.items (map pattern bodies.now) list.now (length list.now + 1)) }
{
    let mut rows = blank_rows(alloc, bodies.len(), list.len() + 1)?;
    loop {
        let next = grown_rows(alloc, bodies, list, &rows)?;
        if have_same_ends(&rows, &next) {
            return Ok(rows);
        }
        rows = next;
    }
}

/// A row for each of so many rules and each of so many positions, which marks nothing.
fn blank_rows(alloc: Global, rules: usize, count: usize) -> Result<Vec<Row>, Memory>
    ensures rows { IfOk result (λ rows. AreRows rows.items rules count) }
    ensures blank { IfOk result (λ rows. IsBlank rows.items) }
{
    let mut rows = Vec::new(alloc);
    for rule in 0..rules {
        add_blank_rows(alloc, &mut rows, rule, count)?;
    }
    Ok(rows)
}

/// Adds a row for each of so many positions, which marks nothing.
fn add_blank_rows(
    alloc: Global,
    rows: &mut Vec<Row>,
    rule: usize,
    count: usize,
) -> Result<(), Memory>
    ensures { OnOk result (AddsRows rows.old.items rows.new.items rule count count) }
{
    for start in 0..count {
        let ends = positions::none(alloc, count)?;
        rows.push(Row { rule, start, ends })?;
    }
    Ok(())
}

/// The rows, each with the positions that its rule's body spans up to, given what the rows say.
fn grown_rows(
    alloc: Global,
    bodies: &[Pattern],
    list: &[u32],
    rows: &[Row],
) -> Result<Vec<Row>, Memory>
    requires { AreRows rows.now (length bodies.now) (length list.now + 1) }
    ensures { IfOk result (λ next. Pairs (Grows (Known rows.now) (map pattern bodies.now) list.now) rows.now next.items) }
{
    let mut next = Vec::new(alloc);
    for row in rows {
        let from = positions::only(alloc, list.len() + 1, row.start)?;
        let more = body_of(bodies, row.rule).ends(alloc, rows, list, &from)?;
        next.push(Row {
            rule: row.rule,
            start: row.start,
            ends: positions::union(alloc, &row.ends, &more)?,
        })?;
    }
    Ok(next)
}

fn body_of(bodies: &[Pattern], rule: usize) -> &Pattern
    requires { rule < length bodies.now }
    ensures { slice_get (map pattern bodies.now) rule ≡ Some (pattern result.now) }
{
    &bodies[rule]
}

/// Whether the rows mark the same positions.
fn have_same_ends(old: &[Row], new: &[Row]) -> bool
    requires { Pairs SameLength old.now new.now }
    ensures same { result ≡ true → Pairs SameEnds old.now new.now }
    ensures other { result ≡ false → ¬ Pairs SameEnds old.now new.now }
{
    for i in 0..old.len() {
        if !positions::are_same(&old[i].ends, &new[i].ends) {
            return false;
        }
    }
    true
}
