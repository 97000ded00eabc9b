//! Stars, and the pluses that fit them.

ghost use Rattle.std.specs.Prelude.{◌≡◌, ◌↔◌, ◌⊎◌, ◌<◌, ◌^◌, IfOk, OnOk, Some, length, map, slice_get};
ghost use Rattle.normal_form.specs.declared.normal.Sym.{Sym as Symbol};
ghost use Rattle.normal_form.specs.Form.{RuleForm};
ghost use Rattle.normal_form.specs.View.{rule_form};
ghost use Rattle.compat_table.specs.inner.Rows.{AreStars, IsAmong};
ghost use Rattle.compat_table.specs.inner.Table.{AreStarsOf, IsSortedRow};
ghost use Rattle.compat_table.specs.inner.View.{symbols_of};

use crate::row::Row;
use faults::Memory;
use normal_form::{NormalRule, Sym};
use std::alloc::Global;

/// The symbol of the rule, where it is a star.
fn star_of(rule: &NormalRule) -> Option<Sym>
    ensures { (t : Symbol) → (result ≡ Some t) ↔ (rule_form rule.now ≡ RuleForm.star t) }
{
    match rule {
        NormalRule::Star(symbol) => Some(*symbol),
        _ => None,
    }
}

/// The symbol of the rule, where it is a plus.
fn plus_of(rule: &NormalRule) -> Option<Sym>
    ensures { (t : Symbol) → (result ≡ Some t) ↔ (rule_form rule.now ≡ RuleForm.plus t) }
{
    match rule {
        NormalRule::Plus(symbol) => Some(*symbol),
        _ => None,
    }
}

/// The symbol of the rule with this number, where it is a plus.
pub(crate) fn plus_symbol(rules: &[NormalRule], rule: u32) -> Option<Sym>
    ensures { (t : Symbol) → (result ≡ Some t) ↔ (slice_get (map rule_form rules.now) rule ≡ Some (RuleForm.plus t)) }
{
    match rules.get(rule as usize) {
        Some(found) => plus_of(found),
        None => None,
    }
}

/// The symbol of the rule with this number, where it is a star.
fn star_symbol(rules: &[NormalRule], rule: u32) -> Option<Sym>
    ensures { (t : Symbol) → (result ≡ Some t) ↔ (slice_get (map rule_form rules.now) rule ≡ Some (RuleForm.star t)) }
{
    match rules.get(rule as usize) {
        Some(found) => star_of(found),
        None => None,
    }
}

/// Adds the symbol of the rule with this number, where that is a star.
fn push_star(stars: &mut Row, rules: &[NormalRule], rule: u32) -> Result<(), Memory>
    ensures { OnOk result ((t : Symbol) → IsAmong (symbols_of stars.new) t
        ↔ (IsAmong (symbols_of stars.old) t ⊎ (slice_get (map rule_form rules.now) rule ≡ Some (RuleForm.star t)))) }
{
    match star_symbol(rules, rule) {
        Some(symbol) => {
            stars.push(symbol)?;
            Ok(())
        }
        None => Ok(()),
    }
}

/// The symbols of the stars among the rule and the rules in its row, sorted. It takes time near linear
/// in the row, and memory for each of these symbols once.
fn stars_of(alloc: Global, rules: &[NormalRule], rule: u32, row: &Row) -> Result<Row, Memory>
    ensures are { IfOk result (λ stars. AreStars (map rule_form rules.now) rule row.now.rules.items (symbols_of stars)) }
    ensures sorted { IfOk result (λ stars. IsSortedRow (symbols_of stars)) }
{
    let mut stars = Row::new(alloc);
    push_star(&mut stars, rules, rule)?;
    // invariant: `stars` has the symbols of the stars among the rule and the first rules of the row
    for other in &row.rules {
        push_star(&mut stars, rules, *other)?;
    }
    Ok(stars.sorted())
}

/// For each rule the symbols of the stars among it and the rules in its row.
pub(crate) fn stars(alloc: Global, rules: &[NormalRule], rows: &[Row]) -> Result<Vec<Row>, Memory>
    requires few { length rows.now < 2 ^ 32 }
    ensures { IfOk result (λ stars. AreStarsOf (map rule_form rules.now) (map symbols_of rows.now) (map symbols_of stars.items)) }
{
    let mut stars = Vec::new(alloc);
    // invariant: as in AreStarsOf, for the rules before this one
    for rule in 0..rows.len() as u32 {
        let found = stars_of(alloc, rules, rule, &rows[rule as usize])?;
        stars.push(found)?;
    }
    Ok(stars)
}
