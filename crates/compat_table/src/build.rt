//! How the table is made.

ghost use Rattle.std.specs.Prelude.{◌≡◌, IfOk};

use crate::nullable::nullable_rules;
use crate::search::{edges, rows};
use crate::stars::stars;
use crate::table::Compat;
use faults::Memory;
use normal_form::{Normal, rules_are_few, symbols_are_known};
use std::alloc::Global;

/// The table of a normal form. It takes memory for each rule, and for each symbol that fits a rule
/// through symbols that can be alone in an alternative, and through pluses; a kind or set that is
/// found several times takes it as often. The kinds in a set, and the pluses of a star, aren't written
/// out. In a chain of n rules, each alone in an alternative of the one before, there are n (n - 1) / 2
/// pairs that fit. It is out of memory where more than 16,777,216 symbols are found for all rules
/// together.
pub fn compat(alloc: Global, normal: &Normal) -> Result<Compat, Memory>
    ensures { IfOk result (λ c. c ≡ normal.now) }
{
    symbols_are_known();
    rules_are_few();
    normal.is_normal();
    let rules = normal.rules();
    let flags = nullable_rules(alloc, normal)?;
    let edges = edges(alloc, rules, &flags)?;
    let rows = rows(alloc, &edges)?;
    let stars = stars(alloc, rules, &rows)?;
    let normal = normal.copy(alloc)?;
    Ok(Compat {
        normal,
        rows,
        stars,
    })
}
