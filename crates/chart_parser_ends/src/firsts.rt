//! Which kinds the rules of a normal form can begin with.

ghost use Rattle.std.specs.Prelude.{◌≡◌, ◌↔◌, ℕ, List, ◌<◌, ◌≤◌, ◌^◌, true, false, length, slice_index, slice_index_or, vec_len, IfOk, IsTrue};
ghost use Rattle.std.specs.List.{All, Contains};
ghost use Rattle.normal_form.specs.View.{alts_form, rule_form};
ghost use Rattle.normal_form.specs.declared.normal.Sym;
ghost use Rattle.chart_parser_ends.specs.inner.Exact.{IsTokenOf};
ghost use Rattle.chart_parser_ends.specs.inner.Firsts.{AreClosed, AreFirsts, CanBeLeftOut, Covers, CoversAlternative, HasCells, HasKind};
ghost use Rattle.chart_parser_ends.specs.inner.Firsts.{HasWhatBegins, IsCovered, Keeps, MayBeEmpty, MayBegin, cells};

use faults::Memory;
use normal_form::{Normal, NormalRule, Sym};
use std::alloc::Global;

/// What is known of how a rule begins.
#[derive(Drop)]
pub(crate) struct FirstRow {
    /// Whether it may derive the empty list.
    pub(crate) empty: bool,

    /// Whether it may begin with a kind, at the kind's number. It may with each kind past these.
    pub(crate) begins: Vec<bool>,
}

/// How often the rows are gone through at most.
const PASSES: u32 = 32;

/// How much the rules with their symbols times the kinds may be.
const CELLS: usize = 1 << 22;

/// Whether a token of this kind is one of the symbol, which is a kind or a set.
pub(crate) fn is_token(symbol: Sym, kind: u32, normal: &Normal) -> bool
    ensures { IsTrue result ↔ IsTokenOf normal.now symbol kind }
{
    match symbol {
        Sym::Kind(own) => own == kind,
        Sym::Set(set) => normal.sets().contains(set, kind),
        Sym::Rule(_) => false,
    }
}

/// Whether the symbol may derive the empty list.
pub(crate) fn may_be_empty(symbol: Sym, rows: &[FirstRow]) -> bool
    ensures { IsTrue result ↔ MayBeEmpty rows.now symbol }
{
    match symbol {
        Sym::Kind(_) | Sym::Set(_) => false,
        Sym::Rule(rule) => match rows.get(rule as usize) {
            Some(row) => row.empty,
            None => true,
        },
    }
}

/// Whether the row has the kind.
fn has_kind(row: &FirstRow, kind: usize) -> bool
    ensures { result ≡ slice_index_or row.now.begins.items kind true }
{
    if kind < row.begins.len() {
        row.begins[kind]
    } else {
        true
    }
}

/// Whether the symbol may begin with the kind.
pub(crate) fn may_begin(symbol: Sym, kind: u32, normal: &Normal, rows: &[FirstRow]) -> bool
    ensures { IsTrue result ↔ MayBegin normal.now rows.now symbol kind }
{
    match symbol {
        Sym::Kind(_) | Sym::Set(_) => is_token(symbol, kind, normal),
        Sym::Rule(rule) => match rows.get(rule as usize) {
            Some(row) => has_kind(row, kind as usize),
            None => true,
        },
    }
}

/// The row has the kinds that the symbol may begin with.
fn add_symbol(row: &mut FirstRow, symbol: Sym, normal: &Normal, rows: &[FirstRow])
    requires { vec_len row.old.begins ≤ 2 ^ 32 }
    ensures empty { row.new.empty ≡ row.old.empty }
    ensures len { vec_len row.new.begins ≡ vec_len row.old.begins }
    ensures kept { Keeps row.old row.new }
    ensures has { HasWhatBegins normal.now rows.now symbol row.new }
{
    for kind in 0..row.begins.len() {
        if may_begin(symbol, kind as u32, normal, rows) {
            row.begins[kind] = true;
        }
    }
}

/// The row has what the alternative makes it have: the kinds that its symbols begin with, up to the
/// first one that isn't empty.
fn add_alternative(row: &mut FirstRow, symbols: &[Sym], normal: &Normal, rows: &[FirstRow])
    requires { vec_len row.old.begins ≤ 2 ^ 32 }
    ensures len { vec_len row.new.begins ≡ vec_len row.old.begins }
    ensures kept { Keeps row.old row.new }
    ensures covers { CoversAlternative normal.now rows.now symbols.now row.new }
{
    for symbol in symbols {
        add_symbol(row, *symbol, normal, rows);
        if !may_be_empty(*symbol, rows) {
            return;
        }
    }
    row.empty = true;
}

/// The row has what each of the alternatives makes it have.
fn add_alternatives(
    row: &mut FirstRow,
    alternatives: &[Vec<Sym>],
    normal: &Normal,
    rows: &[FirstRow],
)
    requires { vec_len row.old.begins ≤ 2 ^ 32 }
    ensures len { vec_len row.new.begins ≡ vec_len row.old.begins }
    ensures covers { (alt : List Sym) → Contains (alts_form alternatives.now) alt → CoversAlternative normal.now rows.now alt row.new }
{
    for symbols in alternatives {
        add_alternative(row, symbols, normal, rows);
    }
}

/// The row of a rule, by the rows of all rules.
fn row_of(
    alloc: Global,
    rule: &NormalRule,
    kinds: usize,
    normal: &Normal,
    rows: &[FirstRow],
) -> Result<FirstRow, Memory>
    requires { kinds ≤ 2 ^ 32 }
    ensures len { IfOk result (λ row. vec_len row.begins ≡ kinds) }
    ensures covers { IfOk result (Covers normal.now rows.now (rule_form rule.now)) }
{
    let mut row = FirstRow {
        empty: false,
        begins: vec![in alloc; false; kinds]?,
    };
    match rule {
        NormalRule::Regular(alternatives) => {
            add_alternatives(&mut row, alternatives, normal, rows);
            Ok(row)
        }
        NormalRule::Star(symbol) | NormalRule::Opt(symbol) => {
            add_symbol(&mut row, *symbol, normal, rows);
            row.empty = true;
            Ok(row)
        }
        NormalRule::Plus(symbol) => {
            add_symbol(&mut row, *symbol, normal, rows);
            row.empty = may_be_empty(*symbol, rows);
            Ok(row)
        }
    }
}

/// Whether the other row has the kind, if the row has it.
fn is_kind_within(kind: usize, row: &FirstRow, other: &FirstRow) -> bool
    ensures { IsTrue result → HasKind row.now kind → HasKind other.now kind }
{
    !has_kind(row, kind) || has_kind(other, kind)
}

/// Whether the other row has all that the row has.
fn is_within(row: &FirstRow, other: &FirstRow) -> bool
    ensures { IsTrue result → Keeps row.now other.now }
{
    if row.begins.len() < other.begins.len() {
        return false;
    }
    for kind in 0..row.begins.len() {
        if !is_kind_within(kind, row, other) {
            return false;
        }
    }
    !row.empty || other.empty
}

/// Whether the row with this number, if there is one, has all that the rule makes it have.
fn has_enough(
    alloc: Global,
    number: usize,
    rule: &NormalRule,
    kinds: usize,
    normal: &Normal,
    rows: &[FirstRow],
) -> Result<bool, Memory>
    requires { kinds ≤ 2 ^ 32 }
    ensures { IfOk result (λ enough. IsTrue enough → IsCovered normal.now rows.now number (rule_form rule.now)) }
{
    let Some(row) = rows.get(number) else {
        return Ok(true);
    };
    let wanted = row_of(alloc, rule, kinds, normal, rows)?;
    Ok(is_within(&wanted, row))
}

/// Whether each row has all that its rule makes it have.
fn are_closed(
    alloc: Global,
    kinds: usize,
    normal: &Normal,
    rows: &[FirstRow],
) -> Result<bool, Memory>
    requires { kinds ≤ 2 ^ 32 }
    ensures { IfOk result (λ closed. IsTrue closed → AreClosed normal.now rows.now) }
{
    let rules = normal.rules();
    for number in 0..rules.len() {
        if !has_enough(alloc, number, &rules[number], kinds, normal, rows)? {
            return Ok(false);
        }
    }
    Ok(true)
}

/// Makes each row anew by the rows of all rules, the last one first. Whether one of them has more
/// then.
fn grow(
    alloc: Global,
    kinds: usize,
    normal: &Normal,
    rows: &mut Vec<FirstRow>,
) -> Result<bool, Memory>
    requires kinds { kinds ≤ 2 ^ 32 }
    requires cells { All (HasCells kinds) rows.old.items }
    ensures len { length rows.new.items ≡ length rows.old.items }
    ensures cells { All (HasCells kinds) rows.new.items }
{
    let rules = normal.rules();
    let mut grown = false;
    for number in (0..rules.len()).rev() {
        if number < rows.len() {
            let row = row_of(alloc, &rules[number], kinds, normal, rows.as_slice())?;
            if !is_within(&row, &rows[number]) {
                rows[number] = row;
                grown = true;
            }
        }
    }
    Ok(grown)
}

/// So many rows that say nothing.
fn empty_rows(alloc: Global, count: usize, kinds: usize) -> Result<Vec<FirstRow>, Memory>
    ensures len { IfOk result (λ rows. length rows.items ≤ count) }
    ensures cells { IfOk result (λ rows. All (HasCells kinds) rows.items) }
{
    let mut rows = Vec::new(alloc);
    while rows.len() < count {
        rows.push(FirstRow {
            empty: false,
            begins: vec![in alloc; false; kinds]?,
        })?;
    }
    Ok(rows)
}

/// The rows, which are made anew until none of them has more then, or that was done too often. A
/// rule's left corners mostly have greater numbers, so few times are enough.
fn grown_rows(alloc: Global, kinds: usize, normal: &Normal) -> Result<Vec<FirstRow>, Memory>
    requires { kinds ≤ 2 ^ 32 }
    ensures len { IfOk result (λ rows. length rows.items ≤ length normal.now.rules) }
    ensures cells { IfOk result (λ rows. All (HasCells kinds) rows.items) }
{
    let mut rows = empty_rows(alloc, normal.rules().len(), kinds)?;
    for _ in 0..PASSES {
        if !grow(alloc, kinds, normal, &mut rows)? {
            return Ok(rows);
        }
    }
    Ok(rows)
}

/// What is known of how the rules of a normal form begin, with kinds below this number. A form that
/// is too large, or whose rows aren't found soon, has no rows.
pub(crate) fn first_rows(
    alloc: Global,
    kinds: usize,
    normal: &Normal,
) -> Result<Vec<FirstRow>, Memory>
    requires { kinds ≤ 2 ^ 32 }
    ensures firsts { IfOk result (λ rows. AreFirsts normal.now rows.items) }
    ensures small { IfOk result (λ rows. cells rows.items ≤ 2 ^ 22) }
{
    if kinds > 0 && size_of(normal) <= CELLS / kinds {
        let rows = grown_rows(alloc, kinds, normal)?;
        if are_closed(alloc, kinds, normal, &rows)? {
            return Ok(rows);
        }
    }
    Ok(Vec::new(alloc))
}

/// Whether the rule may begin with the kind at the position.
pub(crate) fn may_begin_at(
    rule: u32,
    first: u32,
    kinds: &[u32],
    normal: &Normal,
    rows: &[FirstRow],
) -> bool
    ensures { result ≡ false → first < length kinds.now → ¬ MayBegin normal.now rows.now (Sym.Rule rule) (slice_index kinds.now first) }
{
    let index = first as usize;
    index < kinds.len() && may_begin(Sym::Rule(rule), kinds[index], normal, rows)
}

/// Whether the rule is a star or an optional, which can be empty whatever its symbol is.
pub(crate) fn can_be_left_out(rule: u32, normal: &Normal) -> bool
    ensures { IsTrue result → CanBeLeftOut normal.now rule }
{
    let rules = normal.rules();
    if rule as usize >= rules.len() {
        return false;
    }
    matches!(
        rules[rule as usize],
        NormalRule::Star(_) | NormalRule::Opt(_)
    )
}

/// The number of kinds up to the greatest one of the list.
pub(crate) fn kinds_in(kinds: &[u32]) -> usize
    ensures { result ≤ 2 ^ 32 }
{
    let mut count = 0;
    for kind in kinds {
        let needed = *kind as usize + 1;
        if count < needed {
            count = needed;
        }
    }
    count
}

/// How many symbols the rules have, and how many rules there are.
fn size_of(normal: &Normal) -> usize
    ensures { length normal.now.rules ≤ result }
{
    let mut size: usize = 0;
    for rule in normal.rules() {
        size = size.saturating_add(1);
        if let NormalRule::Regular(alternatives) = rule {
            for symbols in alternatives {
                size = size.saturating_add(symbols.len());
            }
        }
    }
    size
}
