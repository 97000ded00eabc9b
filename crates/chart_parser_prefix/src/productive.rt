//! Which rules of a normal form derive some list of kinds.

ghost use Rattle.std.specs.Prelude.{◌≡◌, ◌↔◌, false, length, ltb, slice_get, IfOk, IsTrue};
ghost use Rattle.std.specs.List.{list_all, list_any};
ghost use Rattle.std.specs.Option.{option_map_or};
ghost use Rattle.normal_form.specs.View.{alts_form, rule_form};
ghost use Rattle.chart_parser_prefix.specs.inner.Productive.{AreProductive, DerivesSome, DerivesSomeSeq, form_passes, has_some, passes};

use faults::Memory;
use grammar_check_nodes::{Condition, Test, is_flagged, least_table};
use normal_form::{Normal, NormalRule, Sym};
use std::alloc::Global;

/// Whether the first list is shorter than the other one.
fn is_shorter(list: &[u32], other: &[u32]) -> bool
    ensures { result ≡ ltb (length list.now) (length other.now) }
{
    list.len() < other.len()
}

/// Whether the set with this number has a kind.
fn has_kinds(normal: &Normal, set: u32) -> bool
    ensures { result ≡ option_map_or has_some (slice_get normal.now.sets set) false }
{
    let sets = normal.sets();
    match sets.missing(set) {
        Some(missing) => is_shorter(missing, sets.all()),
        None => false,
    }
}

/// Whether the symbol derives some list, as far as the table of rules says.
fn symbol_passes(symbol: Sym, normal: &Normal, flags: &[bool]) -> bool
    ensures { result ≡ passes normal.now flags.now symbol }
{
    match symbol {
        Sym::Kind(_) => true,
        Sym::Set(set) => has_kinds(normal, set),
        Sym::Rule(rule) => is_flagged(flags, rule),
    }
}

/// Whether each of the symbols does.
fn all_pass(symbols: &[Sym], normal: &Normal, flags: &[bool]) -> bool
    ensures { result ≡ list_all (passes normal.now flags.now) symbols.now }
{
    for symbol in symbols {
        if !symbol_passes(*symbol, normal, flags) {
            return false;
        }
    }
    true
}

/// Whether all symbols of one of the alternatives do.
fn one_passes(alternatives: &[Vec<Sym>], normal: &Normal, flags: &[bool]) -> bool
    ensures { result ≡ list_any (list_all (passes normal.now flags.now)) (alts_form alternatives.now) }
{
    for symbols in alternatives {
        if all_pass(symbols, normal, flags) {
            return true;
        }
    }
    false
}

/// Whether the rule does.
fn rule_passes(rule: &NormalRule, normal: &Normal, flags: &[bool]) -> bool
    ensures { result ≡ form_passes normal.now flags.now (rule_form rule.now) }
{
    match rule {
        NormalRule::Regular(alternatives) => one_passes(alternatives, normal, flags),
        NormalRule::Star(_) | NormalRule::Opt(_) => true,
        NormalRule::Plus(symbol) => symbol_passes(*symbol, normal, flags),
    }
}

/// The rules of a normal form, to be tested.
#[derive(Drop)]
struct Rules<'a> {
    normal: &'a Normal,

    /// For each rule the symbols that it needs, where it has no alternatives.
    needed: Vec<Vec<Sym>>,
}

impl<'a> Test for Rules<'a> {
    ghost use Rattle.std.specs.Prelude.{length};
    ghost use Rattle.chart_parser_prefix.specs.inner.Productive.{numbered_passes};

    type Alternative = Vec<Sym>;

    type Term = Sym;

    ghost nodes = { λ it. length it.normal.now.rules };

    ghost test = { λ it flags rule. numbered_passes it.normal.now flags rule };

    fn count(&self) -> usize {
        self.normal.rules().len()
    }

    fn passes(&self, flags: &[bool], node: usize) -> bool {
        let rules = self.normal.rules();
        rule_passes(&rules[node], self.normal, flags)
    }

    fn alternatives(&self, node: usize) -> &[Vec<Sym>] {
        let rules = self.normal.rules();
        if let NormalRule::Regular(alternatives) = &rules[node] {
            return alternatives;
        }
        if node < self.needed.len() {
            return &self.needed[node..node + 1];
        }
        &[]
    }

    fn terms(alternative: &Vec<Sym>) -> &[Sym] {
        alternative.as_slice()
    }

    fn condition<'t>(&self, term: &'t Sym) -> Condition<'t, Vec<Sym>> {
        match *term {
            Sym::Kind(_) => Condition::Always,
            Sym::Set(set) if has_kinds(self.normal, set) => Condition::Always,
            Sym::Set(_) => Condition::Never,
            Sym::Rule(rule) => Condition::Node(rule),
        }
    }
}

/// For each rule the symbols that it needs, where it has no alternatives.
fn needed_symbols(alloc: Global, normal: &Normal) -> Result<Vec<Vec<Sym>>, Memory> {
    let mut needed = Vec::new(alloc);
    for rule in normal.rules() {
        let mut symbols = Vec::new(alloc);
        if let NormalRule::Plus(symbol) = rule {
            symbols.push(*symbol)?;
        }
        needed.push(symbols)?;
    }
    Ok(needed)
}

/// Which rules derive some list of kinds, by their numbers. It takes time linear in the form.
pub(crate) fn productive_rules(alloc: Global, normal: &Normal) -> Result<Vec<bool>, Memory>
    ensures { IfOk result (λ flags. AreProductive normal.now flags.items) }
{
    let rules = Rules {
        normal,
        needed: needed_symbols(alloc, normal)?,
    };
    let flags = least_table(alloc, &rules)?;
    Ok(flags)
}

/// Whether the symbol derives some list of kinds.
pub(crate) fn derives_some(symbol: Sym, normal: &Normal, flags: &[bool]) -> bool
    requires { AreProductive normal.now flags.now }
    ensures { IsTrue result ↔ DerivesSome normal.now symbol }
{
    symbol_passes(symbol, normal, flags)
}

/// Whether the symbols, one after another, derive some list of kinds.
pub(crate) fn all_derive_some(symbols: &[Sym], normal: &Normal, flags: &[bool]) -> bool
    requires { AreProductive normal.now flags.now }
    ensures { IsTrue result ↔ DerivesSomeSeq normal.now symbols.now }
{
    all_pass(symbols, normal, flags)
}
