//! Which rules of a normal form derive the empty list.

ghost use Rattle.std.specs.Prelude.{◌≡◌, IfOk};
ghost use Rattle.std.specs.List.{list_all, list_any};
ghost use Rattle.grammar_check_nodes.specs.Flags.{flag};
ghost use Rattle.normal_form.specs.View.{alts_form, rule_form};
ghost use Rattle.compat_table.specs.Nullable.{AreNullable, form_is_nullable, is_nullable as nullable};

use faults::Memory;
use grammar_check_nodes::{Condition, Test, is_flagged, least_table};
use normal_form::{Normal, NormalRule, Sym};
use std::alloc::Global;

/// Whether the symbol derives the empty list, as far as the table of rules says.
pub(crate) fn is_nullable(symbol: Sym, flags: &[bool]) -> bool
    ensures { result ≡ nullable (flag flags.now) symbol }
{
    match symbol {
        Sym::Kind(_) | Sym::Set(_) => false,
        Sym::Rule(rule) => is_flagged(flags, rule),
    }
}

/// Whether each of the symbols does.
fn all_nullable(symbols: &[Sym], flags: &[bool]) -> bool
    ensures { result ≡ list_all (nullable (flag flags.now)) symbols.now }
{
    for symbol in symbols {
        if !is_nullable(*symbol, flags) {
            return false;
        }
    }
    true
}

/// Whether all symbols of one of the alternatives do.
fn one_nullable(alternatives: &[Vec<Sym>], flags: &[bool]) -> bool
    ensures { result ≡ list_any (list_all (nullable (flag flags.now))) (alts_form alternatives.now) }
{
    for symbols in alternatives {
        if all_nullable(symbols, flags) {
            return true;
        }
    }
    false
}

/// Whether the rule does.
fn rule_is_nullable(rule: &NormalRule, flags: &[bool]) -> bool
    ensures { result ≡ form_is_nullable (flag flags.now) (rule_form rule.now) }
{
    match rule {
        NormalRule::Regular(alternatives) => one_nullable(alternatives, flags),
        NormalRule::Star(_) | NormalRule::Opt(_) => true,
        NormalRule::Plus(symbol) => is_nullable(*symbol, flags),
    }
}

/// The rules of a normal form, to be tested.
#[derive(Drop)]
struct Rules<'a> {
    normal: &'a Normal,

    /// For each rule the symbols that it needs, where it has no alternatives; for a star or optional
    /// none.
    needed: Vec<Vec<Sym>>,
}

impl<'a> Test for Rules<'a> {
    ghost use Rattle.std.specs.Prelude.{length};
    ghost use Rattle.grammar_check_nodes.specs.Flags.{flag};
    ghost use Rattle.compat_table.specs.Nullable.{numbered_is_nullable};

    type Alternative = Vec<Sym>;

    type Term = Sym;

    ghost nodes = { λ it. length it.normal.now.rules };

    ghost test = { λ it flags rule. numbered_is_nullable it.normal.now (flag flags) rule };

    fn count(&self) -> usize {
        self.normal.rules().len()
    }

    fn passes(&self, flags: &[bool], node: usize) -> bool {
        let rules = self.normal.rules();
        rule_is_nullable(&rules[node], flags)
    }

    fn alternatives(&self, node: usize) -> &[Vec<Sym>] {
        let rules = self.normal.rules();
        if let NormalRule::Regular(alternatives) = &rules[node] {
            return alternatives;
        }
        if node < self.needed.len() {
            return &self.needed[node..node + 1];
        }
        &[]
    }

    fn terms(alternative: &Vec<Sym>) -> &[Sym] {
        alternative.as_slice()
    }

    fn condition<'t>(&self, term: &'t Sym) -> Condition<'t, Vec<Sym>> {
        match *term {
            Sym::Kind(_) | Sym::Set(_) => Condition::Never,
            Sym::Rule(rule) => Condition::Node(rule),
        }
    }
}

/// For each rule the symbols that it needs, where it has no alternatives.
fn needed_symbols(alloc: Global, normal: &Normal) -> Result<Vec<Vec<Sym>>, Memory> {
    let mut needed = Vec::new(alloc);
    for rule in normal.rules() {
        let mut symbols = Vec::new(alloc);
        if let NormalRule::Plus(symbol) = rule {
            symbols.push(*symbol)?;
        }
        needed.push(symbols)?;
    }
    Ok(needed)
}

/// Which rules derive the empty list, by their numbers. It takes time linear in the form.
pub(crate) fn nullable_rules(alloc: Global, normal: &Normal) -> Result<Vec<bool>, Memory>
    ensures { IfOk result (λ flags. AreNullable normal.now (flag flags.items)) }
{
    let rules = Rules {
        normal,
        needed: needed_symbols(alloc, normal)?,
    };
    let flags = least_table(alloc, &rules)?;
    Ok(flags)
}
