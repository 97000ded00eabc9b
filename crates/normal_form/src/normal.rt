//! Normal forms.

ghost use Rattle.std.specs.Prelude.{◌≡◌, IfOk, map};
ghost use Rattle.normal_form.specs.NormalOf.{IsNormal};
ghost use Rattle.normal_form.specs.View.{alts_form, normal_form, rule_form};

use faults::Memory;
use grammar_tree::Text;
use normal_form_sets::KindSets;
use std::alloc::Global;
use std::marker::Model;

/// A symbol, by its number among the kinds of tokens, the sets or the rules, each counted from 0.
#[derive(Clone, Copy, Debug, PartialEq, Eq)]
pub enum Sym {
    /// One token of this kind.
    Kind(u32),

    /// One token of a kind in this set.
    Set(u32),

    /// What this rule derives.
    Rule(u32),
}

/// A rule of a normal form.
#[derive(Drop)]
pub enum NormalRule {
    /// One of the alternatives, each of them symbols one after another.
    Regular(Vec<Vec<Sym>>),

    /// The symbol any number of times.
    Star(Sym),

    /// The symbol at least once.
    Plus(Sym),

    /// The symbol at most once.
    Opt(Sym),
}

/// A normal form of a grammar: its rules with their names, its sets of kinds, and its start rule.
#[derive(Drop)]
pub struct Normal {
    rules: Vec<NormalRule>,
    names: Vec<Text>,
    sets: KindSets,
    start: u32,
}

impl Model for Normal {
    ghost use Rattle.normal_form.specs.Form.{NormalForm};
    ghost use Rattle.normal_form.specs.inner.Code.{normal_coded};

    ghost Value = { NormalForm };

    ghost coded = { normal_coded };

    ghost use Rattle.std.specs.Prelude.{map};
    ghost use Rattle.normal_form.specs.NormalOf.{IsNormal};
    ghost use Rattle.normal_form.specs.View.{rule_form};

    ghost view = { λ n. record { rules = map rule_form n.rules.items; names = n.names.items; sets = n.sets.sets; start = n.start } };

    ghost invariant = { λ n. IsNormal (record { rules = map rule_form n.rules.items; names = n.names.items; sets = n.sets.sets; start = n.start }) };
}

impl Normal {
    /// A normal form with these parts, in the order of their numbers.
    pub fn new(rules: Vec<NormalRule>, names: Vec<Text>, sets: KindSets, start: u32) -> Normal
        requires { IsNormal (normal_form rules.items names.items sets.sets start) }
        ensures { result ≡ normal_form rules.items names.items sets.sets start }
    {
        Normal {
            rules,
            names,
            sets,
            start,
        }
    }

    /// The rules, each at its number.
    pub fn rules(&self) -> &[NormalRule]
        ensures { map rule_form result.now ≡ self.now.rules }
    {
        self.rules.as_slice()
    }

    /// The names of the rules: that of a parser rule, and after it `#` and a number from 1 where
    /// the rule is a new one.
    pub fn names(&self) -> &[Text]
        ensures { result.now ≡ self.now.names }
    {
        self.names.as_slice()
    }

    /// The sets of kinds, by their numbers.
    pub fn sets(&self) -> &KindSets
        ensures { result.now.sets ≡ self.now.sets }
    {
        &self.sets
    }

    /// The number of the start rule.
    pub fn start(&self) -> u32
        ensures { result ≡ self.now.start }
    {
        self.start
    }

    /// The form is that of a checked grammar.
    pub fn is_normal(&self)
        ensures { IsNormal self.now }
    {
        let _ = &self.start;
    }

    /// An equal form.
    pub fn copy(&self, alloc: Global) -> Result<Normal, Memory>
        ensures { IfOk result (λ n. n ≡ self.now) }
    {
        Ok(Normal {
            rules: copy_rules(alloc, &self.rules)?,
            names: copy_names(alloc, &self.names)?,
            sets: self.sets.copy(alloc)?,
            start: self.start,
        })
    }
}

impl NormalRule {
    /// An equal rule.
    pub fn copy(&self, alloc: Global) -> Result<NormalRule, Memory>
        ensures { IfOk result (λ r. rule_form r ≡ rule_form self.now) }
    {
        match self {
            NormalRule::Regular(alts) => Ok(NormalRule::Regular(copy_alts(alloc, alts)?)),
            NormalRule::Star(symbol) => Ok(NormalRule::Star(*symbol)),
            NormalRule::Plus(symbol) => Ok(NormalRule::Plus(*symbol)),
            NormalRule::Opt(symbol) => Ok(NormalRule::Opt(*symbol)),
        }
    }
}

fn copy_alts(alloc: Global, alts: &[Vec<Sym>]) -> Result<Vec<Vec<Sym>>, Memory>
    ensures { IfOk result (λ copies. alts_form copies.items ≡ alts_form alts.now) }
{
    let mut copies = Vec::new(alloc);
    for alt in alts {
        copies.push(Vec::from_slice(alloc, alt)?)?;
    }
    Ok(copies)
}

fn copy_rules(alloc: Global, rules: &[NormalRule]) -> Result<Vec<NormalRule>, Memory>
    ensures { IfOk result (λ copies. map rule_form copies.items ≡ map rule_form rules.now) }
{
    let mut copies = Vec::new(alloc);
    for rule in rules {
        copies.push(rule.copy(alloc)?)?;
    }
    Ok(copies)
}

fn copy_names(alloc: Global, names: &[Text]) -> Result<Vec<Text>, Memory>
    ensures { IfOk result (λ copies. copies.items ≡ names.now) }
{
    let mut copies = Vec::new(alloc);
    for name in names {
        copies.push(name.copy()?)?;
    }
    Ok(copies)
}
