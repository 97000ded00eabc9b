//! Grammars that were checked.

ghost use Rattle.std.specs.Prelude.{◌≡◌, ◌^◌, ◌<◌, IfOk, map};
ghost use Rattle.grammar_tree.specs.Checked.{IsChecked};
ghost use Rattle.grammar_tree.specs.Faults.{IsWellFormed};
ghost use Rattle.grammar_tree.specs.GrammarView.{grammar_of, kind_of};
ghost use Rattle.grammar_tree.specs.Kinds.{kinds_of};
ghost use Rattle.grammar_tree.specs.Size.{grammar_size};

use crate::rule::{Grammar, Kind};
use faults::Memory;
use std::alloc::Global;
use std::marker::Model;

/// A well-formed grammar with its numbered kinds of tokens and its start rule.
#[derive(Drop)]
pub struct Checked {
    grammar: Grammar,
    kinds: Vec<Kind>,
    start: u32,
}

impl Model for Checked {
    ghost use Rattle.grammar_tree.specs.Written.{CheckedGrammar};
    ghost use Rattle.grammar_tree.specs.inner.Code.{checked_coded};

    ghost Value = { CheckedGrammar };

    ghost coded = { checked_coded };

    ghost use Rattle.std.specs.Prelude.{map};
    ghost use Rattle.grammar_tree.specs.Checked.{IsChecked};
    ghost use Rattle.grammar_tree.specs.GrammarView.{grammar_of, kind_of};

    ghost view = { λ c. record { grammar = grammar_of c.grammar; kinds = map kind_of c.kinds.items; start = c.start } };

    ghost invariant = { λ c. IsChecked (record { grammar = grammar_of c.grammar; kinds = map kind_of c.kinds.items; start = c.start }) };
}

impl Checked {
    /// A grammar that was checked, with its kinds in the order of their numbers, and the place of
    /// its start rule among all its rules, from 0.
    pub fn new(grammar: Grammar, kinds: Vec<Kind>, start: u32) -> Checked
        requires well_formed { IsWellFormed (grammar_of grammar) start }
        requires numbered { map kind_of kinds.items ≡ kinds_of (grammar_of grammar) }
        requires small { grammar_size (grammar_of grammar) < 2 ^ 32 }
        ensures grammar { result.grammar ≡ grammar_of grammar }
        ensures kinds { result.kinds ≡ map kind_of kinds.items }
        ensures start { result.start ≡ start }
    {
        Checked {
            grammar,
            kinds,
            start,
        }
    }

    pub fn grammar(&self) -> &Grammar
        ensures { grammar_of result.now ≡ self.now.grammar }
    {
        &self.grammar
    }

    /// The kinds, each at its number.
    pub fn kinds(&self) -> &[Kind]
        ensures { map kind_of result.now ≡ self.now.kinds }
    {
        self.kinds.as_slice()
    }

    /// The place of the start rule among all rules, from 0.
    pub fn start(&self) -> u32
        ensures { result ≡ self.now.start }
    {
        self.start
    }

    /// The grammar is well-formed, its kinds are numbered, and it isn't too large: a caller calls
    /// this so that its proof knows.
    pub fn is_checked(&self)
        ensures { IsChecked self.now }
    {
        let _ = &self.start;
    }

    /// An equal grammar, with equal kinds and the same start.
    pub fn copy(&self, alloc: Global) -> Result<Checked, Memory>
        ensures { IfOk result (λ c. c ≡ self.now) }
    {
        let grammar = self.grammar.copy(alloc)?;
        let kinds = copy_kinds(alloc, &self.kinds)?;
        Ok(Checked {
            grammar,
            kinds,
            start: self.start,
        })
    }
}

fn copy_kinds(alloc: Global, kinds: &[Kind]) -> Result<Vec<Kind>, Memory>
    ensures { IfOk result (λ copies. map kind_of copies.items ≡ map kind_of kinds.now) }
{
    let mut copies = Vec::new(alloc);
    for kind in kinds {
        copies.push(kind.copy()?)?;
    }
    Ok(copies)
}
