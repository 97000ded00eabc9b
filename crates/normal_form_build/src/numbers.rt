//! The numbers of the rules and sets of a normal form.

ghost use Rattle.std.specs.Prelude.{◌≡◌, IfOk};
ghost use Rattle.grammar_tree.specs.Derives.{bodies, resolved};
ghost use Rattle.grammar_tree.specs.Kinds.{any_kinds};
ghost use Rattle.grammar_tree.specs.View.{parser_term};
ghost use Rattle.grammar_names.specs.KindLists.{IsPartOf, lacking};
ghost use Rattle.normal_form.specs.Numbering.{symbol};
ghost use Rattle.normal_form.specs.NormalOf.{numbering, sets_of};
ghost use Rattle.normal_form_build.specs.Numbers.{AreNumbersOf};
ghost use Rattle.normal_form_build.specs.inner.Numbers.{named_symbol, token_symbol};

use faults::Memory;
use grammar_names::Names;
use grammar_tree::{ParserTerm, Text};
use normal_form::Sym;
use normal_form_sets::{FoundSets, KindSets};
use std::alloc::Global;
use std::marker::Model;

/// The numbers of the rules and sets of a grammar's normal form. Contracts see the grammar.
#[derive(Drop)]
pub(crate) struct Numbers<'a> {
    alloc: Global,
    names: Names<'a>,

    /// The number of each parser rule's own rule.
    own_rules: Vec<u32>,
    sets: FoundSets,
}

impl<'a> Model for Numbers<'a> {
    ghost use Rattle.grammar_tree.specs.Written.{WrittenGrammar};
    ghost use Rattle.grammar_tree.specs.inner.Code.{grammar_coded};

    ghost Value = { WrittenGrammar };

    ghost coded = { grammar_coded };

    ghost use Rattle.normal_form_build.specs.Numbers.{AreNumbersOf};

    ghost view = { λ n. n.names };

    ghost invariant = { λ n. AreNumbersOf n.names n.own_rules.items n.sets };
}

impl<'a> Numbers<'a> {
    /// The symbol of the term, whose first new rule has the number `next`. `EOF` is left out
    /// before.
    pub(crate) fn symbol(&self, term: &ParserTerm, next: u32) -> Result<Sym, Memory>
        ensures { IfOk result (λ s. s ≡ symbol (numbering (bodies self.now)) next (resolved self.now (parser_term term.now))) }
    {
        match term {
            ParserTerm::Literal(text) => Ok(self.token(self.names.literal_kind(text))),
            ParserTerm::Name(name) => Ok(self.named(name)),
            ParserTerm::Any => Ok(self.set(&[])),
            ParserTerm::Not(tokens) => {
                let missing = self.names.named_kinds(self.alloc, tokens)?;
                Ok(self.set(missing.as_slice()))
            }
            ParserTerm::Block(_) => Ok(Sym::Rule(next)),
            ParserTerm::Opt(_) => Ok(Sym::Rule(next)),
            ParserTerm::Star(_) => Ok(Sym::Rule(next)),
            ParserTerm::Plus(_) => Ok(Sym::Rule(next)),
            ParserTerm::Eof => Ok(Sym::Rule(next)),
        }
    }

    /// The numbers of the grammar with these names.
    pub(crate) fn new(
        alloc: Global,
        names: Names<'a>,
        own_rules: Vec<u32>,
        sets: FoundSets,
    ) -> Numbers<'a>
        requires { AreNumbersOf names own_rules.items sets }
        ensures { result ≡ names.entry }
    {
        Numbers {
            alloc,
            names,
            own_rules,
            sets,
        }
    }

    /// The allocator of the rules.
    pub(crate) fn alloc(&self) -> Global {
        self.alloc
    }

    /// The sets, each at its number.
    pub(crate) fn into_sets(self) -> KindSets
        ensures { result.sets ≡ sets_of (bodies self.entry) }
    {
        let Numbers {
            alloc: _,
            names: _,
            own_rules: _,
            sets,
        } = self;
        sets.into_sets()
    }

    /// The names of the grammar.
    pub(crate) fn names(&self) -> &Names<'a>
        ensures { result.now ≡ self.now }
    {
        &self.names
    }

    /// The symbol of what a name means: a parser rule, or else a token.
    fn named(&self, name: &Text) -> Sym
        ensures { result ≡ named_symbol self.now name.now }
    {
        match self.names.rule_number(name) {
            Some(rule) => Sym::Rule(self.own_rules[rule as usize]),
            None => self.token(self.names.name_kind(name)),
        }
    }

    /// The symbol of a token. What means no kind derives nothing, as the empty set does.
    fn token(&self, kind: Option<u32>) -> Sym
        ensures { result ≡ token_symbol self.now kind }
    {
        match kind {
            Some(kind) => Sym::Kind(kind),
            None => self.set(self.names.any_kinds()),
        }
    }

    /// The symbol of the set of all kinds but these, which has a number. It takes time logarithmic in
    /// the number of sets, and linear in how many kinds are missing.
    fn set(&self, missing: &[u32]) -> Sym
        requires { IsPartOf (any_kinds self.now) missing.now }
        ensures { result ≡ Sym.Set ((numbering (bodies self.now)).set_of (lacking (any_kinds self.now) missing.now)) }
    {
        match self.sets.number(missing) {
            Some(number) => Sym::Set(number as u32),
            None => Sym::Set(0),
        }
    }
}
