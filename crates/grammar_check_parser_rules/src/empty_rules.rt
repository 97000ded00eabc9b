//! Which parser rules can be empty.

ghost use Rattle.std.specs.Prelude.{◌≡◌, ◌<◌, ◌^◌, List, IfOk, length, map};
ghost use Rattle.grammar_tree.specs.Derives.{bodies};
ghost use Rattle.grammar_tree.specs.View.{parser_alts};
ghost use Rattle.grammar_check_parser_rules.specs.Empty.{AreBodies, AreEmptyRules};

use crate::empty::alts_can_be_empty;
use faults::Memory;
use grammar_check_nodes::{Condition, Test, least_table};
use grammar_names::Names;
use grammar_tree::{ParserAlts, ParserTerm, ParserTerms};
use std::alloc::Global;

/// Where the term can be empty. A token never is.
fn condition<'t>(term: &'t ParserTerm, names: &Names) -> Condition<'t, ParserTerms> {
    match term {
        ParserTerm::Literal(_) | ParserTerm::Any | ParserTerm::Not(_) => Condition::Never,
        ParserTerm::Opt(_) | ParserTerm::Star(_) | ParserTerm::Eof => Condition::Always,
        ParserTerm::Name(name) => Condition::of_node(names.rule_number(name)),
        ParserTerm::Plus(term) => return condition(term, names),
        ParserTerm::Block(alts) => return Condition::Block(&alts.items),
    }
}

/// The alternatives of parser rules, in the order of their numbers.
#[derive(Clone, Copy)]
struct Bodies<'a, 'n> {
    rules: &'a [&'a ParserAlts],
    names: &'a Names<'n>,
}

impl<'a, 'n> Test for Bodies<'a, 'n> {
    ghost use Rattle.std.specs.Prelude.{length, map};
    ghost use Rattle.grammar_tree.specs.View.{parser_alts};
    ghost use Rattle.grammar_check_parser_rules.specs.inner.Empty.{body_is_empty};

    type Alternative = ParserTerms;

    type Term = ParserTerm;

    ghost nodes = { λ it. length it.rules.now };

    ghost test = { λ it flags number. body_is_empty it.names.now (map (λ a. parser_alts a.now) it.rules.now) flags number };

    fn count(&self) -> usize {
        self.rules.len()
    }

    fn passes(&self, flags: &[bool], node: usize) -> bool {
        alts_can_be_empty(self.rules[node], self.names, flags)
    }

    fn alternatives(&self, node: usize) -> &[ParserTerms] {
        let alts = self.rules[node];
        &alts.items
    }

    fn terms(alternative: &ParserTerms) -> &[ParserTerm] {
        &alternative.items
    }

    fn condition<'t>(&self, term: &'t ParserTerm) -> Condition<'t, ParserTerms> {
        condition(term, self.names)
    }
}

/// Which parser rules can be empty, by their numbers. It takes time near linear in the rules' size.
pub fn empty_bodies(
    alloc: Global,
    rules: &[&ParserAlts],
    names: &Names,
) -> Result<Vec<bool>, Memory>
    requires small { length rules.now < 2 ^ 32 }
    requires bodies { AreBodies names.now (map (λ a. parser_alts a.now) rules.now) }
    ensures { IfOk result (λ flags. AreEmptyRules (bodies names.now) flags.items) }
{
    let bodies = Bodies { rules, names };
    let flags = least_table(alloc, &bodies)?;
    Ok(flags)
}
