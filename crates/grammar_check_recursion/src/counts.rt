//! How many rules of the normal form a parser rule makes.

ghost use Rattle.std.specs.Prelude.{◌≡◌, ◌<◌, ◌^◌};
ghost use Rattle.grammar_tree.specs.Corners.{alts_new_rules, group_size, new_rules, seq_new_rules};
ghost use Rattle.grammar_tree.specs.Derives.{resolved, resolved_alts, resolved_seq};
ghost use Rattle.grammar_tree.specs.View.{parser_alts, parser_term, parser_terms};
ghost use Rattle.grammar_tree.specs.Written.{written_alts, written_seq};

use crate::recursion::has_rest;
use grammar_names::Names;
use grammar_tree::{ParserAlts, ParserTerm, ParserTerms};

#[cycle(count)]
fn count_term(term: &ParserTerm, names: &Names<'_>) -> u64
    requires { new_rules (resolved names.now (parser_term term.now)) < 2 ^ 64 }
    ensures { result ≡ new_rules (resolved names.now (parser_term term.now)) }
{
    match term {
        ParserTerm::Literal(_) => 0,
        ParserTerm::Name(_) => 0,
        ParserTerm::Any | ParserTerm::Not(_) | ParserTerm::Eof => 0,
        ParserTerm::Block(alts) => count_alts(alts, names) + 1,
        ParserTerm::Opt(term) => count_term(term, names) + 1,
        ParserTerm::Star(term) => count_term(term, names) + 1,
        ParserTerm::Plus(term) => count_term(term, names) + 1,
    }
}

#[cycle(count)]
fn count_terms(terms: &ParserTerms, names: &Names<'_>) -> u64
    requires { seq_new_rules (resolved_seq names.now (written_seq (parser_terms terms.now))) < 2 ^ 64 }
    ensures { result ≡ seq_new_rules (resolved_seq names.now (written_seq (parser_terms terms.now))) }
{
    let mut count = 0;
    for term in terms.items.iter() {
        count += count_term(term, names);
    }
    count
}

/// How many new rules the alternatives make: one for each block and suffix, at every depth.
#[cycle(count)]
fn count_alts(alts: &ParserAlts, names: &Names<'_>) -> u64
    requires { alts_new_rules (resolved_alts names.now (written_alts (parser_alts alts.now))) < 2 ^ 64 }
    ensures { result ≡ alts_new_rules (resolved_alts names.now (written_alts (parser_alts alts.now))) }
{
    let mut count = 0;
    for alt in alts.items.iter() {
        count += count_terms(alt, names);
    }
    count
}

/// How many rules of the normal form the parser rule with this number makes: its own, three more
/// where an alternative is directly recursive, and one for each block and suffix. It takes time
/// linear in the alternatives.
pub fn group_size(alts: &ParserAlts, names: &Names<'_>, number: u32) -> u64
    requires { group_size number (resolved_alts names.now (written_alts (parser_alts alts.now))) < 2 ^ 64 }
    ensures { result ≡ group_size number (resolved_alts names.now (written_alts (parser_alts alts.now))) }
{
    if has_rest(alts, names, number) {
        4 + count_alts(alts, names)
    } else {
        1 + count_alts(alts, names)
    }
}
