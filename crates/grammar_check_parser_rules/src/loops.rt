//! Stars and pluses of parser rules over what can be empty.

ghost use Rattle.std.specs.Prelude.{◌≡◌};
ghost use Rattle.grammar_tree.specs.Derives.{resolved, resolved_alts, resolved_seq};
ghost use Rattle.grammar_tree.specs.View.{parser_alts, parser_term, parser_terms};
ghost use Rattle.grammar_tree.specs.Written.{written_alts, written_seq};
ghost use Rattle.grammar_check_nodes.specs.Flags.{flag};
ghost use Rattle.grammar_check_parser_rules.specs.Loops.{alts_has_loop, has_loop, seq_has_loop};

use crate::empty::term_can_be_empty;
use grammar_names::Names;
use grammar_tree::{ParserAlts, ParserTerm, ParserTerms};

/// Whether a star or plus over a term that can be empty is in the term, where the table says
/// which rules can be.
#[cycle(loops)]
fn term_has_empty_loop(term: &ParserTerm, names: &Names, flags: &[bool]) -> bool
    ensures { result ≡ has_loop (flag flags.now) (resolved names.now (parser_term term.now)) }
{
    match term {
        ParserTerm::Literal(_)
        | ParserTerm::Name(_)
        | ParserTerm::Any
        | ParserTerm::Not(_)
        | ParserTerm::Eof => false,
        ParserTerm::Block(alts) => alts_have_empty_loop(alts, names, flags),
        ParserTerm::Opt(term) => term_has_empty_loop(term, names, flags),
        ParserTerm::Star(term) | ParserTerm::Plus(term) => {
            term_can_be_empty(term, names, flags) || term_has_empty_loop(term, names, flags)
        }
    }
}

#[cycle(loops)]
fn seq_has_empty_loop(terms: &ParserTerms, names: &Names, flags: &[bool]) -> bool
    ensures { result ≡ seq_has_loop (flag flags.now) (resolved_seq names.now (written_seq (parser_terms terms.now))) }
{
    for i in 0..terms.items.len() {
        if term_has_empty_loop(&terms.items[i], names, flags) {
            return true;
        }
    }
    false
}

/// Whether a star or plus over what can be empty is in alternatives of a parser rule, where the
/// table says which rules can be.
#[cycle(loops)]
pub fn alts_have_empty_loop(alts: &ParserAlts, names: &Names, flags: &[bool]) -> bool
    ensures { result ≡ alts_has_loop (flag flags.now) (resolved_alts names.now (written_alts (parser_alts alts.now))) }
{
    for i in 0..alts.items.len() {
        if seq_has_empty_loop(&alts.items[i], names, flags) {
            return true;
        }
    }
    false
}
