//! Which terms of parser rules can be empty.

ghost use Rattle.std.specs.Prelude.{◌≡◌};
ghost use Rattle.grammar_tree.specs.Derives.{resolved, resolved_alts, resolved_seq};
ghost use Rattle.grammar_tree.specs.View.{parser_alts, parser_term, parser_terms};
ghost use Rattle.grammar_tree.specs.Written.{WrittenTerm, written_alts, written_seq};
ghost use Rattle.grammar_check_nodes.specs.Flags.{flag};
ghost use Rattle.grammar_check_parser_rules.specs.Empty.{alts_is_empty, is_empty, seq_is_empty};

use grammar_check_nodes::is_flagged;
use grammar_names::Names;
use grammar_tree::{ParserAlts, ParserTerm, ParserTerms, Text};

/// Whether a name is that of a parser rule that can be empty, where the table says which can be.
fn name_can_be_empty(name: &Text, names: &Names, flags: &[bool]) -> bool
    ensures { result ≡ is_empty (flag flags.now) (resolved names.now (WrittenTerm.name name.now)) }
{
    match names.rule_number(name) {
        Some(number) => is_flagged(flags, number),
        None => false,
    }
}

/// Whether a term can be empty, where the table says which rules can be.
#[cycle(empty)]
pub(crate) fn term_can_be_empty(term: &ParserTerm, names: &Names, flags: &[bool]) -> bool
    ensures { result ≡ is_empty (flag flags.now) (resolved names.now (parser_term term.now)) }
{
    match term {
        ParserTerm::Literal(_) | ParserTerm::Any | ParserTerm::Not(_) => false,
        ParserTerm::Name(name) => name_can_be_empty(name, names, flags),
        ParserTerm::Block(alts) => alts_can_be_empty(alts, names, flags),
        ParserTerm::Opt(_) | ParserTerm::Star(_) | ParserTerm::Eof => true,
        ParserTerm::Plus(term) => term_can_be_empty(term, names, flags),
    }
}

#[cycle(empty)]
pub(crate) fn seq_can_be_empty(terms: &ParserTerms, names: &Names, flags: &[bool]) -> bool
    ensures { result ≡ seq_is_empty (flag flags.now) (resolved_seq names.now (written_seq (parser_terms terms.now))) }
{
    for i in 0..terms.items.len() {
        if !term_can_be_empty(&terms.items[i], names, flags) {
            return false;
        }
    }
    true
}

#[cycle(empty)]
pub(crate) fn alts_can_be_empty(alts: &ParserAlts, names: &Names, flags: &[bool]) -> bool
    ensures { result ≡ alts_is_empty (flag flags.now) (resolved_alts names.now (written_alts (parser_alts alts.now))) }
{
    for i in 0..alts.items.len() {
        if seq_can_be_empty(&alts.items[i], names, flags) {
            return true;
        }
    }
    false
}
