//! Direct left recursion.

ghost use Rattle.std.specs.Prelude.{◌≡◌, is_some};
ghost use Rattle.grammar_tree.specs.Corners.{bases, rest_of, rests};
ghost use Rattle.grammar_tree.specs.Derives.{resolved, resolved_alts, resolved_seq};
ghost use Rattle.grammar_tree.specs.View.{parser_alts, parser_term, parser_terms};
ghost use Rattle.grammar_tree.specs.Written.{written_alts, written_seq};
ghost use Rattle.grammar_check_recursion.specs.Recursion.{has_alternative};
ghost use Rattle.grammar_check_recursion.specs.inner.Recursion.{is_rule};

use grammar_names::Names;
use grammar_tree::{ParserAlts, ParserTerm, ParserTerms};

/// Whether the term is the parser rule with this number, without suffix.
fn is_this_rule(term: &ParserTerm, names: &Names<'_>, number: u32) -> bool
    ensures { result ≡ is_rule number (resolved names.now (parser_term term.now)) }
{
    match term {
        ParserTerm::Name(name) => names.rule_number(name) == Some(number),
        ParserTerm::Literal(_)
        | ParserTerm::Any
        | ParserTerm::Not(_)
        | ParserTerm::Block(_)
        | ParserTerm::Opt(_)
        | ParserTerm::Star(_)
        | ParserTerm::Plus(_)
        | ParserTerm::Eof => false,
    }
}

/// Whether an alternative of the rule with this number is directly recursive: its first part is the
/// rule alone, without suffix.
pub fn is_recursive(terms: &ParserTerms, names: &Names<'_>, number: u32) -> bool
    ensures { result ≡ is_some (rest_of number (resolved_seq names.now (written_seq (parser_terms terms.now)))) }
{
    match terms.items.first() {
        Some(term) => is_this_rule(term, names, number),
        None => false,
    }
}

/// Whether some alternative of the rule with this number isn't directly recursive.
pub fn has_base(alts: &ParserAlts, names: &Names<'_>, number: u32) -> bool
    ensures { result ≡ has_alternative (bases number (resolved_alts names.now (written_alts (parser_alts alts.now)))) }
{
    for terms in alts.items.iter() {
        if !is_recursive(terms, names, number) {
            return true;
        }
    }
    false
}

/// Whether some alternative of the rule with this number is directly recursive.
pub fn has_rest(alts: &ParserAlts, names: &Names<'_>, number: u32) -> bool
    ensures { result ≡ has_alternative (rests number (resolved_alts names.now (written_alts (parser_alts alts.now)))) }
{
    for terms in alts.items.iter() {
        if is_recursive(terms, names, number) {
            return true;
        }
    }
    false
}
