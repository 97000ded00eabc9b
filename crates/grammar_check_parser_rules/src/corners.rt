//! Left corners: the rules that can be first in a parser rule.

ghost use Rattle.std.specs.Prelude.{◌≡◌, ◌++◌, ℕ, Bool, List, OnOk, drop};
ghost use Rattle.grammar_tree.specs.Derives.{resolved, resolved_alts, resolved_seq};
ghost use Rattle.grammar_tree.specs.View.{parser_alts, parser_term, parser_terms};
ghost use Rattle.grammar_tree.specs.Written.{WrittenTerm, written_alts, written_seq};
ghost use Rattle.grammar_check_parser_rules.specs.Corners.{alts_corners, corners, seq_corners};
ghost use Rattle.grammar_check_nodes.specs.Flags.{flag};

use crate::empty::term_can_be_empty;
use faults::Memory;
use grammar_names::Names;
use grammar_tree::{ParserAlts, ParserTerm, ParserTerms, Text};

/// Adds the rule that a name means, where it means one.
fn add_rule(name: &Text, names: &Names, found: &mut Vec<u32>) -> Result<(), Memory>
    ensures { (e : ℕ → Bool) → OnOk result (found.new.items ≡ found.old.items ++ corners e (resolved names.now (WrittenTerm.name name.now))) }
{
    if let Some(number) = names.rule_number(name) {
        found.push(number)?;
    }
    Ok(())
}

/// Adds the rules that can be first in a term, where the table says which rules can be empty.
#[cycle(corners)]
fn add_term_corners(
    term: &ParserTerm,
    names: &Names,
    flags: &[bool],
    found: &mut Vec<u32>,
) -> Result<(), Memory>
    ensures { OnOk result (found.new.items ≡ found.old.items ++ corners (flag flags.now) (resolved names.now (parser_term term.now))) }
{
    match term {
        ParserTerm::Literal(_) | ParserTerm::Any | ParserTerm::Not(_) | ParserTerm::Eof => Ok(()),
        ParserTerm::Name(name) => add_rule(name, names, found),
        ParserTerm::Block(alts) => add_alts_corners(alts, names, flags, found),
        ParserTerm::Opt(term) | ParserTerm::Star(term) | ParserTerm::Plus(term) => {
            add_term_corners(term, names, flags, found)
        }
    }
}

/// Adds those of the terms from an index on.
#[cycle(corners)]
pub(crate) fn add_seq_corners(
    terms: &ParserTerms,
    from: usize,
    names: &Names,
    flags: &[bool],
    found: &mut Vec<u32>,
) -> Result<(), Memory>
    ensures { OnOk result (found.new.items ≡ found.old.items ++ seq_corners (flag flags.now)
        (resolved_seq names.now (written_seq (drop from (parser_terms terms.now))))) }
{
    for i in from..terms.items.len() {
        let term = &terms.items[i];
        add_term_corners(term, names, flags, found)?;
        if !term_can_be_empty(term, names, flags) {
            return Ok(());
        }
    }
    Ok(())
}

#[cycle(corners)]
fn add_alts_corners(
    alts: &ParserAlts,
    names: &Names,
    flags: &[bool],
    found: &mut Vec<u32>,
) -> Result<(), Memory>
    ensures { OnOk result (found.new.items ≡ found.old.items ++ alts_corners (flag flags.now) (resolved_alts names.now (written_alts (parser_alts alts.now)))) }
{
    for i in 0..alts.items.len() {
        add_seq_corners(&alts.items[i], 0, names, flags, found)?;
    }
    Ok(())
}
