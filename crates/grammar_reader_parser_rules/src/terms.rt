//! Terms, references and names that one word of a parser rule makes.
#![tactic(auto, using(crate::proofs::TermViews::views))]

ghost use Rattle.std.specs.Prelude.{◌≡◌, ◌++◌, ◌∷◌, [], Some, None, IfOk, cond};
ghost use Rattle.grammar_tree.specs.View.{parser_term, token_ref};
ghost use Rattle.grammar_tree.specs.Written.{Reference};
ghost use Rattle.grammar_reader_machine.specs.Machine as m;
ghost use Rattle.grammar_reader_machine.specs.View.{parser_state, refs_of};
ghost use Rattle.grammar_reader_notation.specs.Notation.{is_eof, named};
ghost use Rattle.grammar_reader_parser_rules.specs.inner.Terms.{is_name, reference, reference_of, suffixed};

use faults::Memory;
use grammar_reader_machine::ParserPosition;
use grammar_reader_words::{Word, is};
use grammar_tree::{ParserTerm, Suffix, Text, TokenRef};
use std::alloc::Global;

/// The term with the suffix.
pub fn suffixed(alloc: Global, term: ParserTerm, suffix: Suffix) -> Result<ParserTerm, Memory>
    ensures { IfOk result (λ t. parser_term t ≡ suffixed suffix (parser_term term)) }
{
    match suffix {
        Suffix::Question => ParserTerm::opt(alloc, term),
        Suffix::Star => ParserTerm::star(alloc, term),
        Suffix::Plus => ParserTerm::plus(alloc, term),
    }
}

/// The term that a name in upper case is: `EOF` is the end of the input.
pub fn named(name: Text) -> ParserTerm
    ensures { parser_term result ≡ named name }
{
    if is(&name, "EOF") {
        ParserTerm::Eof
    } else {
        ParserTerm::Name(name)
    }
}

/// A label means nothing: an atom comes after it, whatever its name is.
pub fn past_label(_name: ParserTerm) -> ParserPosition
    ensures { (b : m.Body) → parser_state b result ≡ m.AtAtom b }
{
    ParserPosition::Atom
}

fn has_name(word: &Word) -> bool
    ensures { result ≡ is_name word.now }
{
    match word {
        Word::Upper(_) => true,
        Word::Lower(_) => true,
        _ => false,
    }
}

/// Whether the word is a name. It is let go here, since elsewhere each of its variants is a step of the
/// proof.
pub fn is_name(word: Word) -> bool
    ensures { result ≡ is_name word }
{
    let is_name = has_name(&word);
    drop(word);
    is_name
}

/// The end of the input is no token.
fn token(name: Text) -> Option<TokenRef>
    ensures { reference_of result ≡ cond (is_eof name) None (Some (Reference.name name)) }
{
    if is(&name, "EOF") {
        None
    } else {
        Some(TokenRef::Name(name))
    }
}

/// The reference that the word is, if it is one.
pub fn reference(word: Word) -> Option<TokenRef>
    ensures { reference_of result ≡ reference word }
{
    match word {
        Word::Literal(text) => Some(TokenRef::Literal(text)),
        Word::Upper(name) => token(name),
        _ => None,
    }
}

/// The references and one more.
pub fn more_refs(mut refs: Vec<TokenRef>, token: TokenRef) -> Result<Vec<TokenRef>, Memory>
    ensures { IfOk result (λ rs. refs_of rs ≡ refs_of refs ++ token_ref token ∷ []) }
{
    refs.push(token)?;
    Ok(refs)
}
