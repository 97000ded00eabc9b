//! Reading a lexer text and a parser text.

ghost use Rattle.std.specs.Prelude.{◌≡◌, ◌≤◌, IfErr, IfOk, MatchResult, length};
ghost use Rattle.faults.specs.Memory.{ran_out};
ghost use Rattle.grammar_tree.specs.GrammarView.{grammar_of};
ghost use Rattle.grammar_tree.specs.Size.{grammar_size};
ghost use Rattle.grammar_tree.specs.Written.{WrittenGrammar};
ghost use Rattle.grammar_pair.specs.Bodies.{entries_of, vocabularies};
ghost use Rattle.grammar_pair.specs.Joined.{IsLexerFault, IsLexerText, IsParserFault, IsParserText};
ghost use Rattle.grammar_pair.specs.inner.Read.{IsLexerBody, IsParserBody};
ghost use Rattle.grammar_pair.specs.declared.fault.PairFault.TheVariants.{Memory as OutOfMemory};

use crate::body::{blank_entries, blank_first};
use crate::fault::PairFault;
use grammar_reader::read_grammar;
use grammar_reader_notation::ReadFault;
use grammar_tree::{Grammar, Memory, Text};
use std::alloc::Global;

/// What is read of a lexer text, and whether its first word is `lexer`.
fn lexer_body(alloc: Global, bytes: &[u8]) -> Result<(Vec<u8>, bool), Memory>
    ensures { IfOk result (λ body. IsLexerBody bytes.now body.0.items body.1) }
{
    let mut body = Vec::from_slice(alloc, bytes)?;
    match std::str::from_utf8(bytes) {
        Ok(text) => {
            let found = blank_first(&mut body, text, "lexer");
            Ok((body, found))
        }
        Err(_) => Ok((body, false)),
    }
}

/// What is read of a parser text, whether its first word is `parser`, and the vocabularies that it names.
fn parser_body(alloc: Global, bytes: &[u8]) -> Result<(Vec<u8>, bool, Vec<Text>), Memory>
    ensures { IfOk result (λ body. IsParserBody bytes.now body.0.items body.1 body.2.items) }
{
    let mut body = Vec::from_slice(alloc, bytes)?;
    match std::str::from_utf8(bytes) {
        Ok(text) => {
            let found = blank_first(&mut body, text, "parser");
            let names = blank_entries(alloc, &mut body, text)?;
            Ok((body, found, names))
        }
        Err(_) => Ok((body, false, Vec::new(alloc))),
    }
}

/// The grammar of a lexer text.
pub fn read_lexer(alloc: Global, bytes: &[u8]) -> Result<Grammar, PairFault>
    ensures ok { IfOk result (λ g. IsLexerText bytes.now (grammar_of g)) }
    ensures few { IfOk result (λ g. grammar_size (grammar_of g) ≤ length bytes.now) }
    ensures only { (L : WrittenGrammar) → IsLexerText bytes.now L → MatchResult result (λ g. grammar_of g ≡ L) (λ fault. fault ≡ OutOfMemory ran_out) }
    ensures fault { IfErr result (λ fault. IsLexerFault bytes.now fault) }
{
    let (body, is_lexer) = lexer_body(alloc, bytes)?;
    match read_grammar(alloc, &body) {
        Ok(grammar) if is_lexer => Ok(grammar),
        Ok(_) => Err(PairFault::NotLexer),
        Err(ReadFault::Memory(memory)) => Err(PairFault::Memory(memory)),
        Err(fault) => Err(PairFault::LexerText(fault)),
    }
}

/// The grammar of a parser text, and the vocabularies that it names.
pub fn read_parser(alloc: Global, bytes: &[u8]) -> Result<(Grammar, Vec<Text>), PairFault>
    ensures ok { IfOk result (λ p. IsParserText bytes.now (grammar_of p.0)) }
    ensures names { IfOk result (λ p. p.1.items ≡ vocabularies (entries_of bytes.now)) }
    ensures few { IfOk result (λ p. grammar_size (grammar_of p.0) ≤ length bytes.now) }
    ensures only { (P : WrittenGrammar) → IsParserText bytes.now P → MatchResult result (λ p. grammar_of p.0 ≡ P) (λ fault. fault ≡ OutOfMemory ran_out) }
    ensures fault { IfErr result (λ fault. IsParserFault bytes.now fault) }
{
    let (body, is_parser, names) = parser_body(alloc, bytes)?;
    match read_grammar(alloc, &body) {
        Ok(grammar) if is_parser => Ok((grammar, names)),
        Ok(_) => Err(PairFault::NotParser),
        Err(ReadFault::Memory(memory)) => Err(PairFault::Memory(memory)),
        Err(fault) => Err(PairFault::ParserText(fault)),
    }
}
