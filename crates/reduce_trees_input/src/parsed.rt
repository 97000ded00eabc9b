//! The input of a text, step by step.

ghost use Rattle.std.specs.Prelude.{◌≡◌, ◌≢◌, ◌<◌, ◌^◌, ⊤, Err, IfErr, IfOk, MatchResult, None, OnOk, Some, length};
ghost use Rattle.std.specs.Str.{chars, IsUtf8};
ghost use Rattle.faults.specs.Memory.{ran_out};
ghost use Rattle.grammar_tree.specs.Written.{CheckedGrammar};
ghost use Rattle.grammar_tree.specs.Checked.{StartDerives};
ghost use Rattle.lexer.specs.Tokens.{HasTokens};
ghost use Rattle.normal_form.specs.declared.normal.Sym.TheVariants.{Rule};
ghost use Rattle.normal_form.specs.NormalOf.{normal_of};
ghost use Rattle.syntax_tree.specs.Nodes.{IsWhole, whole};
ghost use Rattle.chart_parser.specs.Parse.{IsParse};
ghost use Rattle.reduce_trees_mode.specs.Candidates.{InLanguage};
ghost use Rattle.reduce_trees_input.specs.Parsed.{IsParsed, MakesInputOf, kinds_in, tokens_in};
ghost use Rattle.reduce_trees_input.specs.Faults.{IsInputFault};
ghost use Rattle.reduce_trees_input.specs.inner.Faults.{IsParseFault};
ghost use Rattle.reduce_trees_input.specs.declared.fault.InputFault.TheVariants.{Memory as OutOfMemory, NoParse};

use crate::fault::InputFault;
use crate::laws::input_fault_once;
use chart_parser::parse;
use faults::Memory;
use grammar_tree::Checked;
use lexer::{LexFault, Lexer, Tokens};
use normal_form::{Sym, equal_languages};
use normal_form_build::normalise;
use std::alloc::Global;
use syntax_tree::{Tree, preferred_trees_are_valid, valid_trees_are_derived};
use token_print::tokens_are_in_order;

/// What is found in a text in a grammar's language: the text itself, its tokens, the lexer of the
/// grammar, and the preferred tree of all tokens, for the start rule.
#[derive(Drop)]
pub struct ParsedInput {
    pub text: String,
    pub tokens: Tokens,
    pub lexer: Lexer,
    pub tree: Tree,
}

/// The text that the bytes are.
fn text_of_input(bytes: &[u8]) -> Result<&str, InputFault>
    ensures text { IfOk result (λ text. text.now ≡ bytes.entry.now) }
    ensures utf8 { OnOk result (IsUtf8 bytes.entry.now) }
    ensures fault { (grammar : CheckedGrammar) → IfErr result (IsInputFault grammar bytes.entry.now) }
    ensures memory { result ≢ Err (OutOfMemory ran_out) }
{
    match std::str::from_utf8(bytes) {
        Ok(text) => Ok(text),
        Err(fault) => Err(InputFault::NotUtf8 {
            offset: fault.valid_up_to() as u64,
        }),
    }
}

/// The tokens of the text.
fn tokens_of_input(lexer: &Lexer, text: &str) -> Result<Tokens, InputFault>
    requires utf8 { IsUtf8 text.now }
    requires short { length text.now < 2 ^ 32 }
    ensures tokens { IfOk result (λ tokens. HasTokens lexer.now.grammar (chars text.now) (tokens_in tokens)) }
    ensures few { IfOk result (λ tokens. length (tokens_in tokens) < 2 ^ 32) }
    ensures fault { IfErr result (IsInputFault lexer.now text.now) }
{
    tokens_are_in_order();
    match lexer.lex(text) {
        Ok(tokens) => Ok(tokens),
        Err(LexFault::NoToken { offset }) => Err(InputFault::NoToken { offset }),
        Err(LexFault::Memory(memory)) => Err(InputFault::Memory(memory)),
    }
}

/// The kinds of the tokens.
fn kinds_of(alloc: Global, tokens: &Tokens) -> Result<Vec<u32>, Memory>
    ensures { IfOk result (λ kinds. kinds.items ≡ kinds_in (tokens_in tokens.now)) }
{
    let mut kinds = Vec::new(alloc);
    for token in &tokens.items {
        kinds.push(token.kind)?;
    }
    Ok(kinds)
}

/// The tree that was found. Where there is none, that is the fault, and no other.
fn tree_found(found: Option<Tree>) -> Result<Tree, InputFault>
    ensures tree { IfOk result (λ tree. found ≡ Some tree) }
    ensures none { IfErr result (λ fault. (fault ≡ NoParse) × (found ≡ None)) }
{
    match found {
        Some(tree) => Ok(tree),
        None => Err(InputFault::NoParse),
    }
}

/// The preferred tree of the tokens, for the grammar's start rule.
fn tree_of_input(alloc: Global, grammar: &Checked, tokens: &Tokens) -> Result<Tree, InputFault>
    requires few { length (tokens_in tokens.now) < 2 ^ 32 }
    ensures parse { IfOk result (IsParse (normal_of grammar.now) (Rule (normal_of grammar.now).start) (kinds_in (tokens_in tokens.now))) }
    ensures whole { IfOk result (λ tree. IsWhole tree.form tree.start (whole tree)) }
    ensures derived { OnOk result (StartDerives grammar.now (kinds_in (tokens_in tokens.now))) }
    ensures fault { IfErr result (IsParseFault grammar.now (kinds_in (tokens_in tokens.now))) }
{
    equal_languages();
    preferred_trees_are_valid();
    valid_trees_are_derived();
    grammar.is_checked();
    let normal = normalise(alloc, grammar)?;
    let kinds = kinds_of(alloc, tokens)?;
    let tree = tree_found(parse(alloc, &normal, Sym::Rule(normal.start()), &kinds)?)?;
    let _nodes = tree.nodes();
    Ok(tree)
}

/// What is found in the bytes, step by step.
fn found_in(alloc: Global, grammar: &Checked, bytes: &[u8]) -> Result<ParsedInput, InputFault>
    requires { length bytes.now < 2 ^ 32 }
    ensures parsed { IfOk result (IsParsed grammar.now bytes.now) }
    ensures fault { IfErr result (IsInputFault grammar.now bytes.now) }
{
    let text = text_of_input(bytes)?;
    let lexer = Lexer::build(alloc, grammar)?;
    let tokens = tokens_of_input(&lexer, text)?;
    let tree = tree_of_input(alloc, grammar, &tokens)?;
    let text = String::from_str(alloc, text)?;
    Ok(ParsedInput {
        text,
        tokens,
        lexer,
        tree,
    })
}

/// What is found in the bytes, which are in the grammar's language; or why they aren't: they aren't
/// UTF-8, they aren't cut into tokens, or the start rule doesn't derive these. The first that is so is
/// named.
///
/// Each call builds the lexer and the normal form of the grammar (see [`Lexer::build`] and
/// [`normalise`]); beside that its time is that of the lexer and of the parser (see [`Lexer::lex`] and
/// [`parse`]).
pub fn parsed_input(
    alloc: Global,
    grammar: &Checked,
    bytes: &[u8],
) -> Result<ParsedInput, InputFault>
    requires { length bytes.now < 2 ^ 32 }
    ensures parsed { IfOk result (IsParsed grammar.now bytes.now) }
    ensures input { IfOk result (MakesInputOf grammar.now bytes.now) }
    ensures language { OnOk result (InLanguage grammar.now bytes.now) }
    ensures only { InLanguage grammar.now bytes.now → MatchResult result (λ _. ⊤) (λ fault. fault ≡ OutOfMemory ran_out) }
    ensures fault { IfErr result (IsInputFault grammar.now bytes.now) }
{
    input_fault_once();
    preferred_trees_are_valid();
    grammar.is_checked();
    found_in(alloc, grammar, bytes)
}
