//! Reading a text, a word at a time.

ghost use Rattle.std.specs.Prelude.{◌≡◌, ◌≢◌, ◌≤◌, ◌∷◌, [], IfOk, false, length, true};
ghost use Rattle.std.specs.Str.{IsUtf8};
ghost use Rattle.grammar_tree.specs.Written.{WrittenGrammar};
ghost use Rattle.grammar_tree.specs.GrammarView.{grammar_of};
ghost use Rattle.grammar_tree.specs.Size.{grammar_size};
ghost use Rattle.grammar_reader_words.specs.Words.{is_last};
ghost use Rattle.grammar_reader.specs.inner.Ended.{IsEnded};
ghost use Rattle.grammar_reader_notation.specs.Reads.{IsFaultOf, IsProfile, IsReadAs};
ghost use Rattle.grammar_reader_machine.specs.View.{state_of};

use crate::naming::fault_at;
use crate::steps::step;
use faults::Memory;
use grammar_reader_machine::State;
use grammar_reader_notation::ReadFault;
use grammar_reader_words::{Placed, Words};
use grammar_tree::Grammar;
use std::alloc::Global;

/// The grammar, where the text has ended.
fn ended(state: State) -> Result<Grammar, State>
    ensures { IsEnded (state_of state) result }
{
    match state {
        State::End(grammar) => Ok(grammar),
        other => Err(other),
    }
}

/// The next word, and the state before it.
fn next_word(alloc: Global, words: &mut Words<'_>, state: State) -> Result<(Placed, State), Memory>
    requires { words.old ≢ [] }
    ensures word { IfOk result (λ next. words.old ≡ next.0 ∷ words.new) }
    ensures ends { IfOk result (λ next. is_last next.0.word ≡ true → words.new ≡ []) }
    ensures goes_on { IfOk result (λ next. is_last next.0.word ≡ false → words.new ≢ []) }
    ensures state { IfOk result (λ next. next.1 ≡ state) }
{
    match words.next(alloc) {
        Ok(found) => {
            let Some(placed) = found else { unreachable!() };
            Ok((placed, state))
        }
        Err(fault) => {
            // By a call, since each part of a state that goes out of scope is a step of the proof.
            drop(state);
            Err(fault)
        }
    }
}

fn read_text(alloc: Global, text: &str) -> Result<Grammar, ReadFault>
    requires { IsUtf8 text.now }
    ensures ok { IfOk result (λ g. IsProfile text.now (grammar_of g)) }
    ensures few { IfOk result (λ g. grammar_size (grammar_of g) ≤ length text.now) }
    ensures only { (G : WrittenGrammar) → IsProfile text.now G → IsReadAs G result }
    ensures fault { IsFaultOf text.now result }
{
    let mut words = Words::new(text);
    let mut state = State::Start;
    loop {
        let (placed, current) = next_word(alloc, &mut words, state)?;
        let Placed { word, offset } = placed;
        // The step takes the state and the word, so what the word would be called is found first.
        let fault = fault_at(&current, &word, offset as u64);
        match step(alloc, current, word)? {
            None => return Err(fault),
            Some(next) => match ended(next) {
                Ok(grammar) => return Ok(grammar),
                Err(further) => state = further,
            },
        }
    }
}

/// The grammar that a text spells, or its first fault: ill-formed bytes, the first word that can't
/// follow the ones before it, or out of memory.
///
/// It takes time near linear in the bytes.
pub fn read_grammar(alloc: Global, text: &[u8]) -> Result<Grammar, ReadFault>
    ensures ok { IfOk result (λ g. IsProfile text.now (grammar_of g)) }
    ensures few { IfOk result (λ g. grammar_size (grammar_of g) ≤ length text.now) }
    ensures only { (G : WrittenGrammar) → IsProfile text.now G → IsReadAs G result }
    ensures fault { IsFaultOf text.now result }
{
    match std::str::from_utf8(text) {
        Ok(text) => read_text(alloc, text),
        Err(fault) => Err(ReadFault::NotUtf8 {
            offset: fault.valid_up_to() as u64,
        }),
    }
}
