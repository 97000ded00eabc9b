//! What one more word gives.

ghost use Rattle.std.specs.Prelude.{◌≡◌, Some, None};
ghost use Rattle.grammar_reader_machine.specs.NextState.{next_of};
ghost use Rattle.grammar_reader_machine.specs.View.{state_of};

use crate::state::State;
use faults::Memory;
use grammar_reader_words::Word;
use std::marker::Model;

/// The state after a word, or none where the word can't follow. Contracts see the machine's state:
/// a function that hands one on says nothing of the parts of a state in memory, which are many.
pub struct Next {
    state: Option<State>,
}

impl Model for Next {
    ghost use Rattle.std.specs.Coded.{codes};
    ghost use Rattle.std.specs.Prelude.{Option};
    ghost use Rattle.grammar_reader_machine.specs.Machine as m;
    ghost use Rattle.grammar_tree.specs.inner.Code.{grammar_coded};
    ghost use Rattle.grammar_reader_machine.specs.inner.Codes.{lexer_term_coded, parser_term_coded};

    ghost Value = { Option m.State };

    ghost coded = { Prim.hlevel (codes, grammar_coded, lexer_term_coded, parser_term_coded) };

    ghost use Rattle.grammar_reader_machine.specs.NextState.{next_of};

    ghost view = { λ n. next_of n.state };
}

impl Next {
    /// The word can't follow.
    pub fn none() -> Next
        ensures { result ≡ None }
    {
        Next { state: None }
    }

    /// The word can't follow. A body or a word is let go here, since elsewhere each of its parts is a step
    /// of the proof.
    pub fn refused<T: Drop>(_value: T) -> Next
        ensures { result ≡ None }
    {
        Next::none()
    }

    /// The word can't follow. A body and a word are let go here.
    pub fn refused_word<T: Drop>(_body: T, word: Word) -> Next
        ensures { result ≡ None }
    {
        Next::refused(word)
    }

    /// The state that the word leads to.
    pub fn some(state: State) -> Next
        ensures { result ≡ Some (state_of state) }
    {
        Next { state: Some(state) }
    }

    /// The state in memory.
    pub fn state(self) -> Option<State>
        ensures { next_of result ≡ self }
    {
        let Next { state } = self;
        state
    }
}

/// Out of memory. A body or a word is let go here too.
pub fn failed<T: Drop>(_value: T, error: Memory) -> Memory
    ensures { result ≡ error }
{
    error
}
