//! Nondeterministic finite automata: what a rule matches, in the form in which a text is read
//! (Thompson 1968).

ghost use Rattle.std.specs.Prelude.{◌≡◌};
ghost use Rattle.lexer_match.specs.Nfa.{after};

use grammar_tree::CharSet;

/// A state of an NFA. It is given by its index in the NFA, from 0. State 0 is the end: a text is
/// read once it is reached.
#[derive(Drop)]
pub enum State {
    /// Reads nothing.
    Never,

    /// Reads the character, and goes on at the state.
    Char(char, usize),

    /// Reads one character of the set, and goes on at the state.
    Set(CharSet, usize),

    /// Goes on at either state, and reads no character.
    Split(usize, usize),

    /// Reads what the lexer rule at this index among all rules matches, and goes on at the state. No
    /// finished NFA has one: it is replaced by states for the rule.
    Call(usize, usize),
}

impl State {
    /// Where reading goes on after this character. None where the state doesn't read it.
    pub fn after(&self, c: char) -> Option<usize>
        ensures { result ≡ after self.now c }
    {
        match self {
            State::Char(wanted, next) if *wanted == c => Some(*next),
            State::Set(set, next) if set.contains(c) => Some(*next),
            _ => None,
        }
    }
}
