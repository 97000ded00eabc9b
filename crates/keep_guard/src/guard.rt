//! A stored function beside the relation that it answers.

ghost use Rattle.std.specs.Prelude.{◌≡◌};
ghost use Rattle.keep_guard.specs.Relation.{Rises};

use std::marker::Model;

/// A function of a candidate, with the relation that it answers: which candidates are admitted. A
/// candidate is given by the numbers of the lines or tokens of the start that it keeps, from 0, and
/// by its text.
pub trait Relation {
    ghost use Rattle.std.specs.Prelude.{Bool, List, ℕ};

    /// The candidate of these numbers and this text is admitted.
    ghost admits: { Self → List ℕ → List ℕ → Bool };

    /// Whether the candidate of these numbers, which rise strictly, and this text is admitted.
    fn answer(&self, kept: &[u32], text: &[u8]) -> bool
        requires { Rises kept.now }
        ensures { result ≡ admits self.now kept.now text.now };
}

/// A stored function that says which candidates may be asked. Contracts see it as the function.
#[derive(Drop)]
pub struct Guard<F> {
    function: F,
}

impl<F> Model for Guard<F> {
    ghost Value = { F };

    ghost view = { λ guard. guard.function };
}

impl<F: Relation> Guard<F> {
    /// A guard over this function.
    pub fn new(function: F) -> Guard<F>
        ensures { result ≡ function }
    {
        Guard { function }
    }

    /// Whether the candidate of these kept numbers (of lines or tokens of the start, from 0, which
    /// rise strictly) and this text is admitted. It takes the time and memory of the function.
    pub fn admits(&self, kept: &[u32], text: &[u8]) -> bool
        requires { Rises kept.now }
        ensures { result ≡ F.admits self.now kept.now text.now }
    {
        self.function.answer(kept, text)
    }
}
