//! What must stay, as the relation of a guard.

ghost use Rattle.std.specs.Prelude.{◌≡◌};

use crate::numbers::{Numbers, keeps_numbers};
use keep_guard::{KeepTexts, Relation, holds_all};
use std::marker::Model;

/// What must stay of a start: texts, anywhere in a candidate, and the lines or tokens of these numbers,
/// from 0.
#[derive(Drop)]
pub struct MustStay<'a> {
    texts: KeepTexts<'a>,
    numbers: Numbers,
}

impl<'a> Model for MustStay<'a> {
    ghost use Rattle.line_guard.specs.MustStay.{Stays};

    ghost Value = { Stays };

    ghost view = { λ stays. record { texts = stays.texts; numbers = stays.numbers } };
}

impl<'a> MustStay<'a> {
    /// These texts, and the lines or tokens of these numbers.
    pub fn new(texts: KeepTexts<'a>, numbers: Numbers) -> MustStay<'a>
        ensures { result ≡ record { texts = texts.entry; numbers = numbers } }
    {
        MustStay { texts, numbers }
    }
}

/// A candidate is admitted where each of the texts occurs in it and each of the numbers is kept. It takes
/// no memory, time linear in the text for each of the texts, and one pass over the numbers.
impl<'a> Relation for MustStay<'a> {
    ghost use Rattle.line_guard.specs.MustStay.{stays_admit};

    ghost admits = { stays_admit };

    fn answer(&self, kept: &[u32], text: &[u8]) -> bool {
        holds_all(text, &self.texts) && keeps_numbers(kept, self.numbers.as_slice())
    }
}
