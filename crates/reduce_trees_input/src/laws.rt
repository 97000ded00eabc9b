//! What follows from what an input and a fault of bytes are. Each law is a function that does nothing:
//! a caller calls it so that its proof has the law.

ghost use Rattle.reduce_trees_input.specs.Laws.{InputFaultOnce, InputsAreInLanguage, InputsAreOne};

use grammar_tree::stops_once;
use normal_form::equal_languages;
use reduce_trees_mode::well_formed_once;
use syntax_tree::{preferred_trees_are_one, valid_trees_are_derived};
use token_print::{tokens_are_unique, tokens_have_no_stop};

/// A text has one input at most by a grammar, for what is admitted and whether the squeezed text is
/// tried.
pub fn inputs_are_one()
    ensures { InputsAreOne }
{
    tokens_are_unique();
    preferred_trees_are_one();
    well_formed_once();
}

/// Only texts in the language have an input.
pub fn inputs_are_in_language()
    ensures { InputsAreInLanguage }
{
    equal_languages();
    valid_trees_are_derived();
}

/// Bytes have one fault at most, other than out of memory, and with one they aren't in the language.
pub fn input_fault_once()
    ensures { InputFaultOnce }
{
    tokens_are_unique();
    tokens_have_no_stop();
    stops_once();
}
