//! Whether a text spells a grammar, or why it doesn't, as text.

ghost use Rattle.std.specs.Prelude.{◌≡◌, IfOk, string_bytes};
ghost use Rattle.cases_answers.specs.AnswerTexts.{checked_text, reading_text};

use faults::Memory;
use grammar_reader_notation::ReadFault;
use grammar_tree::{Checked, Grammar};
use std::alloc::Global;
use test_grammars::Refused;

/// Whether a text was read as a grammar, or its first fault.
pub fn reading_shown(alloc: Global, reading: &Result<Grammar, ReadFault>) -> Result<String, Memory>
    ensures { IfOk result (λ shown. string_bytes shown ≡ reading_text reading.now) }
{
    match reading {
        Ok(_) => Ok(String::from_str(alloc, "read")?),
        Err(fault) => Ok(fault.to_string(alloc)?),
    }
}

/// That a text spells a checked grammar, or why it doesn't.
pub fn checked_shown(alloc: Global, reading: &Result<Checked, Refused>) -> Result<String, Memory>
    ensures { IfOk result (λ shown. string_bytes shown ≡ checked_text reading.now) }
{
    match reading {
        Ok(_) => Ok(String::from_str(alloc, "no fault")?),
        Err(Refused::Faulty(fault)) => Ok(fault.to_string(alloc)?),
        Err(Refused::TooLong) => Ok(String::from_str(alloc, "too long")?),
    }
}
