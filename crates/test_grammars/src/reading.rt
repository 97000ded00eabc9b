//! Grammars from their texts.

ghost use Rattle.std.specs.Prelude.{◌≡◌, Some, IfErr, IfOk};
ghost use Rattle.std.specs.Option.{option_map};
ghost use Rattle.std.specs.Str.{chars};
ghost use Rattle.grammar_reader.specs.Reads.{IsProfile};
ghost use Rattle.test_grammars.specs.Refused.{IsRefused};
ghost use Rattle.grammar_tree.specs.Faults.{start_of};

use grammar_load::{GrammarFault, checked_grammar};
use grammar_tree::Checked;
use std::alloc::Global;

/// Why a text gives no checked grammar.
#[derive(Debug, Drop)]
pub enum Refused {
    /// The text has 2^32 bytes or more.
    TooLong,
    Faulty(GrammarFault),
}

/// The checked grammar that the text spells. Its start is the parser rule of this name, or the first
/// one where no name is given.
pub fn checked(alloc: Global, text: &str, start: Option<&str>) -> Result<Checked, Refused>
    ensures read { IfOk result (λ c. IsProfile text.now c.grammar) }
    ensures start { IfOk result (λ c. start_of c.grammar (option_map (λ s. chars s.now) start.entry) ≡ Some c.start) }
    ensures refused { IfErr result (IsRefused text.now (option_map (λ s. chars s.now) start.entry)) }
{
    if text.len() > u32::MAX as usize {
        return Err(Refused::TooLong);
    }
    match checked_grammar(alloc, text.as_bytes(), start) {
        Ok(checked) => Ok(checked),
        Err(fault) => Err(Refused::Faulty(fault)),
    }
}
