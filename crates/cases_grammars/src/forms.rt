//! The normal forms of five grammars of `examples/grammars`.

ghost use Rattle.std.specs.Prelude.{◌≡◌, IfOk, encode_utf8_all};
ghost use Rattle.grammar_tree.specs.Written.{CheckedGrammar};
ghost use Rattle.grammar_reader.specs.Reads.{IsProfile};
ghost use Rattle.normal_form.specs.NormalOf.{normal_of};
ghost use Rattle.normal_form_print.specs.Print.{printed};

use anyhow::{Result, bail};
use normal_form_build::normalise;
use normal_form_print::normal_text;
use std::alloc::Global;
use std::fs;
use test_grammars::checked;

/// The grammars, in the folder that the program is run in.
const NAMES: [&str; 5] = [
    "JSON.g4",
    "SExpression.g4",
    "SQL.g4",
    "C.g4",
    "Expressions.g4",
];

/// The printed normal form of the grammar that the text spells.
fn form_of(alloc: Global, text: &str) -> Result<Vec<u8>>
    ensures { IfOk result (λ form. (c : CheckedGrammar) × IsProfile text.now c.grammar
        × (form.items ≡ encode_utf8_all (printed c.kinds (normal_of c)))) }
{
    match checked(alloc, text, None) {
        Ok(grammar) => {
            let normal = normalise(alloc, &grammar)?;
            Ok(normal_text(alloc, &grammar, &normal)?)
        }
        Err(refused) => bail!("refused: {refused:?}"),
    }
}

/// Prints the normal forms of the grammars.
pub(crate) fn show_forms(rt: &HostRuntime, alloc: Global) -> Result<()> {
    for name in NAMES {
        let text = fs::read_to_string(rt, name)?;
        let form = String::from_utf8(form_of(alloc, text.as_str())?)?;
        println!(rt; "{name}\n{form}")?;
    }
    Ok(())
}
