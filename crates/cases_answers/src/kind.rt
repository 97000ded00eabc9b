//! Kinds as text.

ghost use Rattle.std.specs.Prelude.{◌≡◌, IfOk, string_bytes};
ghost use Rattle.cases_answers.specs.AnswerTexts.{kind_text};

use faults::Memory;
use grammar_tree::{Kind, KindSource};
use std::alloc::Global;

/// The kind's name, whether it is one of gap text, and where it comes from.
pub fn kind_shown(alloc: Global, kind: &Kind) -> Result<String, Memory>
    ensures { IfOk result (λ shown. string_bytes shown ≡ kind_text kind.now) }
{
    let gap = if kind.gap { " gap" } else { "" };
    let name = &kind.name;
    match kind.source {
        KindSource::Implicit => Ok(format!(in alloc; "{name}{gap} implicit; ")?),
        KindSource::Written(index) => Ok(format!(in alloc; "{name}{gap} at {index}; ")?),
        KindSource::Declared => Ok(format!(in alloc; "{name}{gap} declared; ")?),
    }
}
