//! What is ahead of a reduction.

ghost use Rattle.std.specs.Prelude.{◌≡◌, ◌≤◌, [], ◌∷◌, ◌++◌, All, IfOk, OnOk, length};
ghost use Rattle.reduce_step.specs.Limits.{text_limit};
ghost use Rattle.reduce_step.specs.Ahead.{ahead};

use crate::round::Round;
use crate::rounds::Rounds;
use faults::Memory;
use reduce_step::Step;
use script_gate_trait::{Bytes, Verdict};
use std::alloc::Global;

/// The texts that a reducer asks in turn, at most so many. Each is answered no.
pub(crate) fn texts_at_no<R: Round + Drop>(
    alloc: Global,
    reducer: &mut Rounds<R>,
    most: u32,
) -> Result<Vec<Bytes>, Memory>
    ensures texts { IfOk result (λ texts. texts.items ≡ ahead most (⟦<Rounds<R> as Step>⟧.plan reducer.old)) }
    ensures short { IfOk result (λ texts. All (λ text. length text ≤ text_limit) texts.items) }
{
    let mut texts = Vec::new(alloc);
    while texts.len() < most as usize {
        let Some(asked) = reducer.asks() else {
            return Ok(texts);
        };
        add_text(alloc, &mut texts, asked)?;
        reducer.answer(Verdict::No)?;
    }
    Ok(texts)
}

/// Adds a copy of a text at the end.
fn add_text(alloc: Global, texts: &mut Vec<Bytes>, text: &[u8]) -> Result<(), Memory>
    ensures { OnOk result (texts.new.items ≡ texts.old.items ++ text.now ∷ []) }
{
    let text = Bytes::from_slice(alloc, text)?;
    texts.push(text)?;
    Ok(())
}
