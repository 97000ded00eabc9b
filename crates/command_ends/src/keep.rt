//! The keep texts that a command line names.

ghost use Rattle.std.specs.Prelude.{◌≡◌, true, IfErr, IfOk, OnOk, map};
ghost use Rattle.keep_guard.specs.Keep.{holds_all};
ghost use Rattle.command_ends.specs.Status.{KeepsFail};

use crate::status::Refusal;
use faults::Memory;
use keep_guard::KeepTexts;
use std::alloc::Global;

/// Keep texts, in their order.
fn keep_texts<'a>(alloc: Global, texts: &[&'a str]) -> Result<KeepTexts<'a>, Memory>
    ensures { IfOk result (λ keeps. keeps ≡ map (λ text. text.now) texts.now) }
{
    let mut keeps = KeepTexts::new(alloc);
    for text in texts {
        keeps.push(text.as_bytes())?;
    }
    Ok(keeps)
}

/// Keep texts, in their order, each of which occurs in the start.
pub fn held_texts<'a>(
    alloc: Global,
    texts: &[&'a str],
    start: &[u8],
) -> Result<KeepTexts<'a>, Refusal>
    ensures keeps { IfOk result (λ keeps. keeps ≡ map (λ text. text.now) texts.now) }
    ensures kept { OnOk result (holds_all (map (λ text. text.now) texts.now) start.now ≡ true) }
    ensures refused { IfErr result (λ refusal. KeepsFail (map (λ text. text.now) texts.now) start.now refusal) }
{
    let keeps = keep_texts(alloc, texts)?;
    match keeps.first_missing(start) {
        None => Ok(keeps),
        Some(index) => Err(Refusal::of_keep(alloc, index as u64 + 1)),
    }
}
