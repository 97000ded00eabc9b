//! What is wished for.

ghost use Rattle.std.specs.Prelude.{◌≡◌, ◌<◌, ◌+◌, ◌^◌, IfOk, map};
ghost use Rattle.line_guard.specs.Protected.{is_protected, is_within, protects, without_newline};
ghost use Rattle.line_guard.specs.inner.Held.{held_by};

use faults::Memory;
use keep_guard::{KeepTexts, holds_all};
use script_gate_trait::Bytes;
use std::alloc::Global;

/// Lines that must stay, and with them the tokens on them. Lines are numbered from 1.
#[derive(Drop)]
pub enum Wish {
    /// Those from the first to the last.
    Lines { first: u64, last: u64 },
    /// Each that holds these bytes. Its newline isn't looked at.
    Holding(Bytes),
    /// Each but those from the first to the last.
    Only { first: u64, last: u64 },
}

/// Whether the line is one from the first to the last.
fn is_within(first: u64, last: u64, line: u64) -> bool
    ensures { result ≡ is_within first last line }
{
    first <= line && line <= last
}

/// The line without its newline.
fn without_newline(line: &[u8]) -> &[u8]
    ensures { result.now ≡ without_newline line.entry.now }
{
    match line.split_last() {
        Some((last, front)) if *last == b'\n' => front,
        _ => line,
    }
}

impl Wish {
    /// The text that a line must hold, with its searcher.
    fn searcher(&self, alloc: Global) -> Result<KeepTexts<'_>, Memory>
        ensures { IfOk result (λ held. held ≡ held_by self.now) }
    {
        let mut held = KeepTexts::new(alloc);
        if let Wish::Holding(text) = self {
            held.push(text.as_slice())?;
        }
        Ok(held)
    }

    /// Whether this protects the line of this number, counted from 1, with these bytes. The searcher is
    /// that of its text.
    fn protects(&self, held: &KeepTexts<'_>, number: u64, line: &[u8]) -> bool
        requires { held.now ≡ held_by self.now }
        ensures { result ≡ protects self.now number line.now }
    {
        match self {
            Wish::Lines { first, last } => is_within(*first, *last, number),
            Wish::Holding(_) => holds_all(without_newline(line), held),
            Wish::Only { first, last } => !is_within(*first, *last, number),
        }
    }
}

/// A searcher for each of the wishes.
pub(crate) fn searchers_of(alloc: Global, wishes: &[Wish]) -> Result<Vec<KeepTexts<'_>>, Memory>
    ensures { IfOk result (λ searchers. searchers.items ≡ map held_by wishes.now) }
{
    let mut searchers = Vec::new(alloc);
    for wish in wishes {
        searchers.push(wish.searcher(alloc)?)?;
    }
    Ok(searchers)
}

/// Whether a wish protects the line of this index, from 0, with these bytes. The searchers are those of
/// the wishes.
pub(crate) fn is_protected(
    wishes: &[Wish],
    searchers: &[KeepTexts<'_>],
    at: u64,
    line: &[u8],
) -> bool
    requires searchers { searchers.now ≡ map held_by wishes.now }
    requires few { at + 1 < 2 ^ 64 }
    ensures { result ≡ is_protected wishes.now (record { number = at; bytes = line.now }) }
{
    for k in 0..wishes.len() {
        if wishes[k].protects(&searchers[k], at + 1, line) {
            return true;
        }
    }
    false
}
