//! Guards of tests.

ghost use Rattle.std.specs.Prelude.{◌≡◌, ◌==◌, IfOk, map};
ghost use Rattle.std.specs.List.{list_any};

use faults::Memory;
use keep_guard::{Guard, KeepTexts, Relation};
use std::alloc::Global;

/// The line of the start with this number, from 0, stays.
#[derive(Drop)]
pub struct KeepsLine(pub u32);

impl Relation for KeepsLine {
    ghost admits = { λ line kept text. list_any (λ number. number == line.0) kept };

    fn answer(&self, kept: &[u32], text: &[u8]) -> bool {
        let _ = text;
        kept.contains(&self.0)
    }
}

/// A guard over these keep texts.
pub fn guard_of<'a>(alloc: Global, texts: &[&'a [u8]]) -> Result<Guard<KeepTexts<'a>>, Memory>
    ensures { IfOk result (λ guard. guard ≡ map (λ text. text.now) texts.entry.now) }
{
    let mut keeps = KeepTexts::new(alloc);
    for text in texts {
        keeps.push(*text)?;
    }
    Ok(Guard::new(keeps))
}
