//! Numbers of lines or tokens.

ghost use Rattle.std.specs.Prelude.{◌≡◌, ◌≤◌, ◌<◌, ◌^◌, IfOk, drop, length};
ghost use Rattle.keep_guard.specs.Relation.{Rises};
ghost use Rattle.line_guard.specs.MustStay.{keeps_numbers};
ghost use Rattle.line_guard.specs.Protected.{numbers_where};
ghost use Rattle.line_guard.specs.inner.Passes.{without};

use faults::Memory;
use std::alloc::Global;
use std::marker::Model;

/// Numbers of lines or tokens of a start, from 0, which rise strictly.
#[derive(Debug, Drop)]
pub struct Numbers {
    items: Vec<u32>,
}

impl Model for Numbers {
    ghost use Rattle.std.specs.Prelude.{List, ℕ};
    ghost use Rattle.keep_guard.specs.Relation.{Rises};

    ghost Value = { List ℕ };

    ghost view = { λ numbers. numbers.items.items };

    ghost invariant = { λ numbers. Rises numbers.items.items };
}

impl Numbers {
    /// The indexes of the flags that are set.
    pub(crate) fn of_flags(alloc: Global, flags: &[bool]) -> Result<Numbers, Memory>
        requires { length flags.now < 2 ^ 32 }
        ensures { IfOk result (λ numbers. numbers ≡ numbers_where (λ flag. flag) 0 flags.now) }
    {
        let mut items = Vec::new(alloc);
        for at in 0..flags.len() {
            if flags[at] {
                items.push(at as u32)?;
            }
        }
        Ok(Numbers { items })
    }

    /// The numbers.
    pub fn as_slice(&self) -> &[u32]
        ensures numbers { result.now ≡ self.now }
        ensures rising { Rises self.now }
    {
        self.items.as_slice()
    }
}

/// How many of the numbers that must be kept have been seen after this one, where so many had been before.
fn found_after(must: &[u32], found: usize, number: u32) -> usize
    requires { found ≤ length must.now }
    ensures within { result ≤ length must.now }
    ensures rest { drop result must.now ≡ without number (drop found must.now) }
{
    if found < must.len() && must[found] == number {
        found + 1
    } else {
        found
    }
}

/// Whether each number of `must` is one of those that are kept. It takes no memory, and one pass over the
/// two lists.
pub fn keeps_numbers(kept: &[u32], must: &[u32]) -> bool
    requires kept { Rises kept.now }
    requires must { Rises must.now }
    ensures { result ≡ keeps_numbers kept.now must.now }
{
    let mut found = 0;
    for number in kept {
        found = found_after(must, found, *number);
    }
    found == must.len()
}
