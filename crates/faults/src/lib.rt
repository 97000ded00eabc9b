//! Out of memory, and counts of calls that failed, which all crates share.
//!
//! [`Memory`] is what a call answers where memory ran out, or where a [`Limit`] would be passed. Its
//! field is private, so that no other crate writes a value of it: what a call hands on came from the
//! allocator, from an error of the system, or from a count over a limit.
//!
//! An object that can fail counts its failed calls; read `Rose` in `specs/Count.antt` first. It also
//! holds of a count that is already at its last value.
#![tactic(auto)]

ghost use Rattle.std.specs.Prelude.{◌≡◌, ◌<◌, ◌≤◌, ◌↔◌, IsSome, OnErr, OnOk};
ghost use Rattle.faults.specs.Limits.{bound_of};
ghost use Rattle.faults.specs.Memory.{IsOutOfMemory, ran_out};

use std::alloc::{AllocError, AllocFailed};
use std::io;
use std::io::ErrorKind;
use thiserror::Error;

mod limit;

pub use limit::Limit;

/// Memory ran out, or a limit would be passed. Contracts don't tell the values apart.
#[derive(Clone, Copy, Debug, PartialEq, Eq, Error)]
#[error("out of memory")]
pub struct Memory(());

impl Memory {
    /// That there would be so many, which are more than the limit.
    pub fn over(limit: Limit, count: usize) -> Memory
        requires { bound_of limit < count }
        ensures { result ≡ ran_out }
    {
        let _ = limit;
        let _ = count;
        Memory(())
    }

    /// That the program itself had no memory, where this error says so. An error that has a number of the
    /// system is a call that failed, also where its text speaks of memory.
    pub fn of_error(error: &io::Error) -> Option<Memory>
        ensures { IsSome result ↔ IsOutOfMemory error.now }
    {
        if error.kind() == ErrorKind::OutOfMemory && error.raw_os_error().is_none() {
            return Some(Memory(()));
        }
        None
    }
}

impl Limit {
    /// Refused where there are more than the limit.
    pub fn within(self, count: usize) -> Result<(), Memory>
        ensures within { OnOk result (count ≤ bound_of self) }
        ensures over { OnErr result (bound_of self < count) }
    {
        if count > self.bound() {
            return Err(Memory::over(self, count));
        }
        Ok(())
    }
}

impl From<AllocError> for Memory {
    ghost use Rattle.std.specs.Prelude.{◌≡◌};
    ghost use Rattle.faults.specs.Memory.{ran_out};

    ghost from_gives = { λ _ memory. memory ≡ ran_out };

    fn from(_: AllocError) -> Memory {
        Memory(())
    }
}

impl<T: Drop> From<AllocFailed<T>> for Memory {
    ghost use Rattle.std.specs.Prelude.{◌≡◌};
    ghost use Rattle.faults.specs.Memory.{ran_out};

    ghost from_gives = { λ _ memory. memory ≡ ran_out };

    fn from(_: AllocFailed<T>) -> Memory {
        Memory(())
    }
}
