ghost use Rattle.std.specs.Prelude.{IsOk};

use crate::sink::{OpenFault, Sink, SinkFault};

/// A sink that keeps nothing and never fails. What was put isn't visible.
#[derive(Clone, Copy, Debug, Default)]
pub struct NullSink;

impl NullSink {
    /// The one value of the type.
    pub fn new() -> NullSink {
        NullSink
    }
}

impl Sink for NullSink {
    ghost use Rattle.std.specs.Prelude.{None};

    ghost put_so_far = { λ _. None };

    ghost puts = { λ _. None };

    ghost faults = { λ _. 0 };

    fn open(&mut self, _name: &str) -> Result<(), OpenFault>
        ensures { IsOk result }
    {
        // A name is not kept, so no memory is taken.
        Ok(())
    }

    fn put(&mut self, _piece: &[u8]) -> Result<(), SinkFault>
        ensures { IsOk result }
    {
        Ok(())
    }
}
