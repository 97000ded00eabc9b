ghost use Rattle.std.specs.Prelude.{◌≡◌, ◌≤◌, ◌⊎◌, ◌↔◌, Some, IfOk, OnOk, OnErr, IsErr, IsOkUnless};
ghost use Rattle.faults.specs.Memory.{ran_out};
ghost use Rattle.edge_io.specs.Calls.{IsNextToFail, after_fault};
ghost use Rattle.edge_io.specs.MemSink.{empty_sink, IsTooBig, after_put, after_failed_put, after_cut_put};
ghost use Rattle.edge_io.specs.Sink.{empty_put, GrewByPrefix};

use crate::mem_sink::MemSink;
use crate::sink::{OpenFault, Sink, SinkFault};
use faults::Memory;
use std::alloc::Global;
use std::marker::Model;

/// A [`MemSink`] that takes a part of each piece whose put is to fail, as a disk does that fills.
#[derive(Drop)]
pub struct CutSink {
    sink: MemSink,
    part: u64,
}

impl Model for CutSink {
    ghost use Rattle.edge_io.specs.MemSink.{CutState};

    ghost Value = { CutState };

    ghost view = { λ s. record { sink = s.sink; part = s.part } };
}

impl CutSink {
    /// A sink that takes `capacity` bytes, whose memory is taken now, and has the empty name. `fail` has the
    /// numbers, from 1, of the puts that fail; of such a piece the first `part` bytes are added, or fewer where
    /// it or the capacity ends before.
    pub fn new(alloc: Global, capacity: u64, fail: Vec<u64>, part: u64) -> Result<CutSink, Memory>
        ensures { IfOk result (λ cut. cut ≡ record { sink = empty_sink capacity fail.items; part = part }) }
    {
        Ok(CutSink {
            sink: MemSink::new(alloc, capacity, fail)?,
            part,
        })
    }

    /// The bytes that were put since the last opening.
    pub fn bytes(&self) -> &[u8]
        ensures { result.now ≡ self.now.sink.put.bytes }
    {
        self.sink.bytes()
    }

    /// The name of the last opening, and the empty name before the first.
    pub fn name(&self) -> &str
        ensures { result.now ≡ self.now.sink.put.name }
    {
        self.sink.name()
    }

    /// How many puts failed.
    pub fn faults(&self) -> u64
        ensures { result ≡ self.now.sink.calls.faults }
    {
        self.sink.faults()
    }
}

impl Sink for CutSink {
    ghost put_so_far = { λ s. Some s.sink.put };

    ghost puts = { λ s. Some s.sink.calls.made };

    ghost faults = { λ s. s.sink.calls.faults };

    fn open(&mut self, name: &str) -> Result<(), OpenFault>
        ensures only_memory { IsOkUnless result (OpenFault.Memory ran_out) }
        ensures ok { OnOk result (self.new.sink ≡ record self.old.sink { put = empty_put name.now }) }
        ensures err { OnErr result (self.new.sink ≡ self.old.sink) }
        ensures part { self.new.part ≡ self.old.part }
    {
        self.sink.open(name)
    }

    fn put(&mut self, piece: &[u8]) -> Result<(), SinkFault>
        ensures failed { IsErr result ↔ (IsNextToFail self.old.sink.calls ⊎ IsTooBig piece.now self.old.sink) }
        ensures ok { OnOk result (self.new.sink ≡ after_put piece.now self.old.sink) }
        ensures listed { IsNextToFail self.old.sink.calls → self.new.sink ≡ after_cut_put piece.now self.old }
        ensures too_big { OnErr result
            ((¬ IsNextToFail self.old.sink.calls) → self.new.sink ≡ after_failed_put self.old.sink) }
        ensures counted { OnErr result (self.new.sink.calls ≡ after_fault self.old.sink.calls) }
        ensures grew { OnErr result (GrewByPrefix piece.now (Some self.old.sink.put) (Some self.new.sink.put)) }
        ensures part { self.new.part ≡ self.old.part }
        ensures count { self.old.sink.calls.faults ≤ self.new.sink.calls.faults }
    {
        if self.sink.is_next_to_fail() {
            self.sink.add_start(piece, self.part);
            self.sink.count_fault();
            return Err(SinkFault::Failed);
        }
        self.sink.put(piece)
    }
}
