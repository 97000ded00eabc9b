ghost use Rattle.std.specs.Prelude.{◌≡◌, ◌≤◌, ◌⊎◌, ◌↔◌, IfOk, OnOk, OnErr, IsErr, IsOkUnless, IsTrue};
ghost use Rattle.faults.specs.Memory.{ran_out};
ghost use Rattle.edge_io.specs.Calls.{IsNextToFail};
ghost use Rattle.edge_io.specs.MemSink.{empty_sink, IsTooBig, after_put, after_failed_put, after_start};
ghost use Rattle.edge_io.specs.Sink.{empty_put};

use crate::calls::Calls;
use crate::sink::{OpenFault, Sink, SinkFault};
use faults::Memory;
use std::alloc::Global;
use std::marker::Model;

/// A sink in memory with a fixed capacity, some puts of which can be made to fail.
#[derive(Drop)]
pub struct MemSink {
    alloc: Global,
    bytes: Vec<u8>,
    name: String,
    capacity: u64,
    calls: Calls,
}

impl Model for MemSink {
    ghost use Rattle.std.specs.Prelude.{◌≤◌, vec_len, vec_capacity, string_bytes};
    ghost use Rattle.edge_io.specs.MemSink.{SinkState};

    ghost Value = { SinkState };

    ghost view = { λ s. record {
      put = record { bytes = s.bytes.items; name = string_bytes s.name };
      capacity = s.capacity;
      calls = s.calls;
    } };

    ghost invariant = { λ s. (vec_len s.bytes ≤ s.capacity) × (s.capacity ≤ vec_capacity s.bytes) };
}

impl MemSink {
    /// A sink that takes `capacity` bytes, whose memory is taken now, and has the empty name.
    /// `fail` has the numbers, from 1, of the puts that fail.
    pub fn new(alloc: Global, capacity: u64, fail: Vec<u64>) -> Result<MemSink, Memory>
        ensures { IfOk result (λ sink. sink ≡ empty_sink capacity fail.items) }
    {
        Ok(MemSink {
            alloc,
            bytes: Vec::with_capacity(alloc, capacity as usize)?,
            name: String::new(alloc),
            capacity,
            calls: Calls::new(fail),
        })
    }

    /// The bytes that were put since the last opening.
    pub fn bytes(&self) -> &[u8]
        ensures { result.now ≡ self.now.put.bytes }
    {
        self.bytes.as_slice()
    }

    /// The name of the last opening, and the empty name before the first.
    pub fn name(&self) -> &str
        ensures { result.now ≡ self.now.put.name }
    {
        self.name.as_str()
    }

    /// How many puts failed.
    pub fn faults(&self) -> u64
        ensures { result ≡ self.now.calls.faults }
    {
        self.calls.faults()
    }

    /// Whether the next put is one of those that are to fail.
    pub(crate) fn is_next_to_fail(&self) -> bool
        ensures { IsTrue result ↔ IsNextToFail self.now.calls }
    {
        self.calls.is_next_to_fail()
    }

    /// Adds the first `most` bytes of the piece, or fewer where the piece or the capacity ends before. It
    /// counts as no put.
    #[tactic(auto, using(crate::proofs::Starts::take_min))]
    pub(crate) fn add_start(&mut self, piece: &[u8], most: u64)
        ensures { self.new ≡ after_start most piece.now self.old }
    {
        let left = self.capacity - self.bytes.len() as u64;
        let count = most.min(left).min(piece.len() as u64) as usize;
        self.bytes.extend_from_slice(&piece[..count]).unwrap();
    }

    /// Counts a put that failed.
    pub(crate) fn count_fault(&mut self)
        ensures counted { self.new ≡ after_failed_put self.old }
        ensures never_falls { self.old.calls.faults ≤ self.new.calls.faults }
    {
        self.calls.count_fault();
    }
}

impl Sink for MemSink {
    ghost use Rattle.std.specs.Prelude.{Some};

    ghost put_so_far = { λ s. Some s.put };

    ghost puts = { λ s. Some s.calls.made };

    ghost faults = { λ s. s.calls.faults };

    fn open(&mut self, name: &str) -> Result<(), OpenFault>
        ensures only_memory { IsOkUnless result (OpenFault.Memory ran_out) }
        ensures ok { OnOk result (self.new ≡ record self.old { put = empty_put name.now }) }
        ensures err { OnErr result (self.new ≡ self.old) }
    {
        self.name = String::from_str(self.alloc, name)?;
        self.bytes.clear();
        Ok(())
    }

    fn put(&mut self, piece: &[u8]) -> Result<(), SinkFault>
        ensures failed { IsErr result ↔ (IsNextToFail self.old.calls ⊎ IsTooBig piece.now self.old) }
        ensures ok { OnOk result (self.new ≡ after_put piece.now self.old) }
        ensures err { OnErr result (self.new ≡ after_failed_put self.old) }
        ensures count { self.old.calls.faults ≤ self.new.calls.faults }
    {
        let free = self.capacity - self.bytes.len() as u64;
        if self.calls.is_next_to_fail() || piece.len() as u64 > free {
            self.count_fault();
            return Err(SinkFault::Failed);
        }
        self.calls.count_call();
        self.bytes.extend_from_slice(piece).unwrap();
        Ok(())
    }
}
