ghost use Rattle.std.specs.Prelude.{◌≡◌};

use crate::counts::Counts;
use crate::journal_lines::JournalLines;
use edge_io::{OpenFault, Sink, SinkFault};
use std::alloc::Global;
use std::marker::Model;
use std::sync::Arc;

/// A journal that passes each call on to the sink within it, and counts its records. Contracts see the
/// inner sink.
#[derive(Drop)]
pub struct CountedJournal<J: Drop> {
    sink: J,
    counts: Arc<Counts>,
    lines: JournalLines,
}

impl<J: Drop> Model for CountedJournal<J> {
    ghost Value = { J };

    ghost view = { λ counted. counted.sink };
}

impl<J: Drop> CountedJournal<J> {
    /// Counts the records of the journal that is put into this sink.
    pub fn new(alloc: Global, sink: J, counts: Arc<Counts>) -> CountedJournal<J>
        ensures { result ≡ sink }
    {
        CountedJournal {
            sink,
            counts,
            lines: JournalLines::new(alloc),
        }
    }

    /// The sink within it.
    pub fn inner(&self) -> &J
        ensures { result.now ≡ self.now }
    {
        &self.sink
    }
}

impl<J: Sink + Drop> Sink for CountedJournal<J> {
    ghost put_so_far = { J.put_so_far };

    ghost puts = { J.puts };

    ghost faults = { J.faults };

    fn open(&mut self, name: &str) -> Result<(), OpenFault> {
        self.sink.open(name)
    }

    fn put(&mut self, piece: &[u8]) -> Result<(), SinkFault> {
        let put = self.sink.put(piece);
        if put.is_ok() {
            self.lines.read(piece, &self.counts);
        }
        put
    }
}
