ghost use Rattle.std.specs.Prelude.{◌≡◌};

use crate::screen::Screen;
use edge_io::{OpenFault, Sink, SinkFault};
use std::marker::Model;
use std::sync::Arc;

/// A sink that ends the drawing before anything is put into the sink within it. Contracts see the inner sink.
#[derive(Drop)]
pub struct ScreenOutput<O: Drop, E: Drop> {
    sink: O,
    to: E,
    screen: Arc<Screen>,
}

impl<O: Drop, E: Drop> Model for ScreenOutput<O, E> {
    ghost Value = { O };

    ghost view = { λ output. output.sink };
}

impl<O: Drop, E: Drop> ScreenOutput<O, E> {
    /// A sink over this one, and over the screen that lines are drawn on, by way of `to`.
    pub fn new(sink: O, to: E, screen: Arc<Screen>) -> ScreenOutput<O, E>
        ensures { result ≡ sink }
    {
        ScreenOutput { sink, to, screen }
    }

    /// The sink within it.
    pub fn inner(&self) -> &O
        ensures { result.now ≡ self.now }
    {
        &self.sink
    }
}

impl<O: Sink + Drop, E: Print + Drop> Sink for ScreenOutput<O, E> {
    ghost put_so_far = { O.put_so_far };

    ghost puts = { O.puts };

    ghost faults = { O.faults };

    fn open(&mut self, name: &str) -> Result<(), OpenFault> {
        self.sink.open(name)
    }

    fn put(&mut self, piece: &[u8]) -> Result<(), SinkFault> {
        self.screen.end(&self.to);
        self.sink.put(piece)
    }
}
