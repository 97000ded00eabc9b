ghost use Rattle.std.specs.Prelude.{◌≡◌, ◌≤◌, IsErr, IsErrOf};
ghost use Rattle.edge_io.specs.Calls.{CountsFault};

use crate::machine::{keep_failure, write_whole};
use crate::sink::{OpenFault, Sink, SinkFault};
use std::io::ErrorKind;
use std::marker::Model;
use std::{fs, io};

#[derive(Drop)]
enum Target<F> {
    Nothing,
    Output,
    File(F),
}

/// A sink over standard output, or over the file that was opened last. What was put isn't visible to
/// contracts, which see the count of its faults alone.
#[derive(Drop)]
pub struct StreamSink<R: std::rt::Files + Print> {
    rt: R,
    target: Target<R::File>,
    faults: u64,
    reason: Option<io::Error>,
}

impl<R: std::rt::Files + Print> Model for StreamSink<R> {
    ghost use Rattle.std.specs.Prelude.{ℕ};

    ghost Value = { ℕ };

    ghost view = { λ s. s.faults };
}

impl<R: std::rt::Files + Print> StreamSink<R> {
    /// A sink over standard output, until a file is opened.
    pub fn output(rt: R) -> StreamSink<R>
        ensures { result ≡ 0 }
    {
        StreamSink {
            rt,
            target: Target::Output,
            faults: 0,
            reason: None,
        }
    }

    /// A sink over the file that will be opened. Before that every put fails.
    pub fn file(rt: R) -> StreamSink<R>
        ensures { result ≡ 0 }
    {
        StreamSink {
            rt,
            target: Target::Nothing,
            faults: 0,
            reason: None,
        }
    }

    /// Why the last call failed that counted as a fault; none before the first.
    pub fn reason(&self) -> Option<io::Error> {
        self.reason
    }
}

fn put_all<R: std::rt::Files + Print>(
    rt: &R,
    target: &mut Target<R::File>,
    piece: &[u8],
) -> io::Result<()> {
    match target {
        Target::Nothing => Err(io::Error::from(ErrorKind::NotConnected)),
        Target::Output => write_whole(&mut io::writer(rt), piece),
        Target::File(file) => write_whole(file, piece),
    }
}

impl<R: std::rt::Files + Print> Sink for StreamSink<R> {
    ghost use Rattle.std.specs.Prelude.{None};

    ghost put_so_far = { λ _. None };

    ghost puts = { λ _. None };

    ghost faults = { λ s. s };

    fn open(&mut self, name: &str) -> Result<(), OpenFault>
        ensures count { self.old ≤ self.new }
        ensures faults { CountsFault (IsErrOf result OpenFault.Failed) self.old self.new }
    {
        match fs::create(&self.rt, name) {
            Ok(file) => {
                self.target = Target::File(file);
                Ok(())
            }
            Err(error) => match keep_failure(&mut self.faults, &mut self.reason, error) {
                Some(memory) => Err(OpenFault::Memory(memory)),
                None => Err(OpenFault::Failed),
            },
        }
    }

    fn put(&mut self, piece: &[u8]) -> Result<(), SinkFault>
        ensures count { self.old ≤ self.new }
        ensures faults { CountsFault (IsErr result) self.old self.new }
    {
        if let Err(error) = put_all(&self.rt, &mut self.target, piece) {
            self.faults = self.faults.saturating_add(1);
            self.reason = Some(error);
            return Err(SinkFault::Failed);
        }
        Ok(())
    }
}
