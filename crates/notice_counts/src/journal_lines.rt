//! What the pieces of a journal say as they are put.

use crate::counts::Counts;
use std::alloc::Global;
use std::str;

/// Which piece of a journal comes next.
#[derive(Clone, Copy, Debug, PartialEq, Eq)]
enum Next {
    /// The first line of an event.
    Event,
    /// The text of a record.
    Text,
    /// The newline after a text.
    Newline,
}

/// A record with the verdict yes.
#[derive(Clone, Copy, Debug)]
struct YesRecord {
    number: u64,
    bytes: u64,
}

/// Follows the pieces of a journal: a record is its line, its text and a newline, a commit is its line.
#[derive(Drop)]
pub(crate) struct JournalLines {
    next: Next,
    records: u64,
    yes: Vec<YesRecord>,
}

impl JournalLines {
    /// Before the first piece.
    pub(crate) fn new(alloc: Global) -> JournalLines {
        JournalLines {
            next: Next::Event,
            records: 0,
            yes: Vec::new(alloc),
        }
    }

    /// Counts what the piece says. Where memory runs out for a yes, the best text isn't noted.
    pub(crate) fn read(&mut self, piece: &[u8], counts: &Counts) {
        self.next = match self.next {
            Next::Event => self.read_event(piece, counts),
            Next::Text => Next::Newline,
            Next::Newline => Next::Event,
        };
    }

    fn read_event(&mut self, piece: &[u8], counts: &Counts) -> Next {
        let Ok(line) = str::from_utf8(piece) else {
            return Next::Event;
        };
        if let Some((yes, bytes)) = record_in(line) {
            self.add_record(yes, bytes, counts);
            return Next::Text;
        }
        if let Some(number) = commit_in(line)
            && let Some(bytes) = self.bytes_of_yes(number)
        {
            counts.set_best(bytes);
        }
        Next::Event
    }

    fn add_record(&mut self, yes: bool, bytes: u64, counts: &Counts) {
        self.records = self.records.saturating_add(1);
        counts.count_record(bytes);
        if yes {
            let number = self.records;
            let _ = self.yes.push(YesRecord { number, bytes });
        }
    }

    /// The bytes of the record of this number, where it is a yes. The numbers rise.
    fn bytes_of_yes(&self, number: u64) -> Option<u64> {
        match self
            .yes
            .binary_search_by_key(&number, |record| record.number)
        {
            Ok(index) => Some(self.yes[index].bytes),
            Err(_) => None,
        }
    }
}

/// Whether the verdict is yes, and the bytes of the text, of the first line of a record, asked or kept.
fn record_in(line: &str) -> Option<(bool, u64)> {
    let (letter, line) = line.strip_suffix('\n')?.split_once(' ')?;
    if letter != "R" && letter != "K" {
        return None;
    }
    let (verdict, bytes) = line.split_once(' ')?;
    Some((verdict == "y", bytes.parse().ok()?))
}

/// The number of the record that the line of a commit names.
fn commit_in(line: &str) -> Option<u64> {
    line.strip_prefix("C ")?.strip_suffix('\n')?.parse().ok()
}
