//! Where the lines of a text are.

ghost use Rattle.std.specs.Prelude.{◌≡◌, ◌≤◌, ◌<◌, ◌+◌, ◌^◌, ◌==◌, ◌||◌, Some, IfOk, length, slice_get, slice_index};
ghost use Rattle.reduce_core.specs.Lines.{lines_of};
ghost use Rattle.line_guard.specs.Lines.{line_at, line_ends};
ghost use Rattle.line_guard.specs.inner.Slices.{begin_from};

use faults::Memory;
use std::alloc::Global;
use std::marker::Model;

/// The lines of a text, as mode `lines` has them: a line is the bytes up to and including a newline, and
/// a last line may lack it. They are numbered from 1. Contracts see the offsets, in bytes, where they end.
#[derive(Debug, Drop)]
pub struct LineIndex {
    ends: Vec<u32>,
}

impl Model for LineIndex {
    ghost use Rattle.std.specs.Prelude.{List, ℕ};
    ghost use Rattle.keep_guard.specs.Relation.{Rises};

    ghost Value = { List ℕ };

    ghost view = { λ index. index.ends.items };

    ghost invariant = { λ index. Rises index.ends.items };
}

/// Whether the byte at this index is the last of its line: a newline, or the last of the text.
fn ends_line(text: &[u8], at: usize) -> bool
    requires { at < length text.now }
    ensures { result ≡ ((slice_index text.now at == 10) || (at + 1 == length text.now)) }
{
    text[at] == b'\n' || at + 1 == text.len()
}

impl LineIndex {
    /// The index of a text of fewer than 2^32 bytes.
    pub fn of(alloc: Global, text: &[u8]) -> Result<LineIndex, Memory>
        requires { length text.now < 2 ^ 32 }
        ensures ends { IfOk result (λ index. index ≡ line_ends text.now) }
        ensures count { IfOk result (λ index. length index ≡ length (lines_of text.now)) }
    {
        let mut ends = Vec::new(alloc);
        for at in 0..text.len() {
            if ends_line(text, at) {
                ends.push(at as u32 + 1)?;
            }
        }
        Ok(LineIndex { ends })
    }

    /// How many lines there are. It takes no memory.
    pub fn lines(&self) -> u64
        ensures { result ≡ length self.now }
    {
        self.ends.len() as u64
    }

    /// The line that holds the byte at this offset of the text; after the last byte one more than there
    /// are lines. It takes no memory, and time logarithmic in the number of lines.
    pub fn line_of(&self, offset: u64) -> u64
        ensures line { result ≡ line_at self.now offset }
        ensures from { 1 ≤ result }
    {
        self.ends.partition_point(|end| (*end as u64) <= offset) as u64 + 1
    }

    /// Where the line at this index, from 0, begins.
    fn begin_of(&self, at: usize) -> usize
        requires { at < length self.now }
        ensures { result ≡ begin_from 0 self.now at }
    {
        if at == 0 {
            0
        } else {
            self.ends[at - 1] as usize
        }
    }

    /// The bytes of the line at this index, from 0, in the text whose index this is.
    pub(crate) fn bytes_of<'t>(&self, text: &'t [u8], at: usize) -> &'t [u8]
        requires index { self.now ≡ line_ends text.now }
        requires inside { at < length self.now }
        ensures { slice_get (lines_of text.entry.now) at ≡ Some result.now }
    {
        let begin = self.begin_of(at);
        &text[begin..self.ends[at] as usize]
    }
}
