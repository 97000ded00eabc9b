ghost use Rattle.std.specs.Prelude.{◌≡◌, ◌≢◌, ◌≤◌, ◌<◌, ◌+◌, ◌^◌, [], ◌∷◌, ◌++◌, length, take, drop, IfOk, OnOk};
ghost use Rattle.list_ddmin.specs.ListStep.{kept_of};
ghost use Rattle.reduce_core.specs.Lines.{lines_of, numbered_lines, numbers_of, text_of};

use faults::Memory;
use memchr::memchr;
use script_gate_trait::Bytes;
use std::alloc::Global;
use std::marker::Model;

/// A line of the start.
#[derive(Drop)]
pub struct Line {
    /// Which line of the start it is, counted from 0.
    pub number: u32,

    /// Its bytes, with its newline.
    pub bytes: Bytes,
}

/// Some lines of the start, as a text that may be asked.
#[derive(Drop)]
pub struct Candidate {
    /// The bytes of the lines, one line after another.
    pub text: Vec<u8>,

    /// The numbers of the lines.
    pub numbers: Vec<u32>,
}

impl Candidate {
    /// The candidate of no lines.
    pub fn new(alloc: Global) -> Candidate
        ensures text { result.text.items ≡ [] }
        ensures numbers { result.numbers.items ≡ [] }
    {
        Candidate {
            text: Vec::new(alloc),
            numbers: Vec::new(alloc),
        }
    }
}

/// The lines of a text, or some of them, in their order. A line is the bytes up to and including
/// a newline; a last line may lack it.
#[derive(Drop)]
pub struct Lines {
    items: Vec<Line>,
}

impl Model for Lines {
    ghost use Rattle.std.specs.Prelude.{List};
    ghost use Rattle.reduce_core.specs.declared.lines.Line.{Line};

    ghost Value = { List Line };

    ghost view = { λ lines. lines.items.items };
}

impl Lines {
    /// The lines of a text of fewer than 2^32 bytes.
    pub fn split(alloc: Global, text: &[u8]) -> Result<Lines, Memory>
        requires { length text.now < 2 ^ 32 }
        ensures { IfOk result (λ lines. lines ≡ numbered_lines text.now) }
    {
        let mut items = Vec::new(alloc);
        let mut rest = text;
        while !rest.is_empty() {
            let (line, later) = rest.split_at(first_line_end(rest));
            let number = items.len() as u32;
            let bytes = Bytes::from_slice(alloc, line)?;
            items.push(Line { number, bytes })?;
            rest = later;
        }
        Ok(Lines { items })
    }

    /// How many lines there are.
    pub fn len(&self) -> usize
        ensures { result ≡ length self.now }
    {
        self.items.len()
    }

    /// Makes the candidate that of the lines that `keep` marks, whatever it was.
    pub fn write_kept(&self, keep: &[bool], candidate: &mut Candidate) -> Result<(), Memory>
        requires { length keep.now ≡ length self.now }
        ensures text { OnOk result (candidate.new.text.items ≡ text_of (kept_of keep.now self.now)) }
        ensures numbers { OnOk result (candidate.new.numbers.items ≡ numbers_of (kept_of keep.now self.now)) }
    {
        candidate.text.clear();
        candidate.numbers.clear();
        for k in 0..keep.len() {
            if keep[k] {
                let line = &self.items[k];
                candidate.text.extend_from_slice(line.bytes.as_slice())?;
                candidate.numbers.push(line.number)?;
            }
        }
        Ok(())
    }

    /// The same lines again.
    pub fn copy(&self, alloc: Global) -> Result<Lines, Memory>
        ensures { IfOk result (λ lines. lines ≡ self.now) }
    {
        let all = vec![in alloc; true; self.len()]?;
        self.kept(alloc, &all)
    }

    /// The lines that `keep` marks.
    pub fn kept(&self, alloc: Global, keep: &[bool]) -> Result<Lines, Memory>
        requires { length keep.now ≡ length self.now }
        ensures { IfOk result (λ lines. lines ≡ kept_of keep.now self.now) }
    {
        let mut items = Vec::new(alloc);
        for k in 0..keep.len() {
            if keep[k] {
                let line = &self.items[k];
                let bytes = Bytes::from_slice(alloc, line.bytes.as_slice())?;
                items.push(Line {
                    number: line.number,
                    bytes,
                })?;
            }
        }
        Ok(Lines { items })
    }
}

/// Where the first line of a text ends, in bytes from its start: after the first newline, or at the text's
/// end. An empty text has no line.
pub fn first_line_end(text: &[u8]) -> usize
    requires { length text.now ≢ 0 }
    ensures some { 0 < result }
    ensures within { result ≤ length text.now }
    ensures line { lines_of text.now ≡ take result text.now ∷ lines_of (drop result text.now) }
{
    match memchr(b'\n', text) {
        Some(at) => at + 1,
        None => text.len(),
    }
}
