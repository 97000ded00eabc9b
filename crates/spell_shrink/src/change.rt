//! A change of a text.

ghost use Rattle.std.specs.Prelude.{◌≡◌, ◌≤◌, ◌<◌, ◌+◌, ◌^◌, IfSome, MatchOption, length};

/// The bytes of a text from the offset `from` up to the offset `to`, from 0, are replaced by a word.
#[derive(Clone, Copy)]
pub(crate) struct Change<'a> {
    pub(crate) from: usize,
    pub(crate) to: usize,
    pub(crate) word: &'a str,
}

impl<'a> Change<'a> {
    /// Where the offset of the changed text was before the change, if it is after the word.
    pub(crate) fn offset_before(self, offset: usize) -> Option<usize>
        requires rises { self.from ≤ self.to }
        requires small { offset + self.to < 2 ^ 64 }
        requires end { self.from + length self.word.now < 2 ^ 64 }
        ensures after { IfSome result (λ before. self.entry.from + length self.entry.word.now ≤ offset) }
        ensures before { MatchOption result (offset < self.entry.from + length self.entry.word.now)
            (λ before. before + (self.entry.from + length self.entry.word.now) ≡ offset + self.entry.to) }
    {
        let end = self.from + self.word.len();
        if offset < end {
            return None;
        }
        Some(self.to + (offset - end))
    }
}
