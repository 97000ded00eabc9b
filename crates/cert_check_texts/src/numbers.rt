//! The tokens and the lines of a start by their bytes.

ghost use Rattle.std.specs.Prelude.{◌≡◌, ◌++◌, ◌∷◌, ◌<◌, ◌≤◌, ◌^◌, ℕ, List, [], IfOk, OnOk, if◌then◌else◌, length, map};
ghost use Rattle.std.specs.Str.{bytes_eq};
ghost use Rattle.lexer.specs.Tokens.{token_of};
ghost use Rattle.reduce_core.specs.Lines.{lines_of};
ghost use Rattle.reduce_step.specs.Limits.{text_limit};
ghost use Rattle.token_print.specs.LexingLaws.{AreInOrder};
ghost use Rattle.token_print.specs.Spelling.{spelling_at};
ghost use Rattle.cert_check_texts.specs.inner.Numbers.{HasNumbers, line_at, listed_with};

use faults::Memory;
use lexer::Token;
use reduce_core::first_line_end;
use std::alloc::Global;
use std::collections::BTreeMap;
use token_print::spelling;

/// The numbers of the tokens or the lines of a start, from 0, by their bytes, rising for each.
#[derive(Drop)]
pub(crate) struct Numbers<'s> {
    lists: BTreeMap<&'s [u8], Vec<u32>>,
}

impl<'s> Numbers<'s> {
    /// Those of all tokens of the start, by their spellings. It takes the start's bytes times the logarithm
    /// of how many spellings there are.
    pub(crate) fn of_tokens(
        alloc: Global,
        start: &'s str,
        tokens: &[Token],
    ) -> Result<Numbers<'s>, Memory>
        requires few { length tokens.now < 2 ^ 32 }
        requires order { AreInOrder start.now (map token_of tokens.now) }
        ensures { IfOk result (λ numbers. HasNumbers numbers (spelling_at start.now (map token_of tokens.now)) (length tokens.now)) }
    {
        let mut numbers = Numbers {
            lists: BTreeMap::new(alloc),
        };
        for index in 0..tokens.len() as u32 {
            let spelling = spelling(start, tokens[index as usize]);
            numbers.add(spelling.as_bytes(), index)?;
        }
        Ok(numbers)
    }

    /// Those of all lines of the start. It takes the start's bytes times the logarithm of how many different
    /// lines there are.
    pub(crate) fn of_lines(alloc: Global, start: &'s [u8]) -> Result<Numbers<'s>, Memory>
        requires { length start.now ≤ text_limit }
        ensures { IfOk result (λ numbers. HasNumbers numbers (line_at start.now) (length (lines_of start.now))) }
    {
        let mut numbers = Numbers {
            lists: BTreeMap::new(alloc),
        };
        let mut lines = start;
        let mut number = 0;
        while !lines.is_empty() {
            let (line, later) = lines.split_at(first_line_end(lines));
            numbers.add(line, number)?;
            number += 1;
            lines = later;
        }
        Ok(numbers)
    }

    /// Adds a token or a line of these bytes.
    fn add(&mut self, bytes: &'s [u8], number: u32) -> Result<(), Memory>
        ensures { OnOk result ((other : List ℕ) → listed_with self.new other
            ≡ (if bytes_eq other bytes.now then listed_with self.old other ++ number ∷ [] else listed_with self.old other)) }
    {
        self.lists.entry(bytes)?.or_default().push(number)?;
        Ok(())
    }

    /// The numbers of those of these bytes, rising.
    pub(crate) fn with(&self, bytes: &[u8]) -> &[u32]
        ensures { result.now ≡ listed_with self.now bytes.now }
    {
        match self.lists.get(bytes) {
            Some(list) => list.as_slice(),
            None => &[],
        }
    }
}
