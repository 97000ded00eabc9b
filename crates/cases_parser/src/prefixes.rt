//! Comparison of the longest beginnings of lists with plain ones.

use anyhow::{Result, bail};
use chart_parser_prefix::{LongestPrefix, longest_prefix};
use normal_form::{Normal, Sym};
use std::alloc::Global;

/// How many kinds an answer names at most.
const MOST: usize = 8;

/// A normal form, how many kinds it has, and all lists of them up to a length that have a tree.
#[derive(Clone, Copy)]
pub(crate) struct Derived<'a> {
    pub(crate) alloc: Global,
    pub(crate) normal: &'a Normal,
    pub(crate) kinds: usize,
    pub(crate) lists: &'a [Vec<u32>],
}

impl Derived<'_> {
    /// Whether the list has a tree.
    fn is_derived(&self, list: &[u32]) -> bool {
        for derived in self.lists {
            if derived.as_slice() == list {
                return true;
            }
        }
        false
    }

    /// Whether a list that has a tree begins with this one.
    fn is_viable(&self, list: &[u32]) -> bool {
        for derived in self.lists {
            if derived.as_slice().starts_with(list) {
                return true;
            }
        }
        false
    }

    /// How many kinds the longest viable beginning of the list has.
    fn longest(&self, list: &[u32]) -> Option<usize> {
        let mut longest = None;
        for length in 0..=list.len() {
            if self.is_viable(&list[..length]) {
                longest = Some(length);
            }
        }
        longest
    }

    /// The kinds that can follow the list, rising.
    fn following(&self, list: &[u32]) -> Result<Vec<u32>> {
        let mut longer = Vec::from_slice(self.alloc, list)?;
        let mut following = Vec::new(self.alloc);
        let mut kind: u32 = 0;
        for _ in 0..self.kinds {
            longer.push(kind)?;
            if self.is_viable(&longer) {
                following.push(kind)?;
            }
            let _ = longer.pop();
            kind = kind.saturating_add(1);
        }
        Ok(following)
    }

    /// Whether the answer is right for a list whose longest viable beginning is this one.
    fn is_right(&self, viable: &[u32], answer: &LongestPrefix) -> Result<bool> {
        let following = self.following(viable)?;
        let named = if following.len() < MOST {
            following.len()
        } else {
            MOST
        };
        Ok(
            answer.length as usize == viable.len()
                && answer.may_end == self.is_derived(viable)
                && answer.next.as_slice() == &following[..named]
                && answer.has_more == (following.len() > MOST),
        )
    }

    /// Whether the answer is right for the list.
    fn is_same(&self, list: &[u32], answer: &Option<LongestPrefix>) -> Result<bool> {
        match (self.longest(list), answer) {
            (Some(length), Some(answer)) if length <= list.len() => {
                self.is_right(&list[..length], answer)
            }
            (None, None) => Ok(true),
            _ => Ok(false),
        }
    }

    /// Compares the answers for a list. The answer is whether it is viable.
    fn compare(&self, list: &[u32]) -> Result<bool> {
        if list.len() > u32::MAX as usize {
            bail!("there are too many kinds");
        }
        let start = Sym::Rule(self.normal.start());
        let answer = longest_prefix(self.alloc, self.normal, start, list)?;
        if !self.is_same(list, &answer)? {
            bail!("of {list:?} the longest beginning is another one");
        }
        Ok(self.is_viable(list))
    }

    /// Compares the answers for the lists, and says how many of them are viable.
    pub(crate) fn viable_count(&self, lists: &[Vec<u32>]) -> Result<u64> {
        let mut viable: u64 = 0;
        for list in lists {
            if self.compare(list)? {
                viable = viable.saturating_add(1);
            }
        }
        Ok(viable)
    }
}
