//! Keep texts: bytes that have to occur in a candidate.

ghost use Rattle.std.specs.Prelude.{◌≡◌, ◌<◌, ◌+◌, ◌^◌, IfSome, OnErr, OnOk, ◌++◌, ◌∷◌, []};
ghost use Rattle.keep_guard.specs.Keep.{first_missing, holds_all, occurs};

use crate::guard::Relation;
use faults::Memory;
use memchr::memmem::Finder;
use std::alloc::Global;
use std::marker::Model;

/// Keep texts, each with its searcher, which is made once.
#[derive(Drop)]
pub struct KeepTexts<'a> {
    searchers: Vec<Finder<'a>>,
}

impl<'a> Model for KeepTexts<'a> {
    ghost use Rattle.std.specs.Prelude.{List, ℕ};

    ghost Value = { List (List ℕ) };

    ghost view = { λ keeps. keeps.searchers.items };
}

impl<'a> KeepTexts<'a> {
    /// No keep texts.
    pub fn new(alloc: Global) -> KeepTexts<'a>
        ensures { result ≡ [] }
    {
        KeepTexts {
            searchers: Vec::new(alloc),
        }
    }

    /// Adds a keep text after the others. After `Memory` they are as before.
    pub fn push(&mut self, keep: &'a [u8]) -> Result<(), Memory>
        ensures pushed { OnOk result (self.new ≡ self.old ++ keep.now ∷ []) }
        ensures kept { OnErr result (self.new ≡ self.old) }
    {
        self.searchers.push(Finder::new(keep))?;
        Ok(())
    }

    /// The first keep text that doesn't occur in the text, by its index from 0; none where each of
    /// them occurs.
    pub fn first_missing(&self, text: &[u8]) -> Option<usize>
        ensures missing { result ≡ first_missing self.now text.now }
        ensures within { IfSome result (λ k. k + 1 < 2 ^ 64) }
    {
        for k in 0..self.searchers.len() {
            if !occurs(&self.searchers[k], text) {
                return Some(k);
            }
        }
        None
    }
}

/// Whether the bytes that this is the searcher of occur in the text.
fn occurs(keep: &Finder<'_>, text: &[u8]) -> bool
    ensures { result ≡ occurs keep.now text.now }
{
    keep.find(text).is_some()
}

/// Whether each keep text occurs in the text. It takes no memory, and for each keep text time linear
/// in the text.
pub fn holds_all(text: &[u8], keeps: &KeepTexts<'_>) -> bool
    ensures { result ≡ holds_all keeps.now text.now }
{
    keeps.first_missing(text).is_none()
}

/// The relation of keep texts: each of them occurs in the text, whatever numbers are kept.
impl<'a> Relation for KeepTexts<'a> {
    ghost use Rattle.keep_guard.specs.Keep.{keeps_admit};

    ghost admits = { keeps_admit };

    fn answer(&self, _kept: &[u32], text: &[u8]) -> bool {
        holds_all(text, self)
    }
}
