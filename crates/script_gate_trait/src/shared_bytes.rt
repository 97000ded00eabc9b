ghost use Rattle.std.specs.Prelude.{◌≡◌, ◌≤◌, ◌==◌, [], ◌∷◌, ◌++◌, length, slice_range, IfOk, OnOk, OnErr};

use bytes::Bytes as SharedBytes;
use faults::Memory;
use std::alloc::Global;
use std::marker::Model;

/// A list of bytes that doesn't change, so that several owners can share it. A clause sees it as the list
/// of its numbers.
#[derive(Drop)]
pub struct Bytes {
    items: SharedBytes,
}

impl Model for Bytes {
    ghost use Rattle.std.specs.Prelude.{ℕ, List};

    ghost Value = { List ℕ };

    ghost view = { λ bytes. bytes.items };
}

impl Bytes {
    /// A copy of these bytes.
    pub fn from_slice(alloc: Global, items: &[u8]) -> Result<Bytes, Memory>
        ensures { IfOk result (λ bytes. bytes ≡ items.now) }
    {
        Ok(Bytes {
            items: SharedBytes::copy_from_slice(alloc, items)?,
        })
    }

    /// These bytes, which aren't copied.
    pub fn from_vec(items: Vec<u8>) -> Result<Bytes, Memory>
        ensures { IfOk result (λ bytes. bytes ≡ items.items) }
    {
        Ok(Bytes {
            items: SharedBytes::from_vec(items)?,
        })
    }

    /// The bytes from `start` up to but not including `end`, which aren't copied: they share those of
    /// this list, and all of these stay in memory as long as one part does. It takes no memory, and fails
    /// only where a list has more owners than can be counted.
    pub fn part(&self, start: usize, end: usize) -> Result<Bytes, Memory>
        requires order { start ≤ end }
        requires within { end ≤ length self.now }
        ensures { IfOk result (λ bytes. bytes ≡ slice_range self.now start end) }
    {
        Ok(Bytes {
            items: self.items.slice(start..end)?,
        })
    }

    /// Another owner of the same bytes, which aren't copied. It takes no memory, and fails only where a
    /// list has more owners than can be counted.
    pub fn share(&self) -> Result<Bytes, Memory>
        ensures { IfOk result (λ bytes. bytes ≡ self.now) }
    {
        Ok(Bytes {
            items: self.items.clone()?,
        })
    }

    /// The bytes.
    pub fn as_slice(&self) -> &[u8]
        ensures { result.now ≡ self.now }
    {
        self.items.as_slice()
    }

    /// How many bytes there are.
    pub fn len(&self) -> usize
        ensures { result ≡ length self.now }
    {
        self.items.len()
    }

    /// Whether there is none.
    pub fn is_empty(&self) -> bool
        ensures { result ≡ (length self.now == 0) }
    {
        self.items.is_empty()
    }
}

/// A list of texts, in the order in which they were added.
#[derive(Drop)]
pub struct TextList {
    texts: Vec<Bytes>,
}

impl Model for TextList {
    ghost use Rattle.std.specs.Prelude.{ℕ, List};

    ghost Value = { List (List ℕ) };

    ghost view = { λ list. list.texts.items };
}

impl TextList {
    /// No text; it takes no memory.
    pub fn new(alloc: Global) -> TextList
        ensures { result ≡ [] }
    {
        TextList {
            texts: Vec::new(alloc),
        }
    }

    /// Adds a text at the end. After an error the list is as before.
    pub fn push(&mut self, text: Bytes) -> Result<(), Memory>
        ensures ok { OnOk result (self.new ≡ self.old ++ text ∷ []) }
        ensures err { OnErr result (self.new ≡ self.old) }
    {
        self.texts.push(text)?;
        Ok(())
    }

    /// The texts in their order.
    pub fn as_slice(&self) -> &[Bytes]
        ensures { result.now ≡ self.now }
    {
        self.texts.as_slice()
    }

    /// How many texts there are.
    pub fn len(&self) -> usize
        ensures { result ≡ length self.now }
    {
        self.texts.len()
    }

    /// Whether there is none.
    pub fn is_empty(&self) -> bool
        ensures { result ≡ (length self.now == 0) }
    {
        self.texts.is_empty()
    }
}
