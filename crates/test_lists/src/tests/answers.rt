//! How texts of lines are answered.

ghost use Rattle.std.specs.Prelude.{◌≡◌, ◌==◌, ◌&&◌, ◌%◌, ◌-◌, length, take};
ghost use Rattle.std.specs.List.{list_any};

use reduce_core::Test;

/// The same answer to each text.
#[derive(Drop)]
pub struct Always(pub bool);

impl Test for Always {
    ghost verdict = { λ always text. always.0 };

    fn test(&self, text: &[u8]) -> bool {
        let _ = text;
        self.0
    }
}

/// Yes where both bytes occur.
#[derive(Drop)]
pub struct HasBoth(pub u8, pub u8);

impl Test for HasBoth {
    ghost verdict = { λ has text. list_any (λ byte. byte == has.0) text && list_any (λ byte. byte == has.1) text };

    fn test(&self, text: &[u8]) -> bool {
        text.contains(&self.0) && text.contains(&self.1)
    }
}

/// Yes where a newline is followed by something, so that there are two lines or more.
#[derive(Drop)]
pub struct TwoLines;

impl Test for TwoLines {
    ghost verdict = { λ two text. list_any (λ byte. byte == 10) (take (length text - 1) text) };

    fn test(&self, text: &[u8]) -> bool {
        text[..text.len().saturating_sub(1)].contains(&b'\n')
    }
}

/// Yes where the number of bytes has this remainder by 3, so that a shorter text may be no and a
/// still shorter one yes again.
#[derive(Drop)]
pub struct Remainder(pub usize);

impl Test for Remainder {
    ghost verdict = { λ remainder text. (length text % 3) == remainder.0 };

    fn test(&self, text: &[u8]) -> bool {
        text.len() % 3 == self.0
    }
}
