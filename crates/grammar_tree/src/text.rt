//! Texts.

ghost use Rattle.std.specs.Prelude.{◌≡◌, ◌↔◌, IsTrue, IfOk};
ghost use Rattle.std.specs.Str.{chars};

use faults::Memory;
use std::alloc::Global;
use std::fmt;
use std::marker::Model;

/// A text: a name, or what is between the quotes of a literal. Contracts see its characters.
#[derive(Debug, Drop)]
pub struct Text {
    text: String,
}

impl Model for Text {
    ghost use Rattle.std.specs.Prelude.{List, ℕ, string_bytes};
    ghost use Rattle.std.specs.Str.{chars};

    ghost Value = { List ℕ };

    ghost view = { λ t. chars (string_bytes t.text) };
}

impl Text {
    /// A text with the characters of `text`.
    pub fn new(alloc: Global, text: &str) -> Result<Text, Memory>
        ensures { IfOk result (λ t. t ≡ chars text.now) }
    {
        Ok(Text {
            text: String::from_str(alloc, text)?,
        })
    }

    /// An equal text.
    pub fn copy(&self) -> Result<Text, Memory>
        ensures { IfOk result (λ t. t ≡ self.now) }
    {
        let text = self.text.clone()?;
        Ok(Text { text })
    }

    pub fn as_str(&self) -> &str
        ensures { chars result.now ≡ self.now }
    {
        self.text.as_str()
    }

    /// Whether the two texts are equal.
    pub fn is(&self, other: &Text) -> bool
        ensures { IsTrue result ↔ (self.now ≡ other.now) }
    {
        self.text.as_str() == other.text.as_str()
    }
}

/// The characters, as they are.
impl fmt::Display for Text {
    ghost use Rattle.std.specs.Prelude.{Some, encode_utf8_all};

    ghost output = { λ text. Some (encode_utf8_all text) };

    fn fmt<W: fmt::Write>(&self, f: &mut fmt::Formatter<W>) -> fmt::Result {
        f.write_str(self.as_str())
    }
}
