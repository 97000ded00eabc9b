//! Literals, in quotes and with escapes.

use grammar_tree::Text;
use std::fmt;

/// A character by its number.
#[derive(Clone, Copy)]
struct Code(char);

impl fmt::Display for Code {
    ghost use Rattle.std.specs.Prelude.{Some, encode_utf8_all};
    ghost use Rattle.grammar_literal.specs.Literal.{code_of};

    ghost output = { λ c. Some (encode_utf8_all (code_of c.0)) };

    fn fmt<W: fmt::Write>(&self, f: &mut fmt::Formatter<W>) -> fmt::Result {
        let number = self.0 as u32;
        write!(f, "\\u{{{number:X}}}")
    }
}

/// A character within a literal.
#[derive(Clone, Copy)]
struct Escaped(char);

impl fmt::Display for Escaped {
    ghost use Rattle.std.specs.Prelude.{Some, encode_utf8_all};
    ghost use Rattle.grammar_literal.specs.Literal.{escaped};

    ghost output = { λ e. Some (encode_utf8_all (escaped e.0)) };

    fn fmt<W: fmt::Write>(&self, f: &mut fmt::Formatter<W>) -> fmt::Result {
        match self.0 {
            '\'' => f.write_str("\\'"),
            '\\' => f.write_str("\\\\"),
            '\n' => f.write_str("\\n"),
            '\r' => f.write_str("\\r"),
            '\t' => f.write_str("\\t"),
            ' '..='~' => write!(f, "{}", self.0),
            _ => write!(f, "{}", Code(self.0)),
        }
    }
}

/// What is between the quotes of a literal.
#[derive(Clone, Copy)]
struct Content<'a>(&'a Text);

impl fmt::Display for Content<'_> {
    ghost use Rattle.std.specs.Prelude.{Some, encode_utf8_all};
    ghost use Rattle.grammar_literal.specs.Literal.{content};

    ghost output = { λ c. Some (encode_utf8_all (content c.0.now)) };

    fn fmt<W: fmt::Write>(&self, f: &mut fmt::Formatter<W>) -> fmt::Result {
        for c in self.0.as_str().chars() {
            write!(f, "{}", Escaped(c))?;
        }
        Ok(())
    }
}

/// A literal that prints in quotes: the characters from the space to `~` as themselves, but for `\'`
/// and `\\`, and the others by escapes.
#[derive(Clone, Copy)]
pub struct PrintedLiteral<'a>(pub &'a Text);

impl fmt::Display for PrintedLiteral<'_> {
    ghost use Rattle.std.specs.Prelude.{Some};
    ghost use Rattle.grammar_literal.specs.Literal.{literal_bytes};

    ghost output = { λ p. Some (literal_bytes p.0.now) };

    fn fmt<W: fmt::Write>(&self, f: &mut fmt::Formatter<W>) -> fmt::Result {
        write!(f, "'{}'", Content(self.0))
    }
}
