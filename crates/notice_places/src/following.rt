//! What can't follow a beginning of an input, and what can.

use chart_parser_prefix::LongestPrefix;
use grammar_tree::{Kind, KindSource};
use std::fmt;

/// A kind of tokens by its name, a literal in quotes as in a grammar.
#[derive(Clone, Copy)]
struct KindName<'a>(&'a Kind);

/// A character of a literal.
fn put_escaped<W: fmt::Write>(f: &mut fmt::Formatter<W>, character: char) -> fmt::Result {
    match character {
        '\'' | '\\' => write!(f, "\\{character}"),
        _ if character.is_control() => write!(f, "{}", character.escape_default()),
        _ => f.write_char(character),
    }
}

impl fmt::Display for KindName<'_> {
    fn fmt<W: fmt::Write>(&self, f: &mut fmt::Formatter<W>) -> fmt::Result {
        let name = self.0.name.as_str();
        if self.0.source != KindSource::Implicit {
            return f.write_str(name);
        }
        f.write_str("'")?;
        for character in name.chars() {
            put_escaped(f, character)?;
        }
        f.write_str("'")
    }
}

/// Where an input stops being one of a grammar.
#[derive(Clone, Copy)]
pub(crate) struct Stop<'a> {
    /// The grammar's kinds, each at its number.
    pub(crate) kinds: &'a [Kind],
    /// The kind of the first token that can't follow; none at the input's end.
    pub(crate) kind: Option<u32>,
    /// The tokens before it, and what can follow them.
    pub(crate) prefix: &'a LongestPrefix,
}

impl Stop<'_> {
    /// What can follow, one after another.
    fn put_following<W: fmt::Write>(&self, f: &mut fmt::Formatter<W>) -> fmt::Result {
        let mut between = "";
        if self.prefix.may_end {
            f.write_str("the end")?;
            between = ", ";
        }
        for number in &self.prefix.next {
            if let Some(kind) = self.kinds.get(*number as usize) {
                write!(f, "{between}{}", KindName(kind))?;
                between = ", ";
            }
        }
        if self.prefix.has_more {
            f.write_str(", and others")?;
        }
        Ok(())
    }
}

impl fmt::Display for Stop<'_> {
    fn fmt<W: fmt::Write>(&self, f: &mut fmt::Formatter<W>) -> fmt::Result {
        let kind = match self.kind {
            Some(number) => self.kinds.get(number as usize),
            None => None,
        };
        match kind {
            Some(kind) => write!(f, "{} can't be here; what can: ", KindName(kind))?,
            None => f.write_str("the end can't be here; what can: ")?,
        }
        self.put_following(f)
    }
}
