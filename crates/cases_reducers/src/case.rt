//! What the questions after it are about.

use crate::{decoded, number_of};
use std::alloc::{AllocError, Global};
use test_grammars::grammars::{MINI, STATEMENTS};

/// What the questions after it are about.
#[derive(Drop)]
pub struct Case {
    /// The name or the text of the grammar.
    grammar: String,
    /// The keep texts.
    pub keeps: Vec<Vec<u8>>,
    /// The number of the line of the start that stays, from 0, if one does.
    pub stays: Option<u32>,
}

impl Case {
    /// No grammar, no keep text, and no line that stays.
    pub fn new(alloc: Global) -> Case {
        Case {
            grammar: String::new(alloc),
            keeps: Vec::new(alloc),
            stays: None,
        }
    }

    /// The text of the grammar.
    pub fn grammar(&self) -> &str {
        match self.grammar.as_str() {
            "Mini" => MINI,
            "Statements" => STATEMENTS,
            text => text,
        }
    }

    /// Whether the line is a setting, which is made.
    pub fn set(&mut self, alloc: Global, word: &str, text: &str) -> Result<bool, AllocError> {
        match word {
            "case" => *self = Case::new(alloc),
            "grammar" => self.grammar = String::from_str(alloc, text)?,
            "keep" => self.keeps.push(decoded(alloc, text)?)?,
            "stays" => self.stays = Some(number_of(text)),
            _ => return Ok(false),
        }
        Ok(true)
    }
}
