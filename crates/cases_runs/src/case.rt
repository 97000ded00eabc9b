//! What the questions after it are about.

use crate::journals::read;
use crate::shown::decoded;
use faults::Memory;
use std::alloc::{AllocError, Global};
use verdict_table::Kept;

/// What the questions after it are about.
#[derive(Drop)]
pub struct Case {
    /// What comes before the bytes of each question.
    pub begin: Vec<u8>,
    /// The journal whose verdicts are kept.
    resume: Vec<u8>,
    /// What is put.
    pub history: String,
}

impl Case {
    /// Nothing before the bytes, nothing kept, and nothing put.
    pub fn new(alloc: Global) -> Case {
        Case {
            begin: Vec::new(alloc),
            resume: Vec::new(alloc),
            history: String::new(alloc),
        }
    }

    /// Whether the line is a setting, which is made.
    pub fn set(&mut self, alloc: Global, word: &str, text: &str) -> Result<bool, AllocError> {
        match word {
            "case" => *self = Case::new(alloc),
            "begin" => self.begin = decoded(alloc, text)?,
            "resume" => self.resume = decoded(alloc, text)?,
            "history" => self.history = String::from_str(alloc, text)?,
            _ => return Ok(false),
        }
        Ok(true)
    }

    /// The bytes of a text, after those that come before.
    pub fn bytes(&self, alloc: Global, text: &str) -> Result<Vec<u8>, AllocError> {
        let rest = decoded(alloc, text)?;
        let mut bytes = Vec::from_slice(alloc, &self.begin)?;
        bytes.extend_from_slice(&rest)?;
        Ok(bytes)
    }

    /// The verdicts that are kept; none where no journal is resumed.
    pub fn kept(&self, alloc: Global) -> Result<Kept, Memory> {
        kept_in(alloc, &self.resume)
    }
}

/// The verdicts of a journal; none where it can't be read.
pub fn kept_in(alloc: Global, journal: &[u8]) -> Result<Kept, Memory> {
    match read(alloc, journal) {
        Ok(journal) => journal.kept(alloc),
        Err(_) => Ok(Kept::new(alloc)),
    }
}
