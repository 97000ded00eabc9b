//! The words that the program is run with.

use std::env::FillError;
use std::io::ErrorKind;
use std::rt::Env;
use std::{env, io};

/// An environment whose word 0, the program's own path, is empty: that word isn't looked at, and it
/// need not be text.
#[derive(Drop)]
struct WithoutPath<'a, R> {
    rt: &'a R,
}

impl<R: Env> Env for WithoutPath<'_, R> {
    fn arg(&self, i: usize, buf: &mut [u8]) -> Result<usize, FillError> {
        if i == 0 { Ok(0) } else { self.rt.arg(i, buf) }
    }

    fn var(&self, name: &str, buf: &mut [u8]) -> Result<usize, FillError> {
        self.rt.var(name, buf)
    }

    fn var_at(&self, i: usize, buf: &mut [u8]) -> Result<usize, FillError> {
        self.rt.var_at(i, buf)
    }
}

/// The words of the command line. Where one of them is no text, there are none, which are no command
/// line.
pub fn words_of<R: Env + AllocGlobal>(rt: &R) -> io::Result<Vec<String>> {
    match env::args(&(WithoutPath { rt }, rt.alloc())) {
        Ok(words) => Ok(words.collect(rt.alloc())?),
        Err(error) if error.kind() == ErrorKind::OutOfMemory => Err(error),
        Err(_) => Ok(Vec::new(rt.alloc())),
    }
}
