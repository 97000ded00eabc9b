//! What files of the machine hold.

use std::fs;
use std::rt::Files;

/// Whether the file of this name is there and holds exactly this text. It is read whole; where it can't be,
/// the answer is no. No clause can say what a file of the machine holds.
pub(crate) fn holds<R: Files + Alloc>(rt: &R, name: &str, text: &str) -> bool {
    match fs::read_to_string(rt, name) {
        Ok(held) => held.as_str() == text,
        Err(_) => false,
    }
}
