use std::fmt;

/// A word as a shell takes it: between quotes, where it has other characters than those of plain names.
#[derive(Clone, Copy, Debug)]
pub struct Quoted<'a>(pub &'a str);

/// Whether a shell takes the byte as it is.
fn is_plain(byte: u8) -> bool {
    byte.is_ascii_alphanumeric() || b"_-./+,:@%".contains(&byte)
}

impl fmt::Display for Quoted<'_> {
    fn fmt<W: fmt::Write>(&self, f: &mut fmt::Formatter<W>) -> fmt::Result {
        if !self.0.is_empty() && self.0.as_bytes().iter().all(|byte| is_plain(*byte)) {
            return f.write_str(self.0);
        }
        f.write_str("'")?;
        for character in self.0.chars() {
            if character == '\'' {
                f.write_str("'\\''")?;
            } else {
                f.write_char(character)?;
            }
        }
        f.write_str("'")
    }
}
