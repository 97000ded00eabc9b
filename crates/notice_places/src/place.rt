ghost use Rattle.std.specs.Prelude.{◌≡◌};
ghost use Rattle.notice_places.specs.Place.{after_byte, first_place, is_continuation, is_newline, place_after};

/// Where a byte of a text is. Each number stays at 2^64 - 1 once it is there.
#[derive(Clone, Copy, Debug, PartialEq, Eq)]
pub struct Place {
    /// Its line, from 1.
    pub line: u64,
    /// Its column in characters, from 1.
    pub column: u64,
}

/// Whether the byte ends a line.
pub(crate) fn is_newline(byte: u8) -> bool
    ensures { result ≡ is_newline byte }
{
    byte == b'\n'
}

/// Whether the byte goes on with a character.
fn is_continuation(byte: u8) -> bool
    ensures { result ≡ is_continuation byte }
{
    128 <= byte && byte <= 191
}

impl Place {
    /// Where the byte after this byte is.
    fn after_byte(self, byte: u8) -> Place
        ensures { result ≡ after_byte self byte }
    {
        if is_newline(byte) {
            return Place {
                line: self.line.saturating_add(1),
                column: 1,
            };
        }
        if is_continuation(byte) {
            return self;
        }
        Place {
            line: self.line,
            column: self.column.saturating_add(1),
        }
    }
}

/// Where the byte after these bytes of a text is.
pub fn place_after(bytes: &[u8]) -> Place
    ensures { result ≡ place_after bytes.now }
{
    let first = Place { line: 1, column: 1 };
    bytes
        .iter()
        .fold(first, |place, byte| place.after_byte(*byte))
}
