//! The text that remains to be read.

ghost use Rattle.std.specs.Prelude.{◌≡◌, ◌<◌, ◌≤◌, ◌||◌, ◌==◌, ℕ, length, take, drop, IfSome};
ghost use Rattle.std.specs.Str.{chars};
ghost use Rattle.std.specs.List.{prefix_len};
ghost use Rattle.std.specs.Char.{is_ascii_digit, is_ascii_hexdigit, is_ascii_alphabetic};
ghost use Rattle.grammar_reader_words.specs.Cursor.{uncons, seen};
ghost use Rattle.grammar_reader_words.specs.Names.{is_part};
ghost use Rattle.grammar_reader_words.specs.Quoted.{begins};
ghost use Rattle.grammar_reader_words.specs.Words.{is_blank, is_on_line};

/// The first character, and what follows it.
pub fn first_char(text: &str) -> Option<(char, &str)>
    ensures same { seen result ≡ uncons (chars text.now) }
    ensures shorter { IfSome result (λ p. length p.1.now < length text.now) }
{
    let mut rest = text.chars();
    match rest.next() {
        None => None,
        Some(c) => Some((c, rest.as_str())),
    }
}

/// Whether the text begins with the character.
pub fn begins_with(text: &str, wanted: char) -> bool
    ensures { result ≡ begins (λ c. c == wanted) (chars text.now) }
{
    match first_char(text) {
        None => false,
        Some((c, _)) => c == wanted,
    }
}

pub fn begins_with_letter(text: &str) -> bool
    ensures { result ≡ begins is_ascii_alphabetic (chars text.now) }
{
    match first_char(text) {
        None => false,
        Some((c, _)) => c.is_ascii_alphabetic(),
    }
}

/// The text without its first `n` characters.
pub fn skip(text: &str, n: usize) -> &str
    ensures same { chars result.now ≡ drop n (chars text.now) }
    ensures fits { length result.now ≤ length text.now }
{
    let mut rest = text;
    let mut remaining = n;
    while remaining > 0 {
        match first_char(rest) {
            None => return rest,
            Some((_, after)) => rest = after,
        }
        remaining -= 1;
    }
    rest
}

/// A character within a name: an ASCII letter, a digit, or `_`.
pub fn is_part(c: char) -> bool
    ensures { result ≡ is_part c }
{
    c.is_ascii_alphanumeric() || c == '_'
}

/// How many characters of a name the text begins with.
pub fn name_len(text: &str) -> usize
    ensures { result ≡ prefix_len is_part (chars text.now) }
{
    text.chars().take_while(|c| is_part(*c)).count()
}

pub fn digits_len(text: &str) -> usize
    ensures { result ≡ prefix_len is_ascii_digit (chars text.now) }
{
    text.chars().take_while(|c| c.is_ascii_digit()).count()
}

pub fn hex_len(text: &str) -> usize
    ensures { result ≡ prefix_len is_ascii_hexdigit (chars text.now) }
{
    text.chars().take_while(|c| c.is_ascii_hexdigit()).count()
}

/// How many characters are before the end of the line.
pub fn line_len(text: &str) -> usize
    ensures { result ≡ prefix_len is_on_line (chars text.now) }
{
    text.chars().take_while(|c| *c != '\n').count()
}
