//! The numbers of a journal.

ghost use Rattle.std.specs.Prelude.{◌≡◌, ◌≤◌, IfOk};
ghost use Rattle.reduce_journal.specs.inner.Reading.{Gives, after, digits_from, number_at, positive_at, with_digit};

/// Why what is looked for isn't at the front of some bytes.
#[derive(Clone, Copy, Debug, PartialEq, Eq)]
pub(crate) enum Mismatch {
    /// The bytes end too early, and more of them could make it right.
    Torn,
    /// No more bytes can make it right.
    Bad,
}

/// The bytes after this byte.
pub(crate) fn after(byte: u8, bytes: &[u8]) -> Result<&[u8], Mismatch>
    ensures { Gives (λ rest. rest.now) result (after byte bytes.now) }
{
    match bytes {
        [] => Err(Mismatch::Torn),
        [first, rest @ ..] => {
            if *first == byte {
                Ok(rest)
            } else {
                Err(Mismatch::Bad)
            }
        }
    }
}

/// The number from 0 to `greatest` that these bytes begin with, and what follows the newline after it.
#[tactic(auto, unfolding(crate::specs::inner::Reading::number_at))]
pub(crate) fn number_at(greatest: u64, bytes: &[u8]) -> Result<(u64, &[u8]), Mismatch>
    ensures { Gives (λ found. (found.0, found.1.now)) result (number_at greatest bytes.now) }
{
    match bytes {
        [] => Err(Mismatch::Torn),
        [b'0', rest @ ..] => {
            let rest = after(b'\n', rest)?;
            Ok((0, rest))
        }
        [_, ..] => positive_at(greatest, bytes),
    }
}

/// The number from 1 to `greatest` that these bytes begin with, and what follows the newline after it.
#[tactic(auto, unfolding(crate::specs::inner::Reading::positive_at))]
pub(crate) fn positive_at(greatest: u64, bytes: &[u8]) -> Result<(u64, &[u8]), Mismatch>
    ensures { Gives (λ found. (found.0, found.1.now)) result (positive_at greatest bytes.now) }
{
    match bytes {
        [] => Err(Mismatch::Torn),
        [b'0', ..] => Err(Mismatch::Bad),
        [first, rest @ ..] => {
            let number = with_digit(greatest, 0, *first)?;
            digits_from(greatest, number, rest)
        }
    }
}

/// The number whose digits go on with these bytes, and what follows the newline after it.
fn digits_from(greatest: u64, number: u64, bytes: &[u8]) -> Result<(u64, &[u8]), Mismatch>
    requires { number ≤ greatest }
    ensures { Gives (λ found. (found.0, found.1.now)) result (digits_from greatest number bytes.now) }
{
    let mut number = number;
    for (index, byte) in bytes.iter().enumerate() {
        if *byte == b'\n' {
            return Ok((number, &bytes[index + 1..]));
        }
        number = with_digit(greatest, number, *byte)?;
    }
    Err(Mismatch::Torn)
}

/// The number with one more digit, if this byte is one and the number is at most `greatest`.
#[tactic(auto, unfolding(crate::specs::inner::Reading::with_digit))]
fn with_digit(greatest: u64, number: u64, byte: u8) -> Result<u64, Mismatch>
    requires { number ≤ greatest }
    ensures value { result ≡ with_digit greatest number byte }
    ensures most { IfOk result (λ number. number ≤ greatest) }
{
    if !byte.is_ascii_digit() {
        return Err(Mismatch::Bad);
    }
    let digit = u64::from(byte - b'0');
    if number > greatest / 10 || digit > greatest - number * 10 {
        return Err(Mismatch::Bad);
    }
    Ok(number * 10 + digit)
}
