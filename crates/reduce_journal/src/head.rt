//! The head of a journal.

ghost use Rattle.std.specs.Prelude.{◌≡◌, ◌↔◌, ℕ, List, ◌++◌, Some, IsTrue, IfNone, IfSome};
ghost use Rattle.std.specs.List.{list_all};
ghost use Rattle.reduce_journal.specs.Journal.{IsDigest, IsHead, IsHeadBegun, LacksHead, head, head_text, version_of};
ghost use Rattle.reduce_journal.specs.inner.Digits.{is_lower_digit};

use crate::digest::Digest;
use arrayvec::ArrayVec;
use hex::FromHex;

/// The head of version 1.
const FIRST: &[u8] = b"perses-journal 1\n";

/// What the head of version 2 has before the digits of its digest.
const SECOND: &[u8] = b"perses-journal 2\nS ";

/// The hexadecimal digits that are written.
const DIGITS: &[u8] = b"0123456789abcdef";

/// Where the digits of a head of version 2 end.
const DIGITS_END: usize = 83;

/// What a journal begins with.
#[derive(Clone, Copy, Debug, PartialEq, Eq)]
pub enum Head {
    /// The head of version 1.
    Version1,
    /// That of version 2, with the digest of the start.
    Version2(Digest),
}

impl Head {
    /// The number of the version.
    pub(crate) fn version(&self) -> u32
        ensures { result ≡ version_of self.now }
    {
        match self {
            Head::Version1 => 1,
            Head::Version2(_) => 2,
        }
    }
}

/// The bytes of the head of version 2.
pub(crate) fn head_of(start: &Digest) -> ArrayVec<u8, 84>
    ensures { result.items ≡ head start.now }
{
    let mut digits = [0; 64];
    hex::encode_to_slice(start.bytes.as_slice(), &mut digits).unwrap();
    let mut head = ArrayVec::<u8, 84>::new();
    head.try_extend_from_slice(SECOND).unwrap();
    head.try_extend_from_slice(digits.as_slice()).unwrap();
    head.push(b'\n');
    head
}

/// The digest whose digits are where those of a head of version 2 are, in lower or upper case.
fn digest_at(bytes: &[u8]) -> Option<Digest>
    ensures digest { IfSome result IsDigest }
    ensures each { (start : Digest) (rest : List ℕ) → IsDigest start → bytes.now ≡ head start ++ rest → result ≡ Some start }
{
    let digits = bytes.get(SECOND.len()..DIGITS_END)?;
    let bytes = <[u8; 32] as FromHex>::from_hex(digits).ok()?;
    Some(Digest { bytes })
}

/// The head that these bytes begin with, and the bytes after it.
pub(crate) fn head_at(bytes: &[u8]) -> Option<(Head, &[u8])>
    ensures found { IfSome result (λ found. IsHead found.0 × (bytes.now ≡ head_text found.0 ++ found.1.now)) }
    ensures none { IfNone result (LacksHead bytes.now) }
{
    if let Some(rest) = bytes.strip_prefix(FIRST) {
        return Some((Head::Version1, rest));
    }
    let start = digest_at(bytes)?;
    let head = head_of(&start);
    let rest = bytes.strip_prefix(head.as_slice())?;
    Some((Head::Version2(start), rest))
}

/// Whether these bytes are the beginning of a head, and not all of it.
pub fn is_head_begun(bytes: &[u8]) -> bool
    ensures { IsTrue result ↔ IsHeadBegun bytes.now }
{
    match bytes.strip_prefix(SECOND) {
        Some(digits) => bytes.len() <= DIGITS_END && are_digits(digits),
        None => {
            SECOND.starts_with(bytes) || (bytes.len() < FIRST.len() && FIRST.starts_with(bytes))
        }
    }
}

/// Whether each byte is a hexadecimal digit as they are written.
fn are_digits(bytes: &[u8]) -> bool
    ensures { result ≡ list_all is_lower_digit bytes.now }
{
    bytes.iter().all(|byte| DIGITS.contains(byte))
}
