//! The numbers of kept tokens.

ghost use Rattle.std.specs.Prelude.{◌↔◌, ◌+◌, ◌<◌, IsTrue, length, map, slice_index};
ghost use Rattle.lexer.specs.Tokens.{token_of};
ghost use Rattle.token_print.specs.Kept.{AreKept};

use lexer::Tokens;

/// Whether the number at the index is below the bound, and below the one after it.
fn is_next(bound: usize, kept: &[u32], index: usize) -> bool
    requires { index < length kept.now }
    ensures { IsTrue result ↔ ((slice_index kept.now index < bound)
        × (index + 1 < length kept.now → slice_index kept.now index < slice_index kept.now (index + 1))) }
{
    let number = kept[index];
    let rises = index + 1 >= kept.len() || number < kept[index + 1];
    (number as usize) < bound && rises
}

/// Whether the numbers are those of tokens and rise strictly, as [`print`](crate::print) and
/// [`keeps_tokens`](crate::keeps_tokens) ask of them.
pub fn are_kept(tokens: &Tokens, kept: &[u32]) -> bool
    ensures { IsTrue result ↔ AreKept (map token_of tokens.now.items.items) kept.now }
{
    let bound = tokens.items.len();
    for index in 0..kept.len() {
        if !is_next(bound, kept, index) {
            return false;
        }
    }
    true
}
