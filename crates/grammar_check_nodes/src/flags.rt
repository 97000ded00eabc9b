//! Tables of flags.

ghost use Rattle.std.specs.Prelude.{◌≡◌};
ghost use Rattle.grammar_check_nodes.specs.Flags.{flag};

/// What a table says of a number; false past its end.
pub fn is_flagged(flags: &[bool], number: u32) -> bool
    ensures { result ≡ flag flags.now number }
{
    flags.get(number as usize).copied().unwrap_or(false)
}
