//! Children that are counted.

ghost use Rattle.std.specs.Prelude.{◌≡◌, ◌≤◌, ◌<◌, ◌+◌, ◌^◌, ◌++◌, ℕ, List, option_to_list};
ghost use Rattle.syntax_tree_cut.specs.inner.Children.{HasSeen};

/// Of children that were gone through, how many there are, and whether one with a certain number is
/// among them.
#[derive(Clone, Copy)]
pub(crate) struct Seen {
    pub(crate) count: u32,
    pub(crate) found: bool,
}

/// The same with one more child, where there is one.
pub(crate) fn with_occupant(seen: Seen, occupant: Option<u32>, child: u32) -> Seen
    requires { seen.count + 1 < 2 ^ 32 }
    ensures seen { (done : List ℕ) → HasSeen done child seen → HasSeen (done ++ option_to_list occupant) child result }
    ensures few { result.count ≤ seen.count + 1 }
{
    match occupant {
        Some(number) => Seen {
            count: seen.count + 1,
            found: seen.found || number == child,
        },
        None => seen,
    }
}
