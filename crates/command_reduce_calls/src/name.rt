//! The last part of a path.

ghost use Rattle.std.specs.Prelude.{◌≡◌};
ghost use Rattle.command_reduce_calls.specs.FileName.{file_name_of};

/// The part of a path after its last slash, or the whole path.
pub fn file_name_of(path: &str) -> &str
    ensures { result.now ≡ file_name_of path.entry.now }
{
    match path.rsplit_once('/') {
        Some((_, name)) => name,
        None => path,
    }
}
