//! How a command ends: what it puts on `out`, and its status.

ghost use Rattle.std.specs.Prelude.{MatchResult};
ghost use Rattle.command_ends.specs.Status.{EndsRefused, EndsWithAnswer};
ghost use Rattle.command_ends.specs.World.{OnePut, seen};

use crate::status::Refusal;
use edge_io::Sink;

/// How a call of the program ended.
#[derive(Drop)]
pub struct Ended<J> {
    /// The status that the program ends with.
    pub status: u8,
    /// The journal, as it is then.
    pub journal: J,
}

/// Puts the line of a refusal, in one put, and gives its status, which is the same where the line can't be put.
pub fn end_refused<O: Sink>(out: &mut O, refusal: &Refusal) -> u8
    ensures ends { EndsRefused (seen O.put_so_far O.faults out.old) (seen O.put_so_far O.faults out.new) result refusal.now }
    ensures one_put { OnePut (O.puts out.old) (O.puts out.new) }
{
    let (status, line) = refusal.ending();
    let _ = out.put(line.as_bytes());
    status
}

/// Ends a command that puts its answer on `out`, in one put. Where that fails nothing follows.
pub fn end_with<O: Sink>(out: &mut O, outcome: &Result<Vec<u8>, Refusal>) -> u8
    ensures ends { MatchResult outcome.now
        (λ answer. EndsWithAnswer answer.items (seen O.put_so_far O.faults out.old) (seen O.put_so_far O.faults out.new) result)
        (λ refusal. EndsRefused (seen O.put_so_far O.faults out.old) (seen O.put_so_far O.faults out.new) result refusal) }
    ensures one_put { OnePut (O.puts out.old) (O.puts out.new) }
{
    match outcome {
        Ok(answer) if out.put(answer).is_ok() => 0,
        Ok(_) => Refusal::CannotWrite.ending().0,
        Err(refusal) => end_refused(out, refusal),
    }
}
