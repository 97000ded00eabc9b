ghost use Rattle.std.specs.Prelude.{◌≡◌, ◌≤◌, All, IsSome, IfSome, IfOk, OnOk, length};
ghost use Rattle.std.specs.Option.{option_copied};
ghost use Rattle.reduce_step.specs.Limits.{text_limit};
ghost use Rattle.reduce_step.specs.Plan.{Plan, after, asked};
ghost use Rattle.reduce_step.specs.Ahead.{ahead};

use faults::Memory;
use script_gate_trait::{Bytes, Verdict};

/// The most bytes of a text that a reducer asks.
pub const TEXT_LIMIT: usize = 1_048_576;

/// One reducer: it asks a text, is answered, and goes on from there until it asks nothing more.
pub trait Step {
    /// What it does from now on, whatever it is answered.
    ghost plan: { Self → Plan };

    /// What it did as it was made.
    ghost first: { Self → Plan };

    /// The text that it asks now; none where it has ended.
    fn asks(&self) -> Option<&[u8]>
        ensures text { option_copied result ≡ asked (plan self.now) }
        ensures short { IfSome result (λ text. length text.now ≤ text_limit) };

    /// Takes the verdict on the text that it asks. After an error the step is spent: it isn't used again.
    fn answer(&mut self, verdict: Verdict) -> Result<(), Memory>
        requires asking { IsSome (asked (plan self.old)) }
        ensures answered { OnOk result (plan self.new ≡ after (plan self.old) verdict) }
        ensures first { first self.new ≡ first self.old };

    /// The texts that it would ask in turn, beginning with the present one, if every answer were no:
    /// so many of them, and fewer only where it would end. A text that would be asked again is there
    /// again.
    fn ahead(&self, most: u32) -> Result<Vec<Bytes>, Memory>
        ensures texts { IfOk result (λ texts. texts.items ≡ ahead most (plan self.now)) }
        ensures short { IfOk result (λ texts. All (λ text. length text ≤ text_limit) texts.items) };
}
