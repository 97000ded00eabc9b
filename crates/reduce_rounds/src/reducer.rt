//! A step that shows what it has come to.

ghost use Rattle.std.specs.Prelude.{◌≡◌, ℕ};
ghost use Rattle.reduce_step.specs.Plan.{End, HasEnded, StepResult};
ghost use Rattle.reduce_rounds.specs.Shown.{Shows};

use reduce_step::Step;

/// A step whose result can be read: what it has come to so far, and at its end what it ends with.
/// Its text, its units and its tests go by the answers at any time (`specs/Shown.antt`).
pub trait ReducerStep: Step {
    /// What it has come to.
    ghost so_far: { Self → StepResult };

    /// How many rounds are made from the state that it asks if each later answer is no.
    ghost at_no: { Self → ℕ };

    /// The text of the last yes, at first the start.
    fn result(&self) -> &[u8]
        ensures { result.now ≡ (so_far self.now).text };

    /// How many units (lines or tokens) the result has.
    fn units(&self) -> u64
        ensures { result ≡ (so_far self.now).units };

    /// How many listed states were tried, the start included and repeated texts each time. It stays
    /// at `u64::MAX` once it is there.
    fn used(&self) -> u64
        ensures { result ≡ (so_far self.now).used };

    /// How many rounds were made, the last one included. It stays at `u64::MAX` once it is there.
    fn rounds(&self) -> u64
        ensures { result ≡ (so_far self.now).rounds };

    /// Whether the start was answered no. `shown` says what this and `result`, `units` and `used`
    /// are at any time. A reducer that asks nothing more ends with what all five give.
    fn refused(&self) -> bool
        ensures refused { result ≡ (so_far self.now).refused }
        ensures shown { Shows (Self.plan self.now) (so_far self.now) }
        ensures ended { HasEnded (Self.plan self.now) → Self.plan self.now ≡ End (so_far self.now) };
}
