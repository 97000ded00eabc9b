//! Which texts may be asked, whatever the mode.

ghost use Rattle.std.specs.Prelude.{◌↔◌, IfOk, IsTrue};

use faults::Memory;

/// What says of a text whether it may be asked.
pub trait Candidates {
    ghost use Rattle.std.specs.Prelude.{List, ℕ};

    /// The text may be asked.
    ghost IsCandidate: { Self → List ℕ → Type 0 };

    /// Whether the text may be asked.
    fn is_candidate(&self, text: &[u8]) -> Result<bool, Memory>
        ensures { IfOk result (λ is. IsTrue is ↔ IsCandidate self.now text.now) };
}
