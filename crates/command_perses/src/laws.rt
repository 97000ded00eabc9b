//! What `check` finds of a run. A caller calls a law, which does nothing, so that its proof has it. It is
//! given for the verdicts that a gate of this type may say.

ghost use Rattle.command_perses.specs.Confirmed.{ResultsAreConfirmed};

use cert_check::finished_runs_are_confirmed;
use line_guard::nothing_is_protected;
use script_gate_trait::Gate;

/// The result and the journal of a run that came to its result are confirmed, where no lines were named
/// that must stay.
pub(crate) fn results_are_confirmed<G: Gate>()
    ensures { ResultsAreConfirmed G.may_say }
{
    finished_runs_are_confirmed();
    nothing_is_protected();
}
