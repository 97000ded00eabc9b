//! The check of a finished run from its files: what was reduced and how, its output, and its journal.
//! No script is run and no thread is used.
//!
//! Enter by [`check_run`]; read `specs/Findings.antt` first, what is found, and then `specs/Setup.antt`,
//! what a run is checked against. The causes why files aren't confirmed are tested in the order of
//! [`Why`], and one thing alone is found ([`one_is_found`]). The files of each run that came to its end
//! are confirmed ([`finished_runs_are_confirmed`]); what is confirmed is a reduction over the recorded
//! verdicts, and minimal ([`confirmed_are_reductions`]). Which script gave the verdicts isn't checked.
//!
//! The reducer of the run is answered by the commits of the journal (`replayed`), and goes on from there
//! over the records (`following`). The records that it asks are marked (`asked`). Any other is tested for
//! itself (`candidates`, and the crate `cert_check_texts`).
//!
//! It costs what the answers cost that the reducer is given, which may be many more than there are
//! records; and for each event and each answer a look into a table of the records. For each record that
//! the reducer doesn't ask its text is tested: by lines it is compared with those of the start; by a
//! grammar it is cut into tokens, compared with prints of the start, and parsed.
#![tactic(auto)]

mod asked;
mod candidates;
mod check;
mod finding;
mod following;
mod laws;
mod replayed;
mod setup;

pub use check::check_run;
pub use faults::Memory;
pub use finding::{Finding, Why};
pub use laws::{
    confirmed_are_reductions, finished_runs_are_confirmed, legal_histories_follow, one_is_found,
    reducers_are_reductions, reducers_ask_candidates,
};
pub use setup::Setup;
