//! What a finished run is checked against.

use grammar_tree::Checked;
use reduce_step::TreeMode;
use script_gate_trait::Bytes;

/// What was reduced and how. Which script gave the verdicts isn't part of it.
#[derive(Drop)]
pub enum Setup {
    /// The tree of a text by a grammar: how a round goes through it, whether the squeezed text was
    /// tried, and the texts that stay in each candidate.
    Tree {
        checked: Checked,
        start: String,
        mode: TreeMode,
        squeeze: bool,
        keeps: Vec<Bytes>,
    },
    /// The lines of some bytes, and the texts that stay in each candidate.
    Lines {
        start: Bytes,
        keeps: Vec<Bytes>,
    },
}
