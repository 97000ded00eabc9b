//! What is reduced.

ghost use Rattle.std.specs.Prelude.{◌≡◌};
ghost use Rattle.run_problem.specs.Read.{start_read};

use reduce_step::TreeMode;
use reduce_trees_input::ParsedInput;

/// What is reduced.
#[derive(Drop)]
pub enum ReadProblem {
    /// The bytes of an input, by its lines.
    Lines(Vec<u8>),
    /// What is found in an input by a grammar, by its tree; how a round goes through the tree, whether
    /// the squeezed text is tried, and whether what is left is respelled.
    Tree {
        found: ParsedInput,
        mode: TreeMode,
        squeeze: bool,
        respell: bool,
    },
}

impl ReadProblem {
    /// The text that is reduced.
    pub fn start(&self) -> &[u8]
        ensures { result.now ≡ start_read self.now }
    {
        match self {
            ReadProblem::Lines(start) => start.as_slice(),
            ReadProblem::Tree { found, .. } => found.text.as_bytes(),
        }
    }
}
