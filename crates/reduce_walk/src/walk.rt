//! What walks a tree.

ghost use Rattle.std.specs.Prelude.{◌≡◌, Some, IfOk, IsSome, OnErr, OnOk, option_map};
ghost use Rattle.std.specs.List.Sorted.{IsStrictlyIncreasing};
ghost use Rattle.normal_form.specs.declared.normal.Sym.{Sym};
ghost use Rattle.normal_form.specs.Form.{NormalForm};
ghost use Rattle.reduce_rounds.specs.Trials.{Done, Trials, is_done, state_after, tried_state, trials_after};
ghost use Rattle.syntax_tree.specs.Left.{IsRemainderOf};
ghost use Rattle.syntax_tree.specs.Nodes.{SyntaxTree, whole};
ghost use Rattle.syntax_tree.specs.Trees.{PlainTree, leaves};
ghost use Rattle.syntax_tree.specs.Valid.{IsTreeFor};
ghost use Rattle.reduce_walk.specs.Rounds.{RoundsKeepTrees, RoundsLoseLeaves, RoundsTryEdits};

use faults::Memory;

/// What is left of a parsed tree, and what a round still tries of it.
///
/// A new one has the whole tree left, and tries nothing. After an error nothing more is tried.
pub trait TreeWalk {
    /// What a round tries of a tree for a symbol of a normal form.
    ghost round: { NormalForm → Sym → PlainTree → Trials PlainTree };

    /// The edits of a tree for a symbol that a round tries each by itself, if all its answers are no.
    ghost IsEdit: { NormalForm → Sym → PlainTree → PlainTree → Type 0 };

    /// The parsed tree.
    ghost tree: { Self → SyntaxTree };

    /// What is left of it: the last yes.
    ghost left: { Self → PlainTree };

    /// What the present round still tries.
    ghost rest: { Self → Trials PlainTree };

    /// Whether nothing more is tried.
    fn is_over(&self) -> bool
        ensures { result ≡ is_done (rest self.now) };

    /// The tokens of the tree that is tried now, by their numbers, which rise.
    fn tried_tokens(&self) -> Result<Vec<u32>, Memory>
        requires { IsSome (tried_state (rest self.now)) }
        ensures tokens { IfOk result (λ tokens. option_map leaves (tried_state (rest self.now)) ≡ Some tokens.items) }
        ensures rising { IfOk result (λ tokens. IsStrictlyIncreasing tokens.items) };

    /// The tree that is tried now is one for the start symbol, and left of the whole tree: a caller
    /// calls this so that its proof knows.
    fn tries_kept(&self)
        ensures fits { (tried : PlainTree) → tried_state (rest self.now) ≡ Some tried → IsTreeFor (tree self.now).form (tree self.now).start tried }
        ensures left { (tried : PlainTree) → tried_state (rest self.now) ≡ Some tried → IsRemainderOf (whole (tree self.now)) tried };

    /// The tokens of what is left, where nothing more is tried, by their numbers, which rise. It is a tree
    /// for the start symbol, and left of the whole tree.
    fn left_tokens(&self) -> Result<Vec<u32>, Memory>
        requires { rest self.now ≡ Done }
        ensures tokens { IfOk result (λ tokens. tokens.items ≡ leaves (left self.now)) }
        ensures rising { IfOk result (λ tokens. IsStrictlyIncreasing tokens.items) }
        ensures fits { IsTreeFor (tree self.now).form (tree self.now).start (left self.now) }
        ensures part { IsRemainderOf (whole (tree self.now)) (left self.now) };

    /// Takes the answer to the tree that is tried now. At yes it is left.
    fn answer(&mut self, yes: bool) -> Result<(), Memory>
        requires { IsSome (tried_state (rest self.old)) }
        ensures rest { OnOk result (rest self.new ≡ trials_after (rest self.old) yes) }
        ensures left { OnOk result (left self.new ≡ state_after (left self.old) (rest self.old) yes) }
        ensures tree { tree self.new ≡ tree self.old }
        ensures spent { OnErr result (rest self.new ≡ Done) };

    /// Begins a round with what is left. What the last round still tries is given up.
    fn begin_round(&mut self) -> Result<(), Memory>
        ensures rest { OnOk result (rest self.new ≡ round (tree self.old).form (tree self.old).start (left self.old)) }
        ensures left { OnOk result (left self.new ≡ left self.old) }
        ensures tree { tree self.new ≡ tree self.old }
        ensures spent { OnErr result (rest self.new ≡ Done) };

    /// One that goes on by its own answers from the same.
    fn copy(&self) -> Result<Self, Memory>
        ensures tree { IfOk result (λ walk. tree walk ≡ tree self.now) }
        ensures left { IfOk result (λ walk. left walk ≡ left self.now) }
        ensures rest { IfOk result (λ walk. rest walk ≡ rest self.now) };

    /// Rounds try kept trees alone: trees for the symbol that are left of the whole tree.
    fn rounds_keep_trees()
        ensures { RoundsKeepTrees round };

    /// Each tree that a round tries has fewer leaves than the last that had a yes.
    fn rounds_lose_leaves()
        ensures { RoundsLoseLeaves round };

    /// A round whose answers are all no has tried each edit of its tree.
    fn rounds_try_edits()
        ensures { RoundsTryEdits round IsEdit };
}
