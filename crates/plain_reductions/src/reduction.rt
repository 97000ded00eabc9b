//! A plain, slow reducer of trees, for small inputs, by the definitions of a reduction, a round and a
//! list step. It answers its questions itself, by a rule of verdicts.

ghost use Rattle.std.specs.Prelude.{◌≡◌, ◌++◌, ◌∷◌, [], IfOk, OnOk, if◌then◌else◌};
ghost use Rattle.plain_reductions.specs.Verdicts.{has_yes};

use crate::list_parts::{inside, outside, part_start};
use crate::nodes::{
    LeftNode, below, children, deleted, level, placed, replaced, tokens, whole_tree,
};
use crate::texts::listed_text;
use crate::verdicts::VerdictRule;
use compat_table::Compat;
use faults::{Limit, Memory};
use lexer::Lexer;
use normal_form::{Normal, NormalRule, Sym};
use std::alloc::Global;
use syntax_tree::Tree;
use token_print::Style;

/// Which rounds are made.
#[derive(Clone, Copy)]
pub(crate) enum Mode {
    Perses,
    Hdd,
}

/// What is reduced, and how its questions are answered.
#[derive(Clone, Copy)]
pub(crate) struct Problem<'a> {
    pub(crate) alloc: Global,

    pub(crate) start: &'a str,

    /// Cuts the start and what is left of it into tokens.
    pub(crate) lexer: &'a Lexer,

    /// The tree of the start's tokens.
    pub(crate) tree: &'a Tree,

    /// Which symbols fit which slots of the tree.
    pub(crate) compat: &'a Compat,

    pub(crate) rule: VerdictRule<'a>,

    pub(crate) mode: Mode,

    /// Whether the squeezed text of all tokens is asked before the rounds.
    pub(crate) squeezes: bool,
}

/// What was asked, and what it came to.
#[derive(Drop)]
pub(crate) struct Reduction {
    /// The texts that were asked, in their order.
    pub(crate) questions: Vec<Vec<u8>>,

    /// The text of the last yes.
    pub(crate) text: Vec<u8>,

    /// How many tokens it has.
    pub(crate) units: u64,

    /// How many rounds were made, the last one included.
    pub(crate) rounds: u64,
}

/// A reduction, as far as it was made.
#[derive(Drop)]
struct Reducer<'a> {
    problem: Problem<'a>,

    /// The nodes that are left.
    tree: Vec<LeftNode>,

    style: Style,

    /// Whether there was a yes in this round.
    had_yes: bool,

    asked: Reduction,
}

/// The whole reduction of a start.
pub(crate) fn reduced(problem: Problem) -> Result<Reduction, Memory> {
    let alloc = problem.alloc;
    let tree = whole_tree(alloc, problem.tree.nodes())?;
    let mut reducer = Reducer {
        problem,
        tree,
        style: Style::AsWas,
        had_yes: false,
        asked: Reduction {
            questions: Vec::new(alloc),
            text: Vec::new(alloc),
            units: 0,
            rounds: 0,
        },
    };
    reducer.reduce()?;
    let Reducer { asked, .. } = reducer;
    Ok(asked)
}

/// The rule of the nodes with this symbol, by which they are visited. A token has none.
fn rule_of(normal: &Normal, symbol: Sym) -> Option<&NormalRule> {
    match symbol {
        Sym::Kind(_) | Sym::Set(_) => None,
        Sym::Rule(rule) => normal.rules().get(rule as usize),
    }
}

/// What is kept when a part of a list is tried.
#[derive(Clone, Copy)]
enum Kept {
    /// The part alone.
    Part,

    /// All but the part.
    Rest,
}

impl Reduction {
    /// Asks a text of so many tokens.
    fn ask(
        &mut self,
        alloc: Global,
        rule: VerdictRule,
        text: Vec<u8>,
        units: usize,
    ) -> Result<bool, Memory>
        ensures answer { IfOk result (λ yes. yes ≡ has_yes rule.entry.start.now rule.entry.seed text.items) }
        ensures asked { OnOk result (self.new.questions.items ≡ self.old.questions.items ++ text ∷ []) }
        ensures text { IfOk result (λ yes. self.new.text.items ≡ (if yes then text.items else self.old.text.items)) }
    {
        let is_yes = rule.is_yes(&text);
        if is_yes {
            self.text = Vec::from_slice(alloc, &text)?;
            self.units = units as u64;
        }
        self.questions.push(text)?;
        Ok(is_yes)
    }
}

impl Reducer<'_> {
    /// Asks the start, at yes its squeezed text, and then makes rounds.
    fn reduce(&mut self) -> Result<(), Memory> {
        let Problem {
            alloc,
            start,
            rule,
            ..
        } = self.problem;
        let units = tokens(alloc, &self.tree)?.len();
        let start = Vec::from_slice(alloc, start.as_bytes())?;
        if self.asked.ask(alloc, rule, start, units)? {
            self.squeeze()?;
            self.make_rounds()?;
        }
        Ok(())
    }

    /// Asks the squeezed text of all tokens, where it is shorter than the start. After a yes all texts
    /// are squeezed.
    fn squeeze(&mut self) -> Result<(), Memory> {
        let Problem {
            alloc,
            start,
            lexer,
            rule,
            squeezes,
            ..
        } = self.problem;
        if !squeezes {
            return Ok(());
        }
        let tokens = tokens(alloc, &self.tree)?;
        let Some(text) = listed_text(alloc, start, lexer, &tokens, Style::Squeezed)? else {
            return Ok(());
        };
        if text.len() < start.len() && self.asked.ask(alloc, rule, text, tokens.len())? {
            self.style = Style::Squeezed;
        }
        Ok(())
    }

    /// Makes rounds until one has no yes.
    fn make_rounds(&mut self) -> Result<(), Memory> {
        for _ in 0..u32::MAX {
            self.had_yes = false;
            match self.problem.mode {
                Mode::Perses => self.visit_all()?,
                Mode::Hdd => self.go_through_levels()?,
            }
            self.asked.rounds = self.asked.rounds.saturating_add(1);
            if !self.had_yes {
                return Ok(());
            }
        }
        Err(Memory::over(Limit::Numbers, 4_294_967_296))
    }

    /// Visits the nodes that wait, the heaviest first, until none does. At first the root waits.
    fn visit_all(&mut self) -> Result<(), Memory> {
        let mut waiting = Vec::new(self.problem.alloc);
        if let Some(root) = self.tree.first() {
            waiting.push(*root)?;
        }
        for _ in 0..u32::MAX {
            let Some(node) = self.heaviest(&waiting)? else {
                return Ok(());
            };
            waiting.retain(|other| other.number != node.number);
            let next = self.visit(node)?;
            waiting.extend_from_slice(&next)?;
        }
        Err(Memory::over(Limit::Numbers, 4_294_967_296))
    }

    /// Goes through the levels of the tree that is left, from the root down, with a list step on the
    /// nodes of each that can be deleted.
    fn go_through_levels(&mut self) -> Result<(), Memory> {
        for depth in 0..u32::MAX {
            let parents = level(self.problem.alloc, &self.tree, depth)?;
            if parents.is_empty() {
                return Ok(());
            }
            let nodes = self.loose_children(&parents)?;
            let nodes = self.with_tokens(&nodes)?;
            self.list_step(nodes, true)?;
        }
        Err(Memory::over(Limit::Numbers, 4_294_967_296))
    }

    /// The children of those of these nodes that are lists or optionals.
    fn loose_children(&self, parents: &[LeftNode]) -> Result<Vec<LeftNode>, Memory> {
        let Problem { alloc, compat, .. } = self.problem;
        let mut nodes = Vec::new(alloc);
        for parent in parents {
            match rule_of(compat.normal(), parent.symbol) {
                Some(NormalRule::Star(_) | NormalRule::Plus(_) | NormalRule::Opt(_)) => {
                    nodes.extend_from_slice(&children(alloc, &self.tree, *parent)?)?;
                }
                Some(NormalRule::Regular(_)) | None => {}
            }
        }
        Ok(nodes)
    }

    /// Those of the nodes that have a token.
    fn with_tokens(&self, nodes: &[LeftNode]) -> Result<Vec<LeftNode>, Memory> {
        let mut left = Vec::new(self.problem.alloc);
        for node in nodes {
            if !self.tokens_below(*node)?.is_empty() {
                left.push(*node)?;
            }
        }
        Ok(left)
    }

    /// Whether a plus of the tree has no element.
    fn has_empty_plus(&self, tree: &[LeftNode]) -> Result<bool, Memory> {
        let Problem { alloc, compat, .. } = self.problem;
        for node in tree {
            let is_plus = match rule_of(compat.normal(), node.symbol) {
                Some(NormalRule::Plus(_)) => true,
                _ => false,
            };
            if is_plus && children(alloc, tree, *node)?.is_empty() {
                return Ok(true);
            }
        }
        Ok(false)
    }

    /// The tokens below the node.
    fn tokens_below(&self, node: LeftNode) -> Result<Vec<u32>, Memory> {
        let alloc = self.problem.alloc;
        tokens(alloc, &below(alloc, &self.tree, &[node])?)
    }

    /// The node that has the most tokens of those that wait, and among equals the least first token.
    /// There is none where no node that waits has a token.
    fn heaviest(&self, waiting: &[LeftNode]) -> Result<Option<LeftNode>, Memory> {
        let mut heaviest = None;
        let mut most = Vec::new(self.problem.alloc);
        for node in waiting {
            let tokens = self.tokens_below(*node)?;
            let is_before = tokens.len() == most.len() && tokens.iter().min() < most.iter().min();
            if tokens.len() > most.len() || is_before {
                heaviest = Some(*node);
                most = tokens;
            }
        }
        Ok(heaviest)
    }

    /// Tries what is tried of a node. The answer is the nodes that wait in its stead.
    fn visit(&mut self, node: LeftNode) -> Result<Vec<LeftNode>, Memory> {
        let Problem { alloc, compat, .. } = self.problem;
        let content = children(alloc, &self.tree, node)?;
        match rule_of(compat.normal(), node.symbol) {
            Some(NormalRule::Star(_)) => self.list_step(content, true)?,
            Some(NormalRule::Plus(_)) => self.list_step(content, false)?,
            Some(NormalRule::Opt(_)) => {
                self.try_without(&content)?;
            }
            Some(NormalRule::Regular(_)) => {
                if let Some(by) = self.try_descendants(node)? {
                    return Ok(Vec::from_slice(alloc, &[by])?);
                }
            }
            None => {}
        }
        children(alloc, &self.tree, node)
    }

    /// Tries a tree, where no plus is empty and its text may be asked, and leaves it at yes.
    fn try_tree(&mut self, tree: Vec<LeftNode>) -> Result<bool, Memory>
        ensures { IfOk result (λ yes. self.new.tree ≡ (if yes then tree else self.old.tree)) }
    {
        let Problem {
            alloc,
            start,
            lexer,
            rule,
            ..
        } = self.problem;
        if self.has_empty_plus(&tree)? {
            return Ok(false);
        }
        let tokens = tokens(alloc, &tree)?;
        let Some(text) = listed_text(alloc, start, lexer, &tokens, self.style)? else {
            return Ok(false);
        };
        if !self.asked.ask(alloc, rule, text, tokens.len())? {
            return Ok(false);
        }
        self.tree = tree;
        self.had_yes = true;
        Ok(true)
    }

    /// Tries the tree without these nodes.
    fn try_without(&mut self, nodes: &[LeftNode]) -> Result<bool, Memory> {
        let tree = deleted(self.problem.alloc, &self.tree, nodes)?;
        self.try_tree(tree)
    }

    /// Tries each descendant of a node in its position that fits its slot and has fewer tokens, level
    /// by level, up to the first yes. The answer is the one that is then left in that position.
    fn try_descendants(&mut self, node: LeftNode) -> Result<Option<LeftNode>, Memory> {
        let weight = self.tokens_below(node)?.len();
        let nodes = below(self.problem.alloc, &self.tree, &[node])?;
        for by in &nodes {
            if self.try_descendant(node, weight, *by)? {
                return Ok(Some(placed(*by, node)));
            }
        }
        Ok(None)
    }

    /// Tries a descendant of a node of this weight in its position.
    fn try_descendant(
        &mut self,
        node: LeftNode,
        weight: usize,
        by: LeftNode,
    ) -> Result<bool, Memory> {
        let is_lighter = self.tokens_below(by)?.len() < weight;
        if !is_lighter || !self.problem.compat.fits(by.symbol, node.slot) {
            return Ok(false);
        }
        let tree = replaced(self.problem.alloc, &self.tree, node, by)?;
        self.try_tree(tree)
    }

    /// The list step on these nodes, by ddmin: in n parts, at first two, each part alone is tried, and
    /// then all but each part. After a yes it goes on with what remains; where none has one, in twice
    /// as many parts, until each is one node.
    fn list_step(&mut self, nodes: Vec<LeftNode>, may_be_empty: bool) -> Result<(), Memory> {
        if may_be_empty && !nodes.is_empty() && self.try_without(&nodes)? {
            return Ok(());
        }
        let mut left = nodes;
        let mut n = 2usize;
        for _ in 0..u32::MAX {
            if left.len() < 2 {
                return Ok(());
            }
            if self.try_parts(&mut left, n, Kept::Part)? {
                n = 2;
            } else if self.try_parts(&mut left, n, Kept::Rest)? {
                n = n.saturating_sub(1).max(2);
            } else if n < left.len() {
                n = n.saturating_mul(2).min(left.len());
            } else {
                return Ok(());
            }
        }
        Err(Memory::over(Limit::Numbers, 4_294_967_296))
    }

    /// Tries each of n parts of these nodes alone, or all but it, up to the first yes, after which that
    /// is left.
    fn try_parts(
        &mut self,
        nodes: &mut Vec<LeftNode>,
        n: usize,
        kept: Kept,
    ) -> Result<bool, Memory> {
        let alloc = self.problem.alloc;
        for i in 0..n {
            let from = part_start(nodes.len(), n, i);
            let to = part_start(nodes.len(), n, i + 1);
            let part = inside(alloc, nodes, from, to)?;
            let rest = outside(alloc, nodes, from, to)?;
            let (left, cut) = match kept {
                Kept::Part => (part, rest),
                Kept::Rest => (rest, part),
            };
            if self.try_without(&cut)? {
                *nodes = left;
                return Ok(true);
            }
        }
        Ok(false)
    }
}
