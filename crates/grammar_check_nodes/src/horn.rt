//! Horn clauses over nodes that are numbered from 0, and the order in which unit resolution finds
//! the nodes that follow from them, after Dowling and Gallier (1984).

ghost use Rattle.std.specs.Prelude.{◌<◌, List, IfOk};
ghost use Rattle.std.specs.List.{All};

use crate::marking::Test;
use faults::Memory;
use std::alloc::Global;

/// Where a term of an alternative holds.
pub enum Condition<'t, A> {
    Never,
    Always,

    /// Where the node with this number is in the table.
    Node(u32),

    /// Where one of the alternatives of a block does.
    Block(&'t [A]),
}

impl<'t, A> Condition<'t, A> {
    /// Where the node is in the table, if there is one.
    pub fn of_node(node: Option<u32>) -> Condition<'t, A> {
        match node {
            Some(node) => Condition::Node(node),
            None => Condition::Never,
        }
    }
}

/// The head follows where all nodes of the body do.
#[derive(Drop)]
struct Clause {
    head: usize,
    body: Vec<usize>,
}

/// The alternatives of nodes, and their clauses: of the nodes of a test, which are the first ones,
/// and of those that blocks make.
#[derive(Drop)]
struct Clauses<'t, A> {
    alloc: Global,
    blocks: Vec<&'t [A]>,
    clauses: Vec<Clause>,
}

impl<'t, A> Clauses<'t, A> {
    /// Adds to a body what a condition asks for. False says that it never holds.
    fn add_condition(
        &mut self,
        condition: Condition<'t, A>,
        body: &mut Vec<usize>,
    ) -> Result<bool, Memory> {
        match condition {
            Condition::Never => return Ok(false),
            Condition::Always => {}
            Condition::Node(node) => body.push(node as usize)?,
            Condition::Block(alternatives) => {
                body.push(self.blocks.len())?;
                self.blocks.push(alternatives)?;
            }
        }
        Ok(true)
    }

    /// Adds the clause of an alternative of the node, unless it never holds.
    fn add_alternative<T: Test<Alternative = A> + 't>(
        &mut self,
        test: &T,
        alternative: &'t A,
        node: usize,
    ) -> Result<(), Memory> {
        let mut body = Vec::new(self.alloc);
        for term in T::terms(alternative) {
            if !self.add_condition(test.condition(term), &mut body)? {
                return Ok(());
            }
        }
        self.clauses.push(Clause { head: node, body })?;
        Ok(())
    }

    /// Adds the clauses of the alternatives of the node.
    fn add_block<T: Test<Alternative = A> + 't>(
        &mut self,
        test: &T,
        block: &'t [A],
        node: usize,
    ) -> Result<(), Memory> {
        for alternative in block {
            self.add_alternative(test, alternative, node)?;
        }
        Ok(())
    }

    /// Adds the clauses of all nodes, those of blocks too.
    fn add_all<T: Test<Alternative = A> + 't>(&mut self, test: &T) -> Result<(), Memory> {
        for node in 0..usize::MAX {
            let Some(block) = self.blocks.get(node).copied() else {
                break;
            };
            self.add_block(test, block, node)?;
        }
        Ok(())
    }

    /// All nodes that follow from the clauses, each after those that it follows from.
    fn order(&self) -> Result<Vec<usize>, Memory> {
        let users = self.users()?;
        let mut resolution = Resolution::new(self.alloc, &self.clauses, self.blocks.len())?;
        for i in 0..self.blocks.len() {
            let Some(node) = resolution.found.get(i).copied() else {
                break;
            };
            if let Some(users) = users.get(node) {
                resolution.meet_all(&self.clauses, users)?;
            }
        }
        Ok(resolution.found)
    }

    /// For each node the clauses in whose bodies it is, each as often as it is there.
    fn users(&self) -> Result<Vec<Vec<usize>>, Memory> {
        let mut users = Vec::new(self.alloc);
        for _ in 0..self.blocks.len() {
            users.push(Vec::new(self.alloc))?;
        }
        for (index, clause) in self.clauses.iter().enumerate() {
            add_user(&mut users, &clause.body, index)?;
        }
        Ok(users)
    }
}

/// The alternatives of the nodes of the test, without clauses yet.
fn blocks_of<'t, T: Test>(alloc: Global, test: &'t T) -> Result<Vec<&'t [T::Alternative]>, Memory> {
    let mut blocks = Vec::new(alloc);
    for node in 0..test.count() {
        blocks.push(test.alternatives(node))?;
    }
    Ok(blocks)
}

/// The nodes of the test that follow from its conditions, each after those that it follows from. It
/// takes time linear in the terms.
pub(crate) fn order_of<T: Test>(alloc: Global, test: &T) -> Result<Vec<usize>, Memory>
    ensures { IfOk result (λ order. All (λ node. node < T.nodes test.now) order.items) }
{
    let mut clauses = Clauses {
        alloc,
        blocks: blocks_of(alloc, test)?,
        clauses: Vec::new(alloc),
    };
    clauses.add_all(test)?;
    let found = clauses.order()?;
    let order = first_among(alloc, &found, test.count())?;
    Ok(order)
}

/// Adds a clause to the users of each node of its body.
fn add_user(users: &mut Vec<Vec<usize>>, body: &[usize], clause: usize) -> Result<(), Memory> {
    for node in body {
        let node = *node;
        if node < users.len() {
            users[node].push(clause)?;
        }
    }
    Ok(())
}

/// Those of the nodes that are first ones, of which there are this many.
fn first_among(alloc: Global, nodes: &[usize], first: usize) -> Result<Vec<usize>, Memory>
    ensures { IfOk result (λ order. All (λ node. node < first) order.items) }
{
    let mut order = Vec::new(alloc);
    for node in nodes {
        if *node < first {
            order.push(*node)?;
        }
    }
    Ok(order)
}

/// The nodes that are found so far.
#[derive(Drop)]
struct Resolution {
    /// For each clause, how many nodes of its body aren't met yet.
    missing: Vec<usize>,
    is_found: Vec<bool>,
    found: Vec<usize>,
}

impl Resolution {
    /// The heads of clauses with empty bodies are found.
    fn new(alloc: Global, clauses: &[Clause], nodes: usize) -> Result<Resolution, Memory> {
        let mut resolution = Resolution {
            missing: Vec::new(alloc),
            is_found: vec![in alloc; false; nodes]?,
            found: Vec::new(alloc),
        };
        for clause in clauses {
            resolution.add(clause)?;
        }
        Ok(resolution)
    }

    fn add(&mut self, clause: &Clause) -> Result<(), Memory> {
        self.missing.push(clause.body.len())?;
        if clause.body.is_empty() {
            self.find(clause.head)?;
        }
        Ok(())
    }

    fn find(&mut self, node: usize) -> Result<(), Memory> {
        if node < self.is_found.len() && !self.is_found[node] {
            self.is_found[node] = true;
            self.found.push(node)?;
        }
        Ok(())
    }

    /// One more node of the body of the clause is met.
    fn meet(&mut self, clauses: &[Clause], clause: usize) -> Result<(), Memory> {
        if clause < clauses.len() && clause < self.missing.len() {
            self.missing[clause] = self.missing[clause].saturating_sub(1);
            if self.missing[clause] == 0 {
                self.find(clauses[clause].head)?;
            }
        }
        Ok(())
    }

    fn meet_all(&mut self, clauses: &[Clause], users: &[usize]) -> Result<(), Memory> {
        for clause in users {
            self.meet(clauses, *clause)?;
        }
        Ok(())
    }
}
