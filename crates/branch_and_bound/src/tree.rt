// A tree of linear programs, searched from the node of least bound on (DECISIONS, best-first).
use crate::leaf::Leaf;
use crate::limits::{FLAT, MOST_KEPT, PARTS_OF_A_STEP, PLUNGE, ROUND_ABOVE, ROUND_EACH};
use crate::nodes::{Making, Node, has_literal, resolvent_literals};
use linear_program::Basis;
use scut_base::{Items, Lit, NoMemory, Partial};
use std::alloc::Global;
use std::collections::BinaryHeap;
use std::num::saturating_f64_to_u64;

// A multiplier of a row of the relaxation.
#[derive(Clone, Copy, Debug)]
pub(crate) struct RowMultiplier {
    pub(crate) row: usize,
    pub(crate) value: f64,
}

// A node: what is true there beside what is above it, and how it stands.
#[derive(Clone, Copy, Debug)]
pub(crate) struct Branch {
    pub(crate) parent: Option<usize>,
    pub(crate) lit: Option<Lit>,
    pub(crate) sibling: Option<usize>,
    pub(crate) depth: usize,
    // No model here has a value below this.
    pub(crate) bound: f64,
    // The literal by which it is split, where it can be.
    pub(crate) split: Option<Lit>,
    // Whether it was split, and the place of the clause by which it is closed.
    pub(crate) is_split: bool,
    pub(crate) closed: Option<usize>,
}

// What a node that is neither split nor closed is solved or closed from.
#[derive(Debug, Drop)]
pub(crate) struct Kept {
    pub(crate) multipliers: Vec<RowMultiplier>,
    pub(crate) basis: Option<Basis>,
    // How many numbers that is.
    pub(crate) size: usize,
}

impl Kept {
    // Nothing.
    pub(crate) fn none(alloc: Global) -> Kept {
        Kept {
            multipliers: Vec::new(alloc),
            basis: None,
            size: 0,
        }
    }
}

// A model, and its value.
#[derive(Debug, Drop)]
pub(crate) struct Best {
    pub(crate) lits: Items<Lit>,
    pub(crate) value: f64,
}

#[derive(Debug, Drop)]
pub(crate) struct Tree {
    pub(crate) alloc: Global,
    pub(crate) branches: Vec<Branch>,
    pub(crate) kept: Vec<Kept>,
    // How many numbers may still be kept.
    pub(crate) room: usize,
    // The clauses of closed nodes; a resolvent comes after those that it is of.
    pub(crate) clauses: Vec<Node>,
    // Nodes that can be split, by their bounds; and one below the last that was split, if the search goes on there.
    queue: BinaryHeap<(u64, usize)>,
    pub(crate) next: Option<usize>,
    // What is true at the node where the relaxation is, beside the assumptions; with them.
    pub(crate) path: Vec<Lit>,
    pub(crate) fixed: Partial,
    // The best model so far.
    pub(crate) best: Option<Best>,
    // Whether a walk met it, and no node had a better one.
    pub(crate) is_met: bool,
    // How many nodes were visited.
    pub(crate) visits: u64,
    // At how much work the next walk is begun.
    pub(crate) next_walk: u64,
    // What bounds are counted from, and in which unit they are told apart.
    pub(crate) least: f64,
    pub(crate) unit: f64,
}

impl Tree {
    // A tree without nodes.
    pub(crate) fn new(alloc: Global) -> Result<Tree, NoMemory> {
        Ok(Tree {
            alloc,
            branches: Vec::new(alloc),
            kept: Vec::new(alloc),
            room: MOST_KEPT,
            clauses: Vec::new(alloc),
            queue: BinaryHeap::new(alloc),
            next: None,
            path: Vec::new(alloc),
            fixed: Partial::new(alloc, 0)?,
            best: None,
            is_met: false,
            visits: 0,
            next_walk: 0,
            least: 0.0,
            unit: 1.0,
        })
    }

    // The root alone, over so many variables.
    pub(crate) fn begin(&mut self, vars: u64, least: f64, unit: f64) -> Result<(), NoMemory> {
        self.branches.clear();
        self.kept.clear();
        self.room = MOST_KEPT;
        self.clauses.clear();
        self.queue.clear();
        self.next = None;
        self.best = None;
        self.is_met = false;
        self.visits = 0;
        self.least = least;
        self.unit = unit;
        self.fixed.grow(vars)?;
        self.add_branch(None, None)?;
        Ok(())
    }

    // Adds a node below another, and answers its place.
    fn add_branch(&mut self, parent: Option<usize>, lit: Option<Lit>) -> Result<usize, NoMemory> {
        let place = self.branches.len();
        let (depth, bound) = match parent.and_then(|at| self.branches.get(at)) {
            Some(above) => (above.depth.saturating_add(1), above.bound),
            None => (0, f64::NEG_INFINITY),
        };
        self.branches.push(Branch {
            parent,
            lit,
            sibling: None,
            depth,
            bound,
            split: None,
            is_split: false,
            closed: None,
        })?;
        self.kept.push(Kept::none(self.alloc))?;
        Ok(place)
    }

    // Splits a node by a literal, which is true in the first of the two that are answered.
    pub(crate) fn split(&mut self, at: usize, lit: Lit) -> Result<(usize, usize), NoMemory> {
        let first = self.add_branch(Some(at), Some(lit))?;
        let second = self.add_branch(Some(at), Some(lit.not()))?;
        self.set_sibling(first, second);
        self.set_sibling(second, first);
        if let Some(branch) = self.branches.get_mut(at) {
            branch.is_split = true;
        }
        Ok((first, second))
    }

    fn set_sibling(&mut self, at: usize, sibling: usize) {
        if let Some(branch) = self.branches.get_mut(at) {
            branch.sibling = Some(sibling);
        }
    }

    // The node at a place.
    pub(crate) fn branch(&self, at: usize) -> Option<Branch> {
        self.branches.get(at).copied()
    }

    // Whether a node, or one above it, is closed.
    pub(crate) fn is_closed(&self, at: usize) -> bool {
        let mut place = Some(at);
        for _level in 0..self.branches.len() {
            let Some(branch) = place.and_then(|at| self.branches.get(at)) else {
                return false;
            };
            if branch.closed.is_some() {
                return true;
            }
            place = branch.parent;
        }
        false
    }

    // The clause of the root, where it is closed.
    pub(crate) fn root_clause(&self) -> Option<usize> {
        self.branches.first().and_then(|root| root.closed)
    }

    // Notes what is known of a node whose linear program was solved.
    pub(crate) fn note(&mut self, at: usize, bound: f64, split: Option<Lit>, kept: Kept) {
        if let Some(branch) = self.branches.get_mut(at) {
            branch.bound = branch.bound.max(bound);
            branch.split = split;
        }
        if kept.size <= self.room {
            self.room -= kept.size;
            if let Some(place) = self.kept.get_mut(at) {
                *place = kept;
            }
        }
    }

    // Lets go of what was kept of a node.
    pub(crate) fn let_go(&mut self, at: usize) {
        if let Some(place) = self.kept.get_mut(at) {
            self.room = self.room.saturating_add(place.size);
            *place = Kept::none(self.alloc);
        }
    }

    // Puts a node among those that can be split.
    pub(crate) fn push(&mut self, at: usize) -> Result<(), NoMemory> {
        let key = u64::MAX - self.order_of(self.bound_of(at));
        self.queue.push((key, at))?;
        Ok(())
    }

    pub(crate) fn bound_of(&self, at: usize) -> f64 {
        match self.branches.get(at) {
            Some(branch) => branch.bound,
            None => f64::INFINITY,
        }
    }

    // A bound as a whole number: bounds are told apart by a part of what a better model lacks.
    fn order_of(&self, bound: f64) -> u64 {
        saturating_f64_to_u64((bound - self.least) / self.unit * PARTS_OF_A_STEP)
    }

    // Whether the least bound of what is left is hardly above the root's.
    pub(crate) fn is_flat(&self) -> bool {
        match self.queue.peek() {
            Some((key, _)) => self.order_of(self.bound_of(0) + FLAT * self.unit) >= u64::MAX - *key,
            None => false,
        }
    }

    // Puts the nodes below one that was split among those that can be, but for one where the search goes on: where its bound is no
    // worse than all others', or not by much as long as no model is known, since a model is wanted first.
    pub(crate) fn go_on_below(&mut self, first: usize, second: usize) -> Result<(), NoMemory> {
        let (better, worse) = if self.bound_of(second) < self.bound_of(first) {
            (second, first)
        } else {
            (first, second)
        };
        for at in [better, worse] {
            if self.can_be_split(at) {
                if self.next.is_none() && self.may_go_on(at) {
                    self.next = Some(at);
                } else {
                    self.push(at)?;
                }
            }
        }
        Ok(())
    }

    fn may_go_on(&self, at: usize) -> bool {
        let bound = self.bound_of(at);
        let slack = if self.best.is_some() {
            0.0
        } else {
            self.unit.max(PLUNGE * (bound - self.least))
        };
        match self.queue.peek() {
            Some((key, _)) => self.order_of(bound - slack) <= u64::MAX - *key,
            None => true,
        }
    }

    // Whether the point of a node is to be rounded: near the root, and now and then below.
    pub(crate) fn is_time_to_round(&self, at: usize) -> bool {
        match self.branches.get(at) {
            Some(branch) => branch.depth < ROUND_ABOVE || self.visits % ROUND_EACH == 0,
            None => false,
        }
    }

    // Puts a node among those that can be split, if it can be.
    pub(crate) fn push_if_open(&mut self, at: usize) -> Result<(), NoMemory> {
        if self.can_be_split(at) {
            self.push(at)?;
        }
        Ok(())
    }

    // Forgets the best model and what was to be done, so that the open nodes can be gone through.
    pub(crate) fn reopen(&mut self, vars: u64) -> Result<(), NoMemory> {
        self.queue.clear();
        self.next = None;
        self.best = None;
        self.fixed.grow(vars)?;
        Ok(())
    }

    // Whether a node is neither split nor closed.
    pub(crate) fn is_open(&self, at: usize) -> bool {
        match self.branches.get(at) {
            Some(branch) => !branch.is_split && !self.is_closed(at),
            None => false,
        }
    }

    // The sum above which nothing is better than the best model.
    pub(crate) fn stop(&self, step: f64) -> f64 {
        match &self.best {
            Some(best) => best.value - step,
            None => f64::INFINITY,
        }
    }

    // Whether a node can be split, or could be before it was.
    pub(crate) fn can_be_split(&self, at: usize) -> bool {
        match self.branches.get(at) {
            Some(branch) => branch.split.is_some() && branch.closed.is_none(),
            None => false,
        }
    }

    // Takes out the node where the search goes on; none where no node can have a better model.
    pub(crate) fn take_next(&mut self, step: f64) -> Option<usize> {
        let mut next = None;
        std::mem::swap(&mut next, &mut self.next);
        if let Some(at) = next {
            if !self.is_closed(at) && !self.is_no_better(self.bound_of(at), step) {
                return Some(at);
            }
        }
        for _entry in 0..self.queue.len() {
            let (_key, at) = self.queue.pop()?;
            if self.is_no_better(self.bound_of(at), step) {
                // All that are left have no lesser bounds.
                self.queue.clear();
                return None;
            }
            if !self.is_closed(at) {
                return Some(at);
            }
        }
        None
    }

    // Keeps a model, if it is better than those before.
    pub(crate) fn offer(&mut self, lits: Items<Lit>, value: f64) {
        let is_better = match &self.best {
            Some(best) => value < best.value,
            None => true,
        };
        if is_better {
            self.best = Some(Best { lits, value });
            self.is_met = false;
        }
    }

    // Whether a node of this bound has no model that is better than the best by a step.
    pub(crate) fn is_no_better(&self, bound: f64, step: f64) -> bool {
        match &self.best {
            Some(best) => bound > best.value - step,
            None => false,
        }
    }

    // Takes the best model out.
    pub(crate) fn take_best(&mut self) -> Option<Items<Lit>> {
        let mut best = None;
        std::mem::swap(&mut best, &mut self.best);
        match best {
            Some(best) => Some(best.lits),
            None => None,
        }
    }

    // The literals of the path to a node.
    pub(crate) fn set_path(&mut self, at: usize) -> Result<(), NoMemory> {
        self.path.clear();
        let mut place = Some(at);
        for _level in 0..self.branches.len() {
            let Some(branch) = place.and_then(|at| self.branches.get(at)) else {
                break;
            };
            if let Some(lit) = branch.lit {
                self.path.push(lit)?;
            }
            place = branch.parent;
        }
        Ok(())
    }

    // Sets what is true at the node of the path.
    pub(crate) fn set_fixed(&mut self, assumed: &[Lit]) {
        self.fixed.clear();
        for lit in assumed {
            fix_literal(&mut self.fixed, *lit);
        }
        for lit in self.path.iter() {
            fix_literal(&mut self.fixed, *lit);
        }
    }

    // Closes a node by a leaf's clause.
    pub(crate) fn close_by(&mut self, at: usize, leaf: Leaf) -> Result<(), NoMemory> {
        let clause = self.add_clause(Making::Leaf(leaf.tokens), leaf.lits)?;
        self.close(at, clause)
    }

    fn add_clause(&mut self, making: Making, lits: Items<Lit>) -> Result<usize, NoMemory> {
        let place = self.clauses.len();
        self.clauses.push(Node { making, lits })?;
        Ok(place)
    }

    // Closes a node by a clause, and each node above it that is closed then: where the clause lacks the branch's literal, or
    // where both nodes are closed below it.
    fn close(&mut self, from: usize, by: usize) -> Result<(), NoMemory> {
        let mut at = from;
        let mut clause = by;
        for _level in 0..self.branches.len() {
            let Some(branch) = self.mark_closed(at, clause) else {
                return Ok(());
            };
            self.let_go(at);
            let (Some(parent), Some(lit)) = (branch.parent, branch.lit) else {
                return Ok(());
            };
            if has_literal(self.clauses.as_slice(), clause, lit.not()) {
                let Some(other) = self.clause_of_sibling(&branch) else {
                    return Ok(());
                };
                clause = self.resolve(other, clause, lit.var())?;
            }
            at = parent;
        }
        Ok(())
    }

    fn mark_closed(&mut self, at: usize, clause: usize) -> Option<Branch> {
        let branch = self.branches.get_mut(at)?;
        branch.closed = Some(clause);
        Some(*branch)
    }

    fn clause_of_sibling(&self, branch: &Branch) -> Option<usize> {
        self.branches.get(branch.sibling?)?.closed
    }

    // Adds the resolvent of two clauses.
    fn resolve(&mut self, first: usize, second: usize, var: u64) -> Result<usize, NoMemory> {
        let lits = match (self.clauses.get(first), self.clauses.get(second)) {
            (Some(one), Some(other)) => {
                resolvent_literals(self.alloc, one.lits.as_slice(), other.lits.as_slice(), var)?
            }
            _ => Items::new(self.alloc),
        };
        self.add_clause(Making::Resolvent { first, second }, lits)
    }
}

// Makes a literal true where its variable is open.
fn fix_literal(fixed: &mut Partial, lit: Lit) {
    if lit.var() <= fixed.len() && fixed.get(lit).is_none() {
        fixed.set(lit);
    }
}
