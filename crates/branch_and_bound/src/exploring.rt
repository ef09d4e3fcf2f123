// The search through the tree, the node of least bound first.
use crate::limits::{
    MOST_NODES, NODES_OF_ATTEMPTS, PASSES_MORE, PASSES_OF_A_WALK, SHARE_OF_WALKS, TIMES_MORE,
};
use crate::live_lines::LiveLines;
use crate::nodes::Node;
use crate::question::Question;
use crate::relaxation::{Relaxation, column_of};
use crate::tree::Tree;
use linear_program::Range;
use scut_base::{Items, Lit, NoMemory};
use std::num::nearest_i64_to_f64;

/// What a search has found.
#[derive(Debug, Drop)]
pub enum Found {
    /// The clauses of a tree that closed, the root's last.
    Closed(Vec<Node>),
    /// What may be a model: a literal of each variable of the problem, in rising order.
    Model(Items<Lit>),
    /// Neither.
    Nothing,
}

impl Relaxation {
    // Searches for the best values within the limits where the assumptions are true, until this much work was done.
    pub(crate) fn explore_anew(
        &mut self,
        live: &LiveLines<'_>,
        question: &Question<'_>,
        tree: &mut Tree,
        most: u64,
    ) -> Result<Found, NoMemory> {
        self.take_back_cuts()?;
        self.sway = 0;
        self.begin_with_root(live, question, tree)?;
        self.visit_root(live, question, tree)?;
        if self.may_cut() && !self.begin_with_cuts(live, question, tree, most)? {
            return found_in(tree);
        }
        for nodes in NODES_OF_ATTEMPTS {
            if !self.split_nodes(live, question, tree, most, nodes)? {
                return self.end(tree);
            }
            if !tree.is_flat() {
                break;
            }
            self.sway = self.sway.saturating_add(1);
            self.begin_anew(live, question, tree)?;
        }
        self.explore(live, question, tree, most)
    }

    // Begins the tree anew, but for its best model.
    pub(crate) fn begin_anew(
        &mut self,
        live: &LiveLines<'_>,
        question: &Question<'_>,
        tree: &mut Tree,
    ) -> Result<(), NoMemory> {
        let (best, is_met) = (tree.best.take(), tree.is_met);
        self.begin_with_root(live, question, tree)?;
        tree.best = best;
        tree.is_met = is_met;
        self.visit_root(live, question, tree)
    }

    // Begins a tree with its root alone.
    fn begin_with_root(
        &mut self,
        live: &LiveLines<'_>,
        question: &Question<'_>,
        tree: &mut Tree,
    ) -> Result<(), NoMemory> {
        self.begin(question, tree);
        tree.begin(live.vars, self.least_sum(), self.aim.step.max(1e-6))?;
        let first_walk = self.passes(PASSES_OF_A_WALK * SHARE_OF_WALKS);
        tree.next_walk = self.work().saturating_add(first_walk);
        Ok(())
    }

    // Visits the root.
    fn visit_root(
        &mut self,
        live: &LiveLines<'_>,
        question: &Question<'_>,
        tree: &mut Tree,
    ) -> Result<(), NoMemory> {
        self.visit(live, question, tree, 0)?;
        self.roots.keep(&self.program)?;
        tree.push_if_open(0)
    }

    // Goes on in a tree whose limits are tighter now: nodes that what was kept of them doesn't close are solved once more.
    pub(crate) fn explore_further(
        &mut self,
        live: &LiveLines<'_>,
        question: &Question<'_>,
        tree: &mut Tree,
        most: u64,
    ) -> Result<Found, NoMemory> {
        self.begin(question, tree);
        tree.reopen(live.vars)?;
        for at in 0..tree.branches.len() {
            if self.work() > most {
                return Ok(Found::Nothing);
            }
            if tree.is_open(at) {
                self.take_up_again(live, question, tree, at)?;
            }
        }
        self.explore(live, question, tree, most)
    }

    // Closes a node, or puts it among those that can be split.
    fn take_up_again(
        &mut self,
        live: &LiveLines<'_>,
        question: &Question<'_>,
        tree: &mut Tree,
        at: usize,
    ) -> Result<(), NoMemory> {
        if !self.close_by_kept(live, question, tree, at)? {
            self.restore(tree, at)?;
            self.visit(live, question, tree, at)?;
            tree.push_if_open(at)?;
        }
        Ok(())
    }

    // Searches on in a tree, and answers what it comes to.
    fn explore(
        &mut self,
        live: &LiveLines<'_>,
        question: &Question<'_>,
        tree: &mut Tree,
        most: u64,
    ) -> Result<Found, NoMemory> {
        self.split_nodes(live, question, tree, most, MOST_NODES)?;
        self.end(tree)
    }

    // What a tree has come to that isn't searched further.
    fn end(&mut self, tree: &mut Tree) -> Result<Found, NoMemory> {
        self.settle_cuts(tree);
        found_in(tree)
    }

    // Splits nodes until the root is closed, no node can have a better model, or the work is done; answers whether it's none of
    // these, but so many nodes were split.
    pub(crate) fn split_nodes(
        &mut self,
        live: &LiveLines<'_>,
        question: &Question<'_>,
        tree: &mut Tree,
        most: u64,
        nodes: usize,
    ) -> Result<bool, NoMemory> {
        let began = self.work();
        let mut most = most;
        let mut has_model = false;
        for _node in 0..nodes {
            if tree.best.is_some() && !has_model {
                has_model = true;
                most = most.min(self.enough_after_a_model(began));
            }
            if tree.root_clause().is_some() || self.work() > most {
                return Ok(false);
            }
            let Some(at) = tree.take_next(self.aim.step) else {
                return Ok(false);
            };
            self.split_node(live, question, tree, at)?;
        }
        Ok(true)
    }

    // How much work may be done in all where the first model is known now: without a bound where the least cost of one objective
    // is sought, since the tree closes what is below that.
    fn enough_after_a_model(&self, began: u64) -> u64 {
        if self.aim.is_proof_wanted {
            return u64::MAX;
        }
        let now = self.work();
        let more = now.saturating_sub(began).saturating_mul(TIMES_MORE);
        now.saturating_add(more)
            .saturating_add(self.passes(PASSES_MORE))
    }

    // Splits a node, and visits what is below it.
    fn split_node(
        &mut self,
        live: &LiveLines<'_>,
        question: &Question<'_>,
        tree: &mut Tree,
        at: usize,
    ) -> Result<(), NoMemory> {
        let Some(lit) = tree.branch(at).and_then(|branch| branch.split) else {
            return Ok(());
        };
        let (first, second) = tree.split(at, lit)?;
        self.restore(tree, at)?;
        self.visit(live, question, tree, first)?;
        if !tree.is_closed(at) {
            self.restore(tree, at)?;
            self.visit(live, question, tree, second)?;
        }
        tree.let_go(at);
        tree.go_on_below(first, second)
    }

    // Goes back to the basis that was kept of a node.
    fn restore(&mut self, tree: &mut Tree, at: usize) -> Result<(), NoMemory> {
        if let Some(kept) = tree.kept.get_mut(at) {
            if let Some(basis) = &mut kept.basis {
                self.program.restore(basis)?;
            }
        }
        Ok(())
    }

    // Sets the ranges for a question, at the root.
    pub(crate) fn begin(&mut self, question: &Question<'_>, tree: &mut Tree) {
        for lit in tree.path.iter() {
            self.free(*lit);
        }
        tree.path.clear();
        self.assume(question.assumed);
        for place in 0..self.objectives.len() {
            self.set_limit(place, question);
        }
    }

    // Fixes the columns that are assumed, and frees all others.
    fn assume(&mut self, assumed: &[Lit]) {
        for column in 0..self.columns {
            let range = Range {
                lower: 0.0,
                upper: 1.0,
            };
            self.program.set_column(column, range);
        }
        for lit in assumed {
            if column_of(*lit) < self.columns {
                self.fix(*lit);
            }
        }
    }

    // Sets the range of an objective: all its sums, or those within its limit.
    fn set_limit(&mut self, place: usize, question: &Question<'_>) {
        let Some(objective) = self.objectives.get(place) else {
            return;
        };
        let mut range = objective.range;
        if let Some(limit) = crate::question::limit_of(question.limits, place) {
            let most = nearest_i64_to_f64(limit.most) - objective.constant;
            range.upper = range.upper.min(most);
        }
        self.program.set_row(objective.row, range);
    }

    // The least that the costs of the columns could sum to.
    fn least_sum(&self) -> f64 {
        let mut sum = 0.0;
        for cost in self.aim.costs.iter() {
            sum += cost.min(0.0);
        }
        sum
    }
}

// The best model, or the clauses up to the root's where there is none.
fn found_in(tree: &mut Tree) -> Result<Found, NoMemory> {
    if let Some(lits) = tree.take_best() {
        return Ok(Found::Model(lits));
    }
    let Some(root) = tree.root_clause() else {
        return Ok(Found::Nothing);
    };
    let mut nodes = Vec::new(tree.alloc);
    std::mem::swap(&mut nodes, &mut tree.clauses);
    nodes.truncate(root.saturating_add(1));
    Ok(Found::Closed(nodes))
}
