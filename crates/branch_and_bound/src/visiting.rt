// One node of the tree (DECISIONS, branching).
use crate::factors::Multiplier;
use crate::leaf::infeasible_leaf;
use crate::limits::{
    MOST_PIVOTS, NO_MULTIPLIER, PASSES_OF_A_VISIT, PASSES_OF_ROUNDING, THRESHOLDS, WHOLE,
};
use crate::live_lines::LiveLines;
use crate::question::{Limit, Question, limit_of};
use crate::relaxation::{Relaxation, Row};
use crate::rounding::Point;
use crate::tree::{Kept, RowMultiplier, Tree};
use linear_program::Answer;
use scut_base::{Items, Lit, NoMemory};
use std::alloc::Global;
use std::num::{nearest_i64_to_f64, nearest_u64_to_f64};

impl Relaxation {
    // Puts the relaxation to a node: its columns are fixed by the path, and no others.
    fn enter(
        &mut self,
        question: &Question<'_>,
        tree: &mut Tree,
        at: usize,
    ) -> Result<(), NoMemory> {
        for lit in tree.path.iter() {
            self.free(*lit);
        }
        tree.set_path(at)?;
        for lit in tree.path.iter() {
            self.fix(*lit);
        }
        tree.set_fixed(question.assumed);
        Ok(())
    }

    // Solves the linear program of a node, and closes it, notes its bound and how it can be split, or offers a model.
    pub(crate) fn visit(
        &mut self,
        live: &LiveLines<'_>,
        question: &Question<'_>,
        tree: &mut Tree,
        at: usize,
    ) -> Result<(), NoMemory> {
        self.enter(question, tree, at)?;
        self.count_passes(PASSES_OF_A_VISIT);
        tree.visits = tree.visits.saturating_add(1);
        // Where rounding costs the multipliers, once more from another inverse.
        for _attempt in 0..2 {
            match self
                .program
                .solve(tree.stop(self.aim.step), MOST_PIVOTS)?
                .answer
            {
                Answer::Optimal { values } => {
                    return self.look(question, tree, at, values.as_slice());
                }
                Answer::Above => return self.pass_by(tree, at),
                Answer::Unknown => {}
                Answer::Infeasible { multipliers } => {
                    let multipliers = multipliers_of(self, multipliers.as_slice())?;
                    if self.close(live, question, tree, at, multipliers.as_slice())? {
                        return Ok(());
                    }
                }
            }
            self.program.rebuild()?;
        }
        self.split_anywhere(tree, at)
    }

    // Closes a node by multipliers of rows, if they come to whole ones that do.
    pub(crate) fn close(
        &mut self,
        live: &LiveLines<'_>,
        question: &Question<'_>,
        tree: &mut Tree,
        at: usize,
        multipliers: &[RowMultiplier],
    ) -> Result<bool, NoMemory> {
        let mut lines = self.lines_of(question, multipliers)?;
        self.close_by_lines(live, tree, at, lines.as_mut_slice())
    }

    // The same by the multipliers of lines, which may be those of cuts.
    fn close_by_lines(
        &mut self,
        live: &LiveLines<'_>,
        tree: &mut Tree,
        at: usize,
        lines: &mut [Multiplier],
    ) -> Result<bool, NoMemory> {
        self.scale.begin(lines);
        let cuts = self.cuts.constraints.as_slice();
        match infeasible_leaf(self.alloc, live, cuts, lines, &tree.fixed)? {
            Some(leaf) => {
                self.scale.note(leaf.tokens.as_slice());
                tree.close_by(at, leaf)?;
                Ok(true)
            }
            None => Ok(false),
        }
    }

    // Closes a node by what was kept of it, if the limits of now allow that.
    pub(crate) fn close_by_kept(
        &mut self,
        live: &LiveLines<'_>,
        question: &Question<'_>,
        tree: &mut Tree,
        at: usize,
    ) -> Result<bool, NoMemory> {
        self.enter(question, tree, at)?;
        self.count_passes(PASSES_OF_A_VISIT);
        let mut lines = match tree.kept.get(at) {
            Some(kept) => self.lines_of(question, kept.multipliers.as_slice())?,
            None => return Ok(false),
        };
        self.close_by_lines(live, tree, at, lines.as_mut_slice())
    }

    // A node whose bound is above the best model's value has nothing that is better.
    fn pass_by(&self, tree: &mut Tree, at: usize) -> Result<(), NoMemory> {
        let kept = self.kept_now(false)?;
        tree.note(at, self.program.sum(), None, kept);
        Ok(())
    }

    // Passes a node by that has nothing better than the best model, offers a model, or notes how the node can be split.
    fn look(
        &mut self,
        question: &Question<'_>,
        tree: &mut Tree,
        at: usize,
        values: &[f64],
    ) -> Result<(), NoMemory> {
        let bound = self.program.sum();
        if tree.is_no_better(bound, self.aim.step) {
            return self.pass_by(tree, at);
        }
        let split = self.split(values);
        if split.is_none() {
            let lits = self.model(values)?;
            tree.offer(lits, product(self.aim.main.as_slice(), values));
        } else if tree.is_time_to_round(at) {
            self.count_passes(PASSES_OF_ROUNDING);
            self.round(question, tree, values)?;
        }
        if split.is_some() && self.is_time_to_walk(tree) {
            self.walk_from(question, tree, values)?;
        }
        let kept = self.kept_now(split.is_some())?;
        tree.note(at, bound, split, kept);
        Ok(())
    }

    // Offers the models that the values round to, if they keep to what is asked.
    fn round(
        &self,
        question: &Question<'_>,
        tree: &mut Tree,
        values: &[f64],
    ) -> Result<(), NoMemory> {
        for threshold in THRESHOLDS {
            let costs = self.aim.costs.as_slice();
            if let Some(point) = self.matrix.rounded(values, costs, threshold)? {
                if self.keeps(question, &point) {
                    let lits = literals_of(self.alloc, point.is_one.as_slice())?;
                    tree.offer(lits, point.cost_by(self.aim.main.as_slice()));
                }
            }
        }
        Ok(())
    }

    // Whether rows count, no model is known, and enough was done since the last walk.
    fn is_time_to_walk(&self, tree: &Tree) -> bool {
        self.counts && tree.best.is_none() && tree.next_walk <= self.work()
    }

    // Offers the model that a walk from these values meets, if it keeps to what is asked.
    fn walk_from(
        &mut self,
        question: &Question<'_>,
        tree: &mut Tree,
        values: &[f64],
    ) -> Result<(), NoMemory> {
        let began = self.work();
        let found = self.walk(question.limits, values)?;
        tree.next_walk = self.next_walk(began);
        if let Some(values) = found {
            let point = self.matrix.point(values.as_slice(), 0.5)?;
            if self.keeps(question, &point) {
                let lits = literals_of(self.alloc, point.is_one.as_slice())?;
                tree.offer(lits, point.cost_by(self.aim.main.as_slice()));
                tree.is_met = true;
            }
        }
        Ok(())
    }

    // Whether a point keeps to the limits, and makes what is assumed of columns true.
    fn keeps(&self, question: &Question<'_>, point: &Point) -> bool {
        let columns = self.columns as u64;
        let are_true = |lit: &Lit| lit.var() > columns || point.makes_true(*lit);
        question.assumed.iter().all(are_true)
            && question
                .limits
                .iter()
                .all(|limit| self.is_within(limit, point))
    }

    fn is_within(&self, limit: &Limit, point: &Point) -> bool {
        match self.objectives.get(limit.objective) {
            Some(objective) => {
                let cost = point.sum_of(objective.terms.as_slice()) + objective.constant;
                cost <= nearest_i64_to_f64(limit.most) + 0.5
            }
            None => false,
        }
    }

    // A node of which nothing is known is split by the first variable that is open.
    fn split_anywhere(&self, tree: &mut Tree, at: usize) -> Result<(), NoMemory> {
        let mut split = None;
        for column in 0..self.columns {
            if let Some(lit) = literal_of(column, 0.0) {
                if lit.var() <= tree.fixed.len() && tree.fixed.get(lit).is_none() {
                    split = Some(lit);
                    break;
                }
            }
        }
        tree.note(at, f64::NEG_INFINITY, split, Kept::none(self.alloc));
        Ok(())
    }

    // What is kept of the node that was solved: its dual values, and the basis where it may be split.
    fn kept_now(&self, has_basis: bool) -> Result<Kept, NoMemory> {
        let duals = self.program.duals()?;
        let mut multipliers = multipliers_of(self, duals.as_slice())?;
        for (objective, weight) in self.objectives.iter().zip(self.aim.weights.as_slice()) {
            multipliers.push(RowMultiplier {
                row: objective.row,
                value: -*weight,
            })?;
        }
        let mut size = multipliers.len().saturating_mul(2);
        let mut basis = None;
        if has_basis {
            basis = Some(self.program.basis()?);
            size = size
                .saturating_add(self.columns)
                .saturating_add(self.program.rows());
        }
        Ok(Kept {
            multipliers,
            basis,
            size,
        })
    }

    // The literal of the value with the greatest score, at its nearer end; none where all are whole.
    fn split(&self, values: &[f64]) -> Option<Lit> {
        let mut best = None;
        let mut most = 0.0;
        let weights = self.uses.iter().zip(self.shares.as_slice());
        for ((column, value), (uses, share)) in values.iter().enumerate().zip(weights) {
            let score = uncertainty(*value) * *uses * *share * swayed(self.sway, column);
            if score > most {
                most = score;
                best = literal_of(column, *value);
            }
        }
        best
    }

    // The literals of whole values.
    fn model(&self, values: &[f64]) -> Result<Items<Lit>, NoMemory> {
        let mut lits = Items::with_capacity(self.alloc, values.len())?;
        for (column, value) in values.iter().enumerate() {
            if let Some(lit) = literal_of(column, *value) {
                lits.push(lit)?;
            }
        }
        Ok(lits)
    }

    // The lines of rows with their multipliers: a row's own, and those of a limit.
    fn lines_of(
        &self,
        question: &Question<'_>,
        multipliers: &[RowMultiplier],
    ) -> Result<Vec<Multiplier>, NoMemory> {
        let mut lines = Vec::with_capacity(self.alloc, multipliers.len())?;
        for multiplier in multipliers {
            match self.rows.get(multiplier.row) {
                Some(Row::Objective(objective)) => {
                    if multiplier.value < 0.0 {
                        add_limit(&mut lines, question, *objective, -multiplier.value)?;
                    }
                }
                Some(row) => {
                    if multiplier.value > 0.0 {
                        lines.push(Multiplier {
                            line: self.id_of(*row),
                            value: multiplier.value,
                        })?;
                    }
                }
                None => {}
            }
        }
        Ok(lines)
    }
}

// The multipliers that aren't 0.
fn multipliers_of(of: &Relaxation, values: &[f64]) -> Result<Vec<RowMultiplier>, NoMemory> {
    let mut multipliers = Vec::new(of.alloc);
    for (row, value) in values.iter().enumerate() {
        if value.abs() > NO_MULTIPLIER {
            multipliers.push(RowMultiplier { row, value: *value })?;
        }
    }
    Ok(multipliers)
}

// The sum of costs at these values.
fn product(costs: &[f64], values: &[f64]) -> f64 {
    let mut sum = 0.0;
    for (cost, value) in costs.iter().zip(values) {
        sum += *cost * value.round();
    }
    sum
}

// What a column's score is multiplied by: 1 where nothing sways it, else a number from 1 to 2, another one for each sway (hashed
// as in splitmix: Steele, Lea and Flood 2014).
fn swayed(sway: u64, column: usize) -> f64 {
    if sway == 0 {
        return 1.0;
    }
    let mixed = (column as u64)
        .wrapping_mul(64)
        .wrapping_add(sway)
        .wrapping_mul(0x9E37_79B9_7F4A_7C15);
    let mixed = (mixed ^ (mixed >> 29)).wrapping_mul(0xBF58_476D_1CE4_E5B9);
    1.0 + nearest_u64_to_f64(mixed >> 33) / 2_147_483_648.0
}

// How far a value is from whole; 0 where it's as good as whole.
fn uncertainty(value: f64) -> f64 {
    if value.min(1.0 - value) > WHOLE {
        value * (1.0 - value)
    } else {
        0.0
    }
}

// Adds the lines of an objective's limit, which together speak of its own terms.
fn add_limit(
    lines: &mut Vec<Multiplier>,
    question: &Question<'_>,
    objective: usize,
    value: f64,
) -> Result<(), NoMemory> {
    let Some(limit) = limit_of(question.limits, objective) else {
        return Ok(());
    };
    for line in [limit.upper_line, limit.reform_line] {
        if line != 0 {
            lines.push(Multiplier { line, value })?;
        }
    }
    Ok(())
}

// The literals that are true where these columns are 1.
fn literals_of(alloc: Global, is_one: &[bool]) -> Result<Items<Lit>, NoMemory> {
    let mut lits = Items::with_capacity(alloc, is_one.len())?;
    for (column, is_one) in is_one.iter().enumerate() {
        if let Some(lit) = literal_of(column, if *is_one { 1.0 } else { 0.0 }) {
            lits.push(lit)?;
        }
    }
    Ok(lits)
}

// The literal of a column at the nearer end.
fn literal_of(column: usize, value: f64) -> Option<Lit> {
    let var = (column as u64).checked_add(1)?;
    if var < 1 << 63 {
        Some(Lit::new(var, value < 0.5))
    } else {
        None
    }
}
