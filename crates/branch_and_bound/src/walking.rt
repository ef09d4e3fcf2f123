// Models by local search: from a point of whole values it goes on, change by change, to one that breaks no row. The next change
// mends a broken row, and rows that stay broken weigh more and more (Selman, Kautz and Cohen 1994; Morris 1993; for linear rows
// Walser 1997, Luteberget and Sartor 2023). From a model it goes on to better ones (DECISIONS, walks).
use crate::broken_rows::BrokenRows;
use crate::limits::{CHANGES_TRIED, LEAST_TO_BETTER, MOST_STEPS, RISE, TIMES_TO_BETTER};
use crate::rounding::{Matrix, Point, number_at};
use linear_program::Term;
use scut_base::NoMemory;
use std::alloc::Global;

// A walk from point to point, by rows of which the last is the target's: each model has to be better than the one before.
#[derive(Debug, Drop)]
pub(crate) struct Walk {
    alloc: Global,
    matrix: Matrix,
    point: Point,
    broken: BrokenRows,
    // What a unit counts that a row lacks, and by how much that rises.
    weights: Vec<f64>,
    rises: Vec<f64>,
    // At which step each column was changed last.
    changed: Vec<u64>,
    step: u64,
    draws: u64,
    // By how much a model has to be better.
    gain: f64,
    pub(crate) best: Option<Vec<f64>>,
    // What was done, at which work it ends, and at which it does where no better model comes, in numbers touched.
    pub(crate) work: u64,
    most: u64,
    enough: u64,
}

// The change of a column's value, and how much less rows lack then by their weights.
#[derive(Clone, Copy, Debug)]
struct Change {
    column: usize,
    gain: f64,
    changed: u64,
}

impl Walk {
    // A walk that begins where these columns are 1, and ends after this much work.
    pub(crate) fn new(
        alloc: Global,
        matrix: Matrix,
        gain: f64,
        start: &[f64],
        most: u64,
    ) -> Result<Walk, NoMemory> {
        let point = matrix.point(start, 0.5)?;
        let mut weights = Vec::with_capacity(alloc, matrix.rows())?;
        let mut rises = Vec::with_capacity(alloc, matrix.rows())?;
        let mut broken = BrokenRows::new(alloc, matrix.rows())?;
        for row in 0..matrix.rows() {
            let weight = 1.0 / greatest_of(matrix.row(row)).max(1e-9);
            weights.push(weight)?;
            rises.push(RISE * weight)?;
            broken.set(row, matrix.is_broken(&point, row))?;
        }
        let changed = vec![in alloc; 0; matrix.columns()]?;
        Ok(Walk {
            alloc,
            matrix,
            point,
            broken,
            weights,
            rises,
            changed,
            step: 0,
            draws: 1,
            gain,
            best: None,
            work: 0,
            most,
            enough: most,
        })
    }

    // Goes on until its work is done, or a model can't be bettered.
    pub(crate) fn search(&mut self) -> Result<(), NoMemory> {
        for _step in 0..MOST_STEPS {
            if self.work > self.most.min(self.enough) {
                break;
            }
            self.step = self.step.saturating_add(1);
            self.work = self.work.saturating_add(1);
            if self.broken.rows().is_empty() {
                if !self.take_model()? {
                    break;
                }
            } else {
                self.mend_one()?;
            }
        }
        Ok(())
    }

    // The values of the point where the walk stands.
    fn values(&self) -> Result<Vec<f64>, NoMemory> {
        let mut values = Vec::with_capacity(self.alloc, self.matrix.columns())?;
        for is_one in self.point.is_one.iter() {
            values.push(if *is_one { 1.0 } else { 0.0 })?;
        }
        Ok(values)
    }

    // Keeps the point, which breaks no row, and asks for a better one; answers whether there may be one. The walk ends soon where
    // no better one comes.
    fn take_model(&mut self) -> Result<bool, NoMemory> {
        self.best = Some(self.values()?);
        let times = self.work.saturating_mul(TIMES_TO_BETTER);
        self.enough = times.saturating_add(LEAST_TO_BETTER);
        let target = self.matrix.rows().saturating_sub(1);
        if self.matrix.row(target).is_empty() {
            return Ok(false);
        }
        let least = self.point.sum_at(target) + self.gain;
        self.matrix.set_least(target, least);
        self.broken.set(target, true)?;
        Ok(true)
    }

    // Changes the best column of a broken row, if there is one. Where nothing gets better by it, broken rows weigh more.
    fn mend_one(&mut self) -> Result<(), NoMemory> {
        let count = self.broken.rows().len();
        let place = self.draw(count);
        let Some(row) = self.broken.rows().get(place).copied() else {
            return Ok(());
        };
        let length = self.matrix.row(row).len();
        let from = self.draw(length);
        let Some(change) = self.best_change(row, from) else {
            return Ok(());
        };
        if change.gain <= 0.0 {
            self.raise_weights();
        }
        self.change(change.column)
    }

    // The best of some changes by which a row's sum rises, from this place in the row on; of equal ones the one that was made
    // longest ago.
    fn best_change(&mut self, row: usize, from: usize) -> Option<Change> {
        let mut best: Option<Change> = None;
        let mut tried = 0;
        let count = self.matrix.row(row).len();
        for offset in 0..count {
            if tried >= CHANGES_TRIED {
                break;
            }
            self.work = self.work.saturating_add(1);
            let place = from.saturating_add(offset) % count;
            let Some(term) = self.matrix.row(row).get(place).copied() else {
                continue;
            };
            if self.point.step_of(term.column) * term.coefficient > 0.0 {
                tried += 1;
                let change = self.change_of(term.column);
                self.count(term.column);
                if is_better(&change, &best) {
                    best = Some(change);
                }
            }
        }
        best
    }

    // What comes of changing a column.
    fn change_of(&self, column: usize) -> Change {
        let step = self.point.step_of(column);
        let mut gain = 0.0;
        for term in self.matrix.column(column) {
            let row = term.column;
            let sum = self.point.sum_at(row);
            let less = self.matrix.lack(row, sum)
                - self.matrix.lack(row, sum + step * term.coefficient);
            gain += number_at(self.weights.as_slice(), row) * less;
        }
        let changed = match self.changed.get(column) {
            Some(changed) => *changed,
            None => 0,
        };
        Change {
            column,
            gain,
            changed,
        }
    }

    // Counts a pass over a column's rows.
    fn count(&mut self, column: usize) {
        let touched = self.matrix.column(column).len() as u64;
        self.work = self.work.saturating_add(touched);
    }

    // Changes a column's value.
    fn change(&mut self, column: usize) -> Result<(), NoMemory> {
        self.count(column);
        self.matrix.flip(&mut self.point, column);
        if let Some(changed) = self.changed.get_mut(column) {
            *changed = self.step;
        }
        for term in self.matrix.column(column) {
            let is_broken = self.matrix.is_broken(&self.point, term.column);
            self.broken.set(term.column, is_broken)?;
        }
        Ok(())
    }

    // Broken rows weigh more from now on.
    fn raise_weights(&mut self) {
        self.work = self.work.saturating_add(self.broken.rows().len() as u64);
        for row in self.broken.rows() {
            if let (Some(weight), Some(rise)) = (self.weights.get_mut(*row), self.rises.get(*row)) {
                *weight += *rise;
            }
        }
    }

    // A number below this, or 0: the next of a fixed sequence (Knuth 1997).
    fn draw(&mut self, below: usize) -> usize {
        self.draws = self
            .draws
            .wrapping_mul(6_364_136_223_846_793_005)
            .wrapping_add(1_442_695_040_888_963_407);
        let drawn = (self.draws >> 33) as usize;
        if below == 0 { 0 } else { drawn % below }
    }
}

// Whether a change is better than the best so far.
fn is_better(change: &Change, best: &Option<Change>) -> bool {
    match best {
        Some(best) => {
            change.gain > best.gain || (change.gain == best.gain && change.changed < best.changed)
        }
        None => true,
    }
}

// The greatest of the coefficients, without their signs.
fn greatest_of(terms: &[Term]) -> f64 {
    let mut greatest = 0.0;
    for term in terms {
        greatest = term.coefficient.abs().max(greatest);
    }
    greatest
}
