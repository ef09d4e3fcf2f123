// Models by rounding: the values of a relaxation's point are rounded, rows that break are mended, and costs that needn't be are
// saved (DECISIONS, rounding).
use crate::limits::NEARLY;
use linear_program::{Range, Term};
use scut_base::{Lit, NoMemory};
use std::alloc::Global;
use std::cmp::OrderedFloat;

// The rows over columns, and the same by columns: there a term's column is the row.
#[derive(Debug, Drop)]
pub(crate) struct Matrix {
    alloc: Global,
    rows: Vec<Vec<Term>>,
    least: Vec<f64>,
    columns: Vec<Vec<Term>>,
}

// Values of columns that are whole, and what each row comes to.
#[derive(Debug, Drop)]
pub(crate) struct Point {
    pub(crate) is_one: Vec<bool>,
    sums: Vec<f64>,
}

// A column, and what it costs to change it.
#[derive(Clone, Copy, Debug)]
struct Change {
    column: usize,
    cost: f64,
}

impl Matrix {
    // No rows, over so many columns.
    pub(crate) fn new(alloc: Global, columns: usize) -> Result<Matrix, NoMemory> {
        let mut lists = Vec::with_capacity(alloc, columns)?;
        for _column in 0..columns {
            lists.push(Vec::new(alloc))?;
        }
        Ok(Matrix {
            alloc,
            rows: Vec::new(alloc),
            least: Vec::new(alloc),
            columns: lists,
        })
    }

    // Adds a row that is at least the range's lower end.
    pub(crate) fn add(&mut self, terms: &[Term], range: Range) -> Result<(), NoMemory> {
        let row = self.rows.len();
        for term in terms {
            if let Some(list) = self.columns.get_mut(term.column) {
                list.push(Term {
                    column: row,
                    coefficient: term.coefficient,
                })?;
            }
        }
        self.rows.push(Vec::from_slice(self.alloc, terms)?)?;
        self.least.push(range.lower)?;
        Ok(())
    }

    // A copy of the rows.
    pub(crate) fn copy(&self) -> Result<Matrix, NoMemory> {
        let mut copy = Matrix::new(self.alloc, self.columns())?;
        for row in 0..self.rows() {
            let range = Range {
                lower: self.least(row),
                upper: f64::INFINITY,
            };
            copy.add(self.row(row), range)?;
        }
        Ok(copy)
    }

    // Adds a row: terms that are at most this.
    pub(crate) fn add_most(&mut self, terms: &[Term], most: f64) -> Result<(), NoMemory> {
        let mut opposite = Vec::with_capacity(self.alloc, terms.len())?;
        for term in terms {
            opposite.push(Term {
                column: term.column,
                coefficient: -term.coefficient,
            })?;
        }
        let range = Range {
            lower: -most,
            upper: f64::INFINITY,
        };
        self.add(opposite.as_slice(), range)
    }

    // The point that values round to, where those above the threshold are 1, mended and improved; none where rows stay broken.
    pub(crate) fn rounded(
        &self,
        values: &[f64],
        costs: &[f64],
        threshold: f64,
    ) -> Result<Option<Point>, NoMemory> {
        let mut point = self.point(values, threshold)?;
        for row in 0..self.rows.len() {
            if self.is_broken(&point, row) {
                self.mend(&mut point, row, values, costs)?;
            }
        }
        for row in 0..self.rows.len() {
            if self.is_broken(&point, row) {
                return Ok(None);
            }
        }
        self.improve(&mut point, costs)?;
        Ok(Some(point))
    }

    // How many rows there are.
    pub(crate) fn rows(&self) -> usize {
        self.rows.len()
    }

    // How many columns there are.
    pub(crate) fn columns(&self) -> usize {
        self.columns.len()
    }

    // The terms of a row.
    pub(crate) fn row(&self, row: usize) -> &[Term] {
        terms_at(self.rows.as_slice(), row)
    }

    // The rows of a column, each as a term.
    pub(crate) fn column(&self, column: usize) -> &[Term] {
        terms_at(self.columns.as_slice(), column)
    }

    // What a row is at least.
    pub(crate) fn least(&self, row: usize) -> f64 {
        number_at(self.least.as_slice(), row)
    }

    // Changes what a row is at least.
    pub(crate) fn set_least(&mut self, row: usize, least: f64) {
        if let Some(place) = self.least.get_mut(row) {
            *place = least;
        }
    }

    // What a row lacks that comes to this sum; 0 where it holds.
    pub(crate) fn lack(&self, row: usize, sum: f64) -> f64 {
        let lack = self.least(row) - sum;
        if lack > NEARLY { lack } else { 0.0 }
    }

    // The point where the columns are 1 whose values are above the threshold.
    pub(crate) fn point(&self, values: &[f64], threshold: f64) -> Result<Point, NoMemory> {
        let mut point = Point {
            is_one: vec![in self.alloc; false; self.columns.len()]?,
            sums: vec![in self.alloc; 0.0; self.rows.len()]?,
        };
        for (column, value) in values.iter().enumerate() {
            if *value > threshold {
                self.flip(&mut point, column);
            }
        }
        Ok(point)
    }

    // Changes a column's value, and the sums of its rows.
    pub(crate) fn flip(&self, point: &mut Point, column: usize) {
        let Some(place) = point.is_one.get_mut(column) else {
            return;
        };
        let step = if *place { -1.0 } else { 1.0 };
        *place = !*place;
        if let Some(terms) = self.columns.get(column) {
            for term in terms.iter() {
                if let Some(sum) = point.sums.get_mut(term.column) {
                    *sum += step * term.coefficient;
                }
            }
        }
    }

    pub(crate) fn is_broken(&self, point: &Point, row: usize) -> bool {
        match (point.sums.get(row), self.least.get(row)) {
            (Some(sum), Some(least)) => *sum < *least - NEARLY,
            _ => false,
        }
    }

    // Changes columns of a broken row until it holds, those first that cost least for what they bring and were nearest.
    fn mend(
        &self,
        point: &mut Point,
        row: usize,
        values: &[f64],
        costs: &[f64],
    ) -> Result<(), NoMemory> {
        let changes = self.changes_for(point, row, values, costs)?;
        for change in changes.iter() {
            if !self.is_broken(point, row) {
                break;
            }
            self.flip(point, change.column);
        }
        Ok(())
    }

    // The columns by which a row's sum would rise, in the order in which they are to be tried.
    fn changes_for(
        &self,
        point: &Point,
        row: usize,
        values: &[f64],
        costs: &[f64],
    ) -> Result<Vec<Change>, NoMemory> {
        let mut changes = Vec::new(self.alloc);
        if let Some(terms) = self.rows.get(row) {
            for term in terms.iter() {
                let sign = if term.coefficient > 0.0 { 1.0 } else { -1.0 };
                let is_one = point.is_one.get(term.column) == Some(&true);
                if is_one == (sign < 0.0) {
                    let cost = number_at(costs, term.column) / term.coefficient.abs();
                    changes.push(Change {
                        column: term.column,
                        cost: sign * (cost - number_at(values, term.column)),
                    })?;
                }
            }
        }
        changes.sort_unstable_by_key(|change| (OrderedFloat(change.cost), change.column));
        Ok(changes)
    }

    // Saves what no row needs, the dearest columns first.
    fn improve(&self, point: &mut Point, costs: &[f64]) -> Result<(), NoMemory> {
        let mut changes = Vec::with_capacity(self.alloc, costs.len())?;
        for (column, cost) in costs.iter().enumerate() {
            let is_one = point.is_one.get(column) == Some(&true);
            if is_one == (*cost > 0.0) && *cost != 0.0 {
                changes.push(Change {
                    column,
                    cost: -cost.abs(),
                })?;
            }
        }
        changes.sort_unstable_by_key(|change| (OrderedFloat(change.cost), change.column));
        for change in changes.iter() {
            if self.may_flip(point, change.column) {
                self.flip(point, change.column);
            }
        }
        Ok(())
    }

    // Whether all rows hold where a column's value is changed.
    fn may_flip(&self, point: &Point, column: usize) -> bool {
        let step = point.step_of(column);
        let Some(terms) = self.columns.get(column) else {
            return false;
        };
        terms.iter().all(|term| {
            let sum = number_at(point.sums.as_slice(), term.column) + step * term.coefficient;
            sum >= number_at(self.least.as_slice(), term.column) - NEARLY
        })
    }
}

impl Point {
    // What a row comes to.
    pub(crate) fn sum_at(&self, row: usize) -> f64 {
        number_at(self.sums.as_slice(), row)
    }

    // By what a column's value would change.
    pub(crate) fn step_of(&self, column: usize) -> f64 {
        if self.is_one.get(column) == Some(&true) {
            -1.0
        } else {
            1.0
        }
    }

    // The sum of terms at the point.
    pub(crate) fn sum_of(&self, terms: &[Term]) -> f64 {
        let mut sum = 0.0;
        for term in terms {
            if self.is_one.get(term.column) == Some(&true) {
                sum += term.coefficient;
            }
        }
        sum
    }

    // What columns cost at the point.
    pub(crate) fn cost_by(&self, costs: &[f64]) -> f64 {
        let mut sum = 0.0;
        for (is_one, cost) in self.is_one.iter().zip(costs) {
            if *is_one {
                sum += *cost;
            }
        }
        sum
    }

    // Whether a literal is true at the point.
    pub(crate) fn makes_true(&self, lit: Lit) -> bool {
        let value = self.is_one.get((lit.var() - 1) as usize) == Some(&true);
        value != lit.is_neg()
    }
}

// The terms at a place, and none past the end.
fn terms_at(lists: &[Vec<Term>], at: usize) -> &[Term] {
    match lists.get(at) {
        Some(terms) => terms.as_slice(),
        None => &[],
    }
}

// The number at a place, and 0 past the end.
pub(crate) fn number_at(numbers: &[f64], at: usize) -> f64 {
    match numbers.get(at) {
        Some(number) => *number,
        None => 0.0,
    }
}
