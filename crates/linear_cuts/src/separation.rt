// Rows beside a point that meets them.
use crate::cut::{Cut, Term};
use crate::limits::{BETWEEN, LEAST_FRACTION, MOST_TABLE_ROWS};
use scut_base::NoMemory;
use std::alloc::Global;
use std::cmp::OrderedFloat;

// A row `sum of terms >= least`, with whole numbers.
#[derive(Debug, Drop)]
pub(crate) struct Row {
    pub(crate) terms: Vec<Term>,
    pub(crate) least: f64,
    // By how much the point exceeds it.
    pub(crate) slack: f64,
}

/// Rows over columns within 0 and 1, beside a point that meets them, and the cuts that were found of them there.
#[derive(Debug, Drop)]
pub struct Separation {
    pub(crate) alloc: Global,
    pub(crate) values: Vec<f64>,
    pub(crate) rows: Vec<Row>,
    pub(crate) found: Vec<Cut>,
    // By column, the coefficients of a sum or of a cut; all 0 between two calls.
    pub(crate) sums: Vec<f64>,
    // The columns that a sum names, and by column whether it is one of these; none between two calls.
    pub(crate) named: Vec<usize>,
    pub(crate) is_named: Vec<bool>,
    pub(crate) work: u64,
}

impl Separation {
    /// No rows, over so many columns, which are 0.
    pub fn new(alloc: Global, columns: usize) -> Result<Separation, NoMemory> {
        Ok(Separation {
            alloc,
            values: vec![in alloc; 0.0; columns]?,
            rows: Vec::new(alloc),
            found: Vec::new(alloc),
            sums: vec![in alloc; 0.0; columns]?,
            named: Vec::new(alloc),
            is_named: vec![in alloc; false; columns]?,
            work: 0,
        })
    }

    /// Adds a row: the sum of its terms, which `add_term` adds, is at least this. The numbers are to be whole; without terms it
    /// stands for a row that no cut is made of.
    pub fn add_row(&mut self, least: f64) -> Result<(), NoMemory> {
        self.rows.push(Row {
            terms: Vec::new(self.alloc),
            least,
            slack: 0.0,
        })?;
        Ok(())
    }

    /// Adds a term to the row that was added last.
    pub fn add_term(&mut self, column: usize, coefficient: f64) -> Result<(), NoMemory> {
        if let Some(row) = self.rows.last_mut() {
            row.terms.push(Term {
                column,
                coefficient,
            })?;
        }
        Ok(())
    }

    /// Leaves these rows alone, which are given by their places, ascending.
    pub fn keep_rows(&mut self, staying: &[usize]) {
        let mut place = 0usize;
        self.rows.retain(|_row| {
            let stays = staying.binary_search(&place).is_ok();
            place = place.saturating_add(1);
            stays
        });
    }

    /// Forgets the cuts, and goes to the point of these values.
    pub fn go_to(&mut self, values: &[f64]) {
        self.found.clear();
        for (place, value) in self.values.iter_mut().zip(values) {
            *place = value.max(0.0).min(1.0);
        }
        let mut touched = 0usize;
        for row in self.rows.iter_mut() {
            row.slack = sum_at(row.terms.as_slice(), self.values.as_slice()) - row.least;
            touched = touched.saturating_add(row.terms.len());
        }
        self.count(touched);
    }

    /// By how much the point exceeds a row; none where there's no such row.
    pub fn slack(&self, row: usize) -> Option<f64> {
        self.rows.get(row).map(|row| row.slack)
    }

    /// The columns whose rows of the table are worth asking, those furthest from whole first.
    pub fn columns_to_ask(&self) -> Result<Vec<usize>, NoMemory> {
        let mut columns = self.columns_between(LEAST_FRACTION)?;
        columns.truncate(MOST_TABLE_ROWS);
        Ok(columns)
    }

    // The columns that are at least so far from whole, those that are furthest first.
    pub(crate) fn columns_between(&self, least: f64) -> Result<Vec<usize>, NoMemory> {
        let mut columns = Vec::new(self.alloc);
        for (column, value) in self.values.iter().enumerate() {
            if fraction(*value) > least.max(BETWEEN) {
                columns.push(column)?;
            }
        }
        let values = self.values.as_slice();
        columns.sort_unstable_by_key(|column| {
            (OrderedFloat(-fraction(number_at(values, *column))), *column)
        });
        Ok(columns)
    }

    /// How many numbers have been touched so far.
    pub fn work(&self) -> u64 {
        self.work
    }

    pub(crate) fn count(&mut self, touched: usize) {
        self.work = self.work.saturating_add(touched as u64);
    }
}

// How far a value is from whole.
pub(crate) fn fraction(value: f64) -> f64 {
    value.min(1.0 - value)
}

// Whether 1 less a column stands for it, which is nearer to 0 there.
pub(crate) fn is_complemented(value: f64) -> bool {
    value > 0.5
}

// The number at a place, and 0 past the end.
pub(crate) fn number_at(numbers: &[f64], at: usize) -> f64 {
    match numbers.get(at) {
        Some(number) => *number,
        None => 0.0,
    }
}

pub(crate) fn sum_at(terms: &[Term], values: &[f64]) -> f64 {
    let mut sum = 0.0;
    for term in terms {
        sum += term.coefficient * number_at(values, term.column);
    }
    sum
}
