// Zero-half cuts: sums of rows, halved (Caprara and Fischetti 1996), found by elimination over two elements among the rows
// with little slack (Koster, Zymolka and Kutschka 2009).
use crate::bits::{count, flip_all, flip_bit, has_bit, members, no_bits};
use crate::cut::{Kind, RowFactor};
use crate::limits::{LEAST_HALF, MOST_HALVES, MOST_TIGHT, TIGHT};
use crate::separation::{Row, Separation, fraction, is_complemented, number_at};
use scut_base::NoMemory;
use std::alloc::Global;
use std::cmp::OrderedFloat;

// A sum of tight rows modulo 2.
#[derive(Debug, Drop)]
struct Sum {
    // The rows, by their places among the tight ones.
    rows: Vec<u64>,
    // The columns between 0 and 1 with an odd coefficient, by their places among those columns.
    odd: Vec<u64>,
    // Whether what the sum is at least is odd, where columns near 1 are complemented.
    is_odd: bool,
    slack: f64,
    // Whether it has served to eliminate a column.
    is_used: bool,
}

// The tight rows as sums of one row each, and what they are over.
#[derive(Debug, Drop)]
struct Elimination {
    alloc: Global,
    tight: Vec<usize>,
    sums: Vec<Sum>,
    // How far each of the columns between 0 and 1 is from whole.
    fractions: Vec<f64>,
    // Those of which cuts are to be made.
    chosen: Vec<Vec<u64>>,
    work: usize,
}

impl Separation {
    /// Looks for zero-half cuts.
    pub fn find_zero_half(&mut self) -> Result<(), NoMemory> {
        let mut elimination = self.elimination()?;
        elimination.run()?;
        self.count(elimination.work);
        for rows in elimination.chosen.iter() {
            let mut factors = Vec::new(self.alloc);
            for place in members(self.alloc, rows.as_slice())?.iter() {
                if let Some(row) = elimination.tight.get(*place) {
                    factors.push(RowFactor {
                        row: *row,
                        factor: 1,
                    })?;
                }
            }
            self.keep_cut(Kind::ZeroHalf, factors.as_slice(), 2)?;
        }
        Ok(())
    }

    fn elimination(&self) -> Result<Elimination, NoMemory> {
        let columns = self.columns_between(0.0)?;
        let tight = self.tight_rows()?;
        let places = self.places_of(columns.as_slice())?;
        let mut sums = Vec::with_capacity(self.alloc, tight.len())?;
        for (place, row) in tight.iter().enumerate() {
            if let Some(row) = self.rows.get(*row) {
                let mut rows = no_bits(self.alloc, tight.len())?;
                flip_bit(&mut rows, place);
                sums.push(self.sum_of(row, rows, places.as_slice(), columns.len())?)?;
            }
        }
        let mut fractions = Vec::with_capacity(self.alloc, columns.len())?;
        for column in columns.iter() {
            fractions.push(fraction(number_at(self.values.as_slice(), *column)))?;
        }
        Ok(Elimination {
            alloc: self.alloc,
            tight,
            sums,
            fractions,
            chosen: Vec::new(self.alloc),
            work: 0,
        })
    }

    // The rows with little slack, those with least first.
    fn tight_rows(&self) -> Result<Vec<usize>, NoMemory> {
        let mut tight = Vec::new(self.alloc);
        for (place, row) in self.rows.iter().enumerate() {
            if row.slack < TIGHT && !row.terms.is_empty() {
                tight.push(place)?;
            }
        }
        if tight.len() > MOST_TIGHT {
            tight.sort_by_key(|row| OrderedFloat(self.slack(*row).unwrap_or(0.0)))?;
            tight.truncate(MOST_TIGHT);
        }
        Ok(tight)
    }

    // The place of each column among those between 0 and 1.
    fn places_of(&self, columns: &[usize]) -> Result<Vec<Option<usize>>, NoMemory> {
        let mut places = vec![in self.alloc; None; self.values.len()]?;
        for (place, column) in columns.iter().enumerate() {
            if let Some(slot) = places.get_mut(*column) {
                *slot = Some(place);
            }
        }
        Ok(places)
    }

    // A row as a sum.
    fn sum_of(
        &self,
        row: &Row,
        rows: Vec<u64>,
        places: &[Option<usize>],
        columns: usize,
    ) -> Result<Sum, NoMemory> {
        let mut odd = no_bits(self.alloc, columns)?;
        let mut is_odd = is_odd_number(row.least);
        for term in row.terms.iter() {
            if is_odd_number(term.coefficient) {
                if is_complemented(number_at(self.values.as_slice(), term.column)) {
                    is_odd = !is_odd;
                }
                if let Some(Some(place)) = places.get(term.column) {
                    flip_bit(&mut odd, *place);
                }
            }
        }
        Ok(Sum {
            rows,
            odd,
            is_odd,
            slack: row.slack.max(0.0),
            is_used: false,
        })
    }
}

impl Elimination {
    // Chooses sums, while it takes one column after another out of all sums but one.
    fn run(&mut self) -> Result<(), NoMemory> {
        for sum in 0..self.sums.len() {
            self.choose(sum)?;
        }
        for column in 0..self.fractions.len() {
            if self.chosen.len() >= MOST_HALVES {
                break;
            }
            if let Some(by) = self.sum_with(column) {
                self.eliminate(column, by)?;
            }
        }
        Ok(())
    }

    // The sum that is to take a column out of the others: that of least slack, and among these of fewest columns.
    fn sum_with(&self, column: usize) -> Option<usize> {
        let mut best = None;
        let mut least = (OrderedFloat(f64::INFINITY), usize::MAX);
        for (place, sum) in self.sums.iter().enumerate() {
            if !sum.is_used && has_bit(sum.odd.as_slice(), column) {
                let key = (OrderedFloat(sum.slack), count(sum.odd.as_slice()));
                if key < least {
                    least = key;
                    best = Some(place);
                }
            }
        }
        best
    }

    // Adds this sum to all others with the column.
    fn eliminate(&mut self, column: usize, by: usize) -> Result<(), NoMemory> {
        let Some(sum) = self.sums.get_mut(by) else {
            return Ok(());
        };
        sum.is_used = true;
        let rows = Vec::from_slice(self.alloc, sum.rows.as_slice())?;
        let odd = Vec::from_slice(self.alloc, sum.odd.as_slice())?;
        let (is_odd, slack) = (sum.is_odd, sum.slack);
        for place in 0..self.sums.len() {
            if place != by && self.has_column(place, column) {
                if let Some(other) = self.sums.get_mut(place) {
                    flip_all(&mut other.rows, rows.as_slice());
                    flip_all(&mut other.odd, odd.as_slice());
                    other.is_odd ^= is_odd;
                    other.slack += slack;
                }
                self.work = self
                    .work
                    .saturating_add(rows.len())
                    .saturating_add(odd.len());
                self.choose(place)?;
            }
        }
        Ok(())
    }

    fn has_column(&self, sum: usize, column: usize) -> bool {
        match self.sums.get(sum) {
            Some(sum) => has_bit(sum.odd.as_slice(), column),
            None => false,
        }
    }

    // Chooses a sum that makes a cut which is violated by enough, and hasn't been chosen.
    fn choose(&mut self, place: usize) -> Result<(), NoMemory> {
        self.work = self.work.saturating_add(self.fractions.len());
        if let Some(rows) = self.worthy_rows(place)? {
            self.chosen.push(rows)?;
        }
        Ok(())
    }

    // The rows of a sum, if it's to be chosen.
    fn worthy_rows(&self, place: usize) -> Result<Option<Vec<u64>>, NoMemory> {
        let Some(sum) = self.sums.get(place) else {
            return Ok(None);
        };
        if !sum.is_odd || sum.slack >= 1.0 || self.chosen.len() >= MOST_HALVES {
            return Ok(None);
        }
        if self.violation(sum) < LEAST_HALF || self.chosen.contains(&sum.rows) {
            return Ok(None);
        }
        Ok(Some(Vec::from_slice(self.alloc, sum.rows.as_slice())?))
    }

    // By how much the point would violate the cut of a sum that is odd.
    fn violation(&self, sum: &Sum) -> f64 {
        let mut twice = 1.0 - sum.slack;
        for (column, fraction) in self.fractions.iter().enumerate() {
            if has_bit(sum.odd.as_slice(), column) {
                twice -= *fraction;
            }
        }
        twice / 2.0
    }
}

fn is_odd_number(number: f64) -> bool {
    let half = number / 2.0;
    half.floor() != half
}
