// Cuts of single rows, by divisors that are coefficients of theirs (Marchand and Wolsey 2001).
use crate::cut::{Cut, Kind, RowFactor};
use crate::limits::{BETWEEN, HALVINGS, MOST_DIVISORS};
use crate::separation::{Separation, fraction, number_at};
use scut_base::NoMemory;
use std::num::saturating_f64_to_u64;

impl Separation {
    /// Looks for a cut of each row by itself: the one that cuts deepest for its length, of those by coefficients of columns
    /// between 0 and 1.
    pub fn round_rows(&mut self) -> Result<(), NoMemory> {
        for row in 0..self.rows.len() {
            let divisors = self.divisors_of(row)?;
            if let Some(cut) = self.deepest_cut(row, divisors.as_slice())? {
                self.found.push(cut)?;
            }
        }
        Ok(())
    }

    // The divisors to be tried with a row: coefficients, the largest first, and then these halved.
    fn divisors_of(&mut self, row: usize) -> Result<Vec<u64>, NoMemory> {
        let mut divisors = Vec::new(self.alloc);
        let Some(row) = self.rows.get(row) else {
            return Ok(divisors);
        };
        for term in row.terms.iter() {
            let divisor = saturating_f64_to_u64(term.coefficient.abs());
            let is_between = fraction(number_at(self.values.as_slice(), term.column)) > BETWEEN;
            if is_between && divisor > 1 {
                divisors.push(divisor)?;
            }
        }
        let touched = row.terms.len();
        self.count(touched);
        divisors.sort_unstable();
        divisors.dedup();
        divisors.reverse();
        divisors.truncate(MOST_DIVISORS);
        for place in 0..divisors.len() {
            let divisor = divisors.get(place).copied().unwrap_or(0);
            add_halved(&mut divisors, divisor)?;
        }
        Ok(divisors)
    }

    // The cut of a row that cuts deepest for its length.
    fn deepest_cut(&mut self, row: usize, divisors: &[u64]) -> Result<Option<Cut>, NoMemory> {
        let mut deepest: Option<Cut> = None;
        let mut violation = 0.0;
        for divisor in divisors {
            let factors = [RowFactor { row, factor: 1 }];
            if let Some(cut) = self.cut_of(Kind::OwnRow, factors.as_slice(), *divisor)? {
                if cut.violation > violation {
                    violation = cut.violation;
                    deepest = Some(cut);
                }
            }
        }
        Ok(deepest)
    }
}

// Adds a divisor halved, and halved again, as long as it stays above 1.
fn add_halved(divisors: &mut Vec<u64>, divisor: u64) -> Result<(), NoMemory> {
    let mut halved = divisor;
    for _halving in 0..HALVINGS {
        halved /= 2;
        if halved > 1 {
            divisors.push(halved)?;
        }
    }
    Ok(())
}
