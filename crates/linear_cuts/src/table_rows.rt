// Cuts of rows of the simplex table: what is left of their multipliers beside whole numbers (Gomory 1958 and 1960).
use crate::cut::{Kind, RowFactor};
use crate::limits::{
    ABOUT_WHOLE, FINE_DENOMINATOR, LEAST_PART, MOST_DENOMINATOR, MOST_FACTORS, NEAR_WHOLE,
    NO_MULTIPLIER, SMALL_DENOMINATOR, WHOLE,
};
use crate::separation::Separation;
use scut_base::NoMemory;
use std::num::{nearest_u64_to_f64, saturating_f64_to_u64};

// What is left of a row's multiplier, from 0 to 1.
#[derive(Clone, Copy, Debug)]
struct Part {
    row: usize,
    value: f64,
}

impl Separation {
    /// Looks for cuts of the row of the table that these multipliers of the rows make.
    pub fn round_table_row(&mut self, multipliers: &[f64]) -> Result<(), NoMemory> {
        self.count(multipliers.len());
        let parts = self.parts_of(multipliers)?;
        if parts.is_empty() || parts.len() > MOST_FACTORS {
            return Ok(());
        }
        self.count(parts.len().saturating_mul(MOST_DENOMINATOR as usize));
        let small = denominator_of(parts.as_slice());
        let denominator = u64::from(small.unwrap_or(FINE_DENOMINATOR));
        let mut factors = self.factors_of(parts.as_slice(), denominator)?;
        self.keep_cut(Kind::TableRow, factors.as_slice(), denominator)?;
        if small.is_some() {
            // The opposite makes the same cut, but perhaps by a division, where this is a mixed-integer rounding.
            oppose(factors.as_mut_slice(), denominator);
            self.keep_cut(Kind::TableRow, factors.as_slice(), denominator)?;
        }
        Ok(())
    }

    // What is left of the multipliers of rows that cuts are made of.
    fn parts_of(&self, multipliers: &[f64]) -> Result<Vec<Part>, NoMemory> {
        let mut parts = Vec::new(self.alloc);
        for (row, multiplier) in multipliers.iter().enumerate() {
            let part = *multiplier - (*multiplier + WHOLE).floor();
            if multiplier.abs() > NO_MULTIPLIER && part > LEAST_PART && self.has_terms(row) {
                parts.push(Part { row, value: part })?;
            }
        }
        Ok(parts)
    }

    fn has_terms(&self, row: usize) -> bool {
        match self.rows.get(row) {
            Some(row) => !row.terms.is_empty(),
            None => false,
        }
    }

    // The parts times the denominator, as whole numbers.
    fn factors_of(&self, parts: &[Part], denominator: u64) -> Result<Vec<RowFactor>, NoMemory> {
        let mut factors = Vec::with_capacity(self.alloc, parts.len())?;
        for part in parts {
            let times = part.value * nearest_u64_to_f64(denominator);
            let factor = saturating_f64_to_u64(times.round());
            if 0 < factor && factor < denominator {
                factors.push(RowFactor {
                    row: part.row,
                    factor,
                })?;
            }
        }
        Ok(factors)
    }
}

// Makes each factor what it lacks to the denominator.
fn oppose(factors: &mut [RowFactor], denominator: u64) {
    for factor in factors {
        factor.factor = denominator.saturating_sub(factor.factor);
    }
}

// The least denominator by which all parts are about whole numbers.
fn denominator_of(parts: &[Part]) -> Option<u32> {
    for denominator in 2..=MOST_DENOMINATOR {
        let most = if denominator < SMALL_DENOMINATOR {
            NEAR_WHOLE
        } else {
            ABOUT_WHOLE
        };
        if are_near_whole(parts, f64::from(denominator), most) {
            return Some(denominator);
        }
    }
    None
}

fn are_near_whole(parts: &[Part], denominator: f64, most: f64) -> bool {
    parts.iter().all(|part| {
        let times = part.value * denominator;
        (times - times.round()).abs() <= most
    })
}
