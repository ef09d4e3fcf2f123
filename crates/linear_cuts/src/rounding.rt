// Sums of rows, rounded (mixed-integer rounding: Nemhauser and Wolsey 1990; Marchand and Wolsey 2001), where columns near 1 are
// complemented. A sum `a*y >= (times - 1) * divisor + rest` over variables that aren't negative makes `c*y >= times * rest`: of
// `a = whole * divisor + part` comes `c = whole * rest + min(part, rest)`. What a row exceeds is such a variable as well, with its
// factor, negated, as the coefficient.
use crate::cut::{ColumnFactor, Cut, Kind, RowFactor, Term};
use crate::limits::{LEAST_VIOLATION, MOST_COEFFICIENT};
use crate::separation::{Separation, is_complemented, number_at, sum_at};
use scut_base::NoMemory;
use std::num::{nearest_u64_to_f64, saturating_f64_to_u64};

// What a sum is rounded by.
#[derive(Clone, Copy, Debug)]
struct Rounding {
    divisor: f64,
    rest: f64,
}

// A coefficient that was rounded, and what it took.
#[derive(Clone, Copy, Debug)]
struct Rounded {
    coefficient: f64,
    // What the coefficient lacks to a multiple of the divisor; where it is loose, by how much it is above one.
    difference: f64,
    is_loose: bool,
}

impl Rounding {
    fn round(&self, coefficient: f64) -> Rounded {
        let whole = (coefficient / self.divisor).floor();
        let part = coefficient - whole * self.divisor;
        let is_loose = 0.0 < part && part < self.rest;
        if is_loose {
            return Rounded {
                coefficient: whole * self.rest + part,
                difference: part,
                is_loose,
            };
        }
        let (times, difference) = if part == 0.0 {
            (whole, 0.0)
        } else {
            (whole + 1.0, self.divisor - part)
        };
        Rounded {
            coefficient: times * self.rest,
            difference,
            is_loose,
        }
    }
}

impl Separation {
    // Keeps the cut of a sum of rows by this divisor, if the point violates it by enough.
    pub(crate) fn keep_cut(
        &mut self,
        kind: Kind,
        factors: &[RowFactor],
        divisor: u64,
    ) -> Result<(), NoMemory> {
        if let Some(cut) = self.cut_of(kind, factors, divisor)? {
            self.found.push(cut)?;
        }
        Ok(())
    }

    // The cut of a sum of rows by this divisor, if the point violates it by enough.
    pub(crate) fn cut_of(
        &mut self,
        kind: Kind,
        factors: &[RowFactor],
        divisor: u64,
    ) -> Result<Option<Cut>, NoMemory> {
        let least = self.take_sum(factors)?;
        let cut = self.rounded(kind, factors, divisor, least)?;
        self.clear_sum();
        Ok(cut)
    }

    // Sums rows by their factors, and answers what the sum is at least.
    fn take_sum(&mut self, factors: &[RowFactor]) -> Result<f64, NoMemory> {
        let mut least = 0.0;
        let mut touched = 0usize;
        for factor in factors {
            if let Some(row) = self.rows.get(factor.row) {
                let times = nearest_u64_to_f64(factor.factor);
                least += times * row.least;
                add_terms(&mut self.sums, row.terms.as_slice(), times);
                name_columns(&mut self.named, &mut self.is_named, row.terms.as_slice())?;
                touched = touched.saturating_add(row.terms.len());
            }
        }
        self.count(touched);
        Ok(least)
    }

    fn clear_sum(&mut self) {
        for column in self.named.iter() {
            if let Some(place) = self.sums.get_mut(*column) {
                *place = 0.0;
            }
            if let Some(is_named) = self.is_named.get_mut(*column) {
                *is_named = false;
            }
        }
        self.named.clear();
    }

    // The cut of the sum, whose place it takes.
    fn rounded(
        &mut self,
        kind: Kind,
        factors: &[RowFactor],
        divisor: u64,
        least: f64,
    ) -> Result<Option<Cut>, NoMemory> {
        let by = nearest_u64_to_f64(divisor);
        let least = least - self.complemented_sum();
        let times = (least / by).floor();
        let rounding = Rounding {
            divisor: by,
            rest: least - times * by,
        };
        if rounding.rest <= 0.0 {
            return Ok(None);
        }
        let rest = saturating_f64_to_u64(rounding.rest);
        let mut cut = Cut::new(self.alloc, kind, divisor, rest);
        cut.least = (times + 1.0) * rounding.rest;
        self.round_columns(&mut cut, rounding)?;
        for factor in factors {
            self.round_row(&mut cut, *factor, rounding)?;
        }
        self.put_terms_of(&mut cut)?;
        Ok(self.judged(cut))
    }

    // The coefficients of the columns that are complemented.
    fn complemented_sum(&self) -> f64 {
        let mut sum = 0.0;
        for column in self.named.iter() {
            if is_complemented(number_at(self.values.as_slice(), *column)) {
                sum += number_at(self.sums.as_slice(), *column);
            }
        }
        sum
    }

    // Rounds the sum's coefficients, and adds to the cut what that takes.
    fn round_columns(&mut self, cut: &mut Cut, rounding: Rounding) -> Result<(), NoMemory> {
        for column in self.named.iter() {
            let is_complemented = is_complemented(number_at(self.values.as_slice(), *column));
            let Some(place) = self.sums.get_mut(*column) else {
                continue;
            };
            let rounded = rounding.round(if is_complemented { -*place } else { *place });
            *place = rounded.coefficient;
            if is_complemented {
                *place = -rounded.coefficient;
                cut.least -= rounded.coefficient;
            }
            let column = ColumnFactor {
                column: *column,
                is_complemented,
                factor: saturating_f64_to_u64(rounded.difference),
            };
            cut.add_column(column, rounded.is_loose)?;
        }
        Ok(())
    }

    // Adds a row to what is padded; or to what is loose, and then takes what it exceeds off the sum.
    fn round_row(
        &mut self,
        cut: &mut Cut,
        factor: RowFactor,
        rounding: Rounding,
    ) -> Result<(), NoMemory> {
        let rounded = rounding.round(-nearest_u64_to_f64(factor.factor));
        if !rounded.is_loose {
            cut.padded.rows.push(factor)?;
            return Ok(());
        }
        if let Some(row) = self.rows.get(factor.row) {
            add_terms(&mut self.sums, row.terms.as_slice(), rounded.coefficient);
            cut.least += rounded.coefficient * row.least;
        }
        cut.loose.rows.push(RowFactor {
            row: factor.row,
            factor: saturating_f64_to_u64(rounded.difference),
        })?;
        Ok(())
    }

    // Makes the cut's terms of the sum, by a scale that makes all of them small.
    fn put_terms_of(&mut self, cut: &mut Cut) -> Result<(), NoMemory> {
        cut.scale = if cut.is_divided() {
            cut.rest
        } else {
            let scale = (self.largest_coefficient() / MOST_COEFFICIENT).ceil();
            saturating_f64_to_u64(scale).max(1)
        };
        let scale = nearest_u64_to_f64(cut.scale);
        for column in self.named.iter() {
            let sum = number_at(self.sums.as_slice(), *column);
            let value = number_at(self.values.as_slice(), *column);
            let even = Even::of(sum, scale, value);
            cut.least -= even.lost;
            let term = Term {
                column: *column,
                coefficient: even.coefficient,
            };
            cut.add_term(term, even.evening(*column))?;
        }
        cut.least = (cut.least / scale).ceil();
        Ok(())
    }

    fn largest_coefficient(&self) -> f64 {
        let mut largest: f64 = 0.0;
        for column in self.named.iter() {
            largest = largest.max(number_at(self.sums.as_slice(), *column).abs());
        }
        largest
    }

    // A cut with how far the point is from it, if that is enough, and its coefficients are small.
    fn judged(&self, cut: Cut) -> Option<Cut> {
        let mut cut = cut;
        let mut square = 0.0;
        let mut largest: f64 = 0.0;
        for term in cut.terms.iter() {
            square += term.coefficient * term.coefficient;
            largest = largest.max(term.coefficient.abs());
        }
        cut.length = square.sqrt();
        let missing = cut.least - sum_at(cut.terms.as_slice(), self.values.as_slice());
        cut.violation = missing / cut.length;
        if largest <= MOST_COEFFICIENT && cut.violation > LEAST_VIOLATION {
            Some(cut)
        } else {
            None
        }
    }
}

// A coefficient divided by the scale and evened out: up, or down where the point loses less by that.
#[derive(Clone, Copy, Debug)]
struct Even {
    coefficient: f64,
    is_down: bool,
    // By how much the scale times the coefficient differs from what it was.
    difference: f64,
    // By how much less the sum is at least.
    lost: f64,
}

impl Even {
    fn of(sum: f64, scale: f64, value: f64) -> Even {
        let below = (sum / scale).floor();
        let over = sum - below * scale;
        let is_up = over > 0.0 && (scale - over) * value <= over * (1.0 - value);
        if is_up {
            return Even {
                coefficient: below + 1.0,
                is_down: false,
                difference: scale - over,
                lost: 0.0,
            };
        }
        Even {
            coefficient: below,
            is_down: true,
            difference: over,
            lost: over,
        }
    }

    // What evens it out: of the column, or of 1 less it.
    fn evening(&self, column: usize) -> ColumnFactor {
        ColumnFactor {
            column,
            is_complemented: self.is_down,
            factor: saturating_f64_to_u64(self.difference),
        }
    }
}

// Adds a multiple of a row to sums by column.
fn add_terms(sums: &mut [f64], terms: &[Term], factor: f64) {
    for term in terms {
        if let Some(place) = sums.get_mut(term.column) {
            *place += factor * term.coefficient;
        }
    }
}

// Notes which columns a row names, each once.
fn name_columns(
    named: &mut Vec<usize>,
    is_named: &mut [bool],
    terms: &[Term],
) -> Result<(), NoMemory> {
    for term in terms {
        if let Some(mark) = is_named.get_mut(term.column) {
            if !*mark {
                *mark = true;
                named.push(term.column)?;
            }
        }
    }
    Ok(())
}
