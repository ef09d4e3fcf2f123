// Sums of lines by factors in floats: which factors serve.
use crate::combining::{Sources, place_of, value_of};
use crate::factors::{Multiplier, factor_of};
use pb_lin::Constraint;
use scut_base::{NoMemory, Partial};
use std::alloc::Global;
use std::num::nearest_u64_to_f64;

// Whole numbers below this, their sums and products are exact as floats.
const EXACT: f64 = 9_007_199_254_740_992.0;

// A line's terms end here among all; it says that they sum to `least` at least, and `size` bounds what it adds to any sum.
#[derive(Clone, Copy, Debug)]
struct TrialLine {
    end: usize,
    least: f64,
    size: f64,
}

// The lines of some multipliers, term by term.
#[derive(Debug, Drop)]
pub(crate) struct Trial {
    lines: Vec<TrialLine>,
    // The place of each term's variable among those that are named, and its coefficient, where `c·~x = c - c·x`.
    terms: Vec<(usize, f64)>,
    // The value of each variable that is named, where it has one, and its coefficient in the last sum.
    values: Vec<Option<bool>>,
    sums: Vec<f64>,
}

impl Trial {
    // Of lines that name these variables alone, which ascend. Costs a pass over all variables, and one over the lines' terms.
    pub(crate) fn over(
        alloc: Global,
        sources: &Sources<'_>,
        multipliers: &[Multiplier],
        named: &[u64],
        fixed: &Partial,
    ) -> Result<Trial, NoMemory> {
        let mut places = vec![in alloc; 0usize; fixed.len() as usize]?;
        let mut values = Vec::with_capacity(alloc, named.len())?;
        for (place, var) in named.iter().enumerate() {
            if let Some(slot) = places.get_mut(place_of(*var)) {
                *slot = place;
            }
            values.push(value_of(fixed, *var))?;
        }
        let mut trial = Trial {
            lines: Vec::with_capacity(alloc, multipliers.len())?,
            terms: Vec::new(alloc),
            values,
            sums: vec![in alloc; 0.0; named.len()]?,
        };
        for multiplier in multipliers {
            trial.add_line(sources.get(multiplier.line), places.as_slice())?;
        }
        Ok(trial)
    }

    // A line that isn't there adds nothing, and is too large for any sum.
    fn add_line(&mut self, line: Option<&Constraint>, places: &[usize]) -> Result<(), NoMemory> {
        let mut least = 0.0;
        let mut size = EXACT;
        if let Some(line) = line {
            least = float_of(line.degree());
            size = least;
            for at in 0..line.len() {
                let (lit, coefficient) = line.term(at);
                let coefficient = float_of(coefficient);
                size += coefficient;
                let place = places.get(place_of(lit.var())).copied().unwrap_or(0);
                if lit.is_neg() {
                    least -= coefficient;
                    self.terms.push((place, -coefficient))?;
                } else {
                    self.terms.push((place, coefficient))?;
                }
            }
        }
        let end = self.terms.len();
        self.lines.push(TrialLine { end, least, size })?;
        Ok(())
    }

    // Whether the sum of the lines by the multipliers, scaled and rounded, stays below what it has to be where the values hold;
    // `None` where floats don't tell. Costs a pass over the lines' terms.
    pub(crate) fn is_short(&mut self, multipliers: &[Multiplier], scale: f64) -> Option<bool> {
        for sum in self.sums.iter_mut() {
            *sum = 0.0;
        }
        let mut least = 0.0;
        let mut size = 0.0;
        let mut begin = 0;
        for (line, multiplier) in self.lines.iter().zip(multipliers) {
            let factor = nearest_u64_to_f64(factor_of(multiplier, scale));
            size += factor * line.size;
            if size >= EXACT {
                return None;
            }
            if factor > 0.0 {
                least += factor * line.least;
                add_terms(
                    self.sums.as_mut_slice(),
                    self.terms.get(begin..line.end),
                    factor,
                );
            }
            begin = line.end;
        }
        Some(least > self.most())
    }

    // The most that the last sum can be where the values hold.
    fn most(&self) -> f64 {
        let mut most = 0.0;
        for (sum, value) in self.sums.iter().zip(self.values.as_slice()) {
            most += match value {
                Some(true) => *sum,
                Some(false) => 0.0,
                None => sum.max(0.0),
            };
        }
        most
    }
}

// Adds a multiple of terms to the sums.
fn add_terms(sums: &mut [f64], terms: Option<&[(usize, f64)]>, factor: f64) {
    for (place, coefficient) in terms.unwrap_or(&[]) {
        if let Some(sum) = sums.get_mut(*place) {
            *sum += factor * *coefficient;
        }
    }
}

// The nearest float, and more than any sum may be for what is past 2^64.
fn float_of(number: u128) -> f64 {
    match u64::try_from(number) {
        Ok(number) => nearest_u64_to_f64(number),
        Err(_) => nearest_u64_to_f64(u64::MAX),
    }
}
