// Which variable leaves the basis, by dual steepest edge (Forrest and Goldfarb 1992), and its rows.

use crate::limits::NO_MULTIPLIER;
use crate::matrix::Entry;
use crate::simplex::{Basic, Simplex};
use crate::sparse_numbers::SparseNumbers;
use crate::variables::Variable;
use scut_base::NoMemory;

// A variable of the basis that is outside of its range.
#[derive(Clone, Copy, Debug)]
pub(crate) struct Leaving {
    pub(crate) place: usize,
    pub(crate) variable: usize,
    pub(crate) is_below: bool,
    // How far it is outside, and the end that it goes to.
    pub(crate) excess: f64,
    pub(crate) end: f64,
}

// Of which variables the row of the pivot is wanted.
#[derive(Clone, Copy, Debug)]
pub(crate) enum Part {
    OutsideOfTheBasis,
    Whole,
}

// The variables of a part.
#[derive(Clone, Copy, Debug)]
struct Wanted<'a> {
    part: Part,
    is_basic: &'a [bool],
}

impl Wanted<'_> {
    fn has(&self, variable: usize) -> bool {
        match self.part {
            Part::OutsideOfTheBasis => !matches!(self.is_basic.get(variable), Some(true)),
            Part::Whole => true,
        }
    }

    // Adds to the number of a variable, if that is wanted.
    fn add(&self, row: &mut SparseNumbers, variable: usize, number: f64) -> Result<(), NoMemory> {
        if self.has(variable) {
            row.add(variable, number)?;
        }
        Ok(())
    }

    // Adds a multiple of a list of entries, where those are wanted.
    fn add_multiple(
        &self,
        row: &mut SparseNumbers,
        entries: &[Entry],
        factor: f64,
    ) -> Result<(), NoMemory> {
        for entry in entries {
            self.add(row, entry.place, entry.number * factor)?;
        }
        Ok(())
    }
}

impl Leaving {
    // 1 where it has to rise, -1 where it has to fall.
    pub(crate) fn sign(&self) -> f64 {
        if self.is_below { 1.0 } else { -1.0 }
    }
}

impl Simplex {
    // The variable whose excess is the largest along its edge, if one is outside of its range.
    pub(crate) fn leaving(&mut self) -> Option<Leaving> {
        let places = self.slopes.len();
        self.count(places);
        let mut most = 0.0;
        let mut steepest = None;
        for (place, slope) in self.slopes.iter().enumerate() {
            if *slope > most {
                most = *slope;
                steepest = Some(place);
            }
        }
        let place = steepest?;
        let basic = self.basics.get(place)?;
        Some(leaving_at(place, basic, self.variables.get(basic.variable)?))
    }

    // The slopes of all places.
    pub(crate) fn grade(&mut self) {
        for (slope, basic) in self.slopes.iter_mut().zip(self.basics.as_slice()) {
            *slope = match self.variables.get(basic.variable) {
                Some(variable) => slope_of(variable, basic.value),
                None => 0.0,
            };
        }
    }

    // The row of the inverse at a place.
    pub(crate) fn take_inverse_row(&mut self, place: usize) -> Result<(), NoMemory> {
        self.inverse_row.clear();
        self.inverse_row.add(place, -1.0)?;
        let touched = self.factors.backward(&mut self.inverse_row)?;
        self.count_reached(touched);
        Ok(())
    }

    // The row of the inverse at the place of a column; `false` where the column isn't in the basis, or there's no inverse of it.
    pub(crate) fn take_table_row(&mut self, column: usize) -> Result<bool, NoMemory> {
        let place = match self.variables.get(column) {
            Some(variable) => variable.place(),
            None => None,
        };
        match place {
            Some(place) if !self.is_stale => {
                self.take_inverse_row(place)?;
                Ok(true)
            }
            _ => Ok(false),
        }
    }

    // The row of the pivot, by that of the inverse. Of a variable in the basis it has 0, but for roundings, or 1 where that
    // leaves: most pivots need neither.
    pub(crate) fn take_pivot_row(&mut self, part: Part) -> Result<(), NoMemory> {
        self.pivot_row.clear();
        let mut touched: usize = 0;
        for row in self.inverse_row.listed() {
            let multiplier = self.inverse_row.number(*row);
            if multiplier.abs() > NO_MULTIPLIER {
                let entries = self.matrix.row(*row);
                let wanted = Wanted {
                    part,
                    is_basic: self.is_basic.as_slice(),
                };
                wanted.add_multiple(&mut self.pivot_row, entries, multiplier)?;
                let activity = self.columns.saturating_add(*row);
                wanted.add(&mut self.pivot_row, activity, -multiplier)?;
                touched = touched.saturating_add(entries.len());
            }
        }
        self.count(touched);
        Ok(())
    }
}

// The square of how far a value is outside of the range along its edge, and 0 where it's inside.
pub(crate) fn slope_of(variable: &Variable, value: f64) -> f64 {
    let excess = excess_of(variable, value);
    if excess > variable.tolerance {
        excess * excess / variable.weight
    } else {
        0.0
    }
}

// How far a value is outside of the range; below 0 where it's inside.
fn excess_of(variable: &Variable, value: f64) -> f64 {
    let below = variable.range.lower - value;
    let above = value - variable.range.upper;
    below.max(above)
}

fn leaving_at(place: usize, basic: &Basic, variable: &Variable) -> Leaving {
    let is_below = basic.value < variable.range.lower;
    Leaving {
        place,
        variable: basic.variable,
        is_below,
        excess: excess_of(variable, basic.value),
        end: if is_below {
            variable.range.lower
        } else {
            variable.range.upper
        },
    }
}
