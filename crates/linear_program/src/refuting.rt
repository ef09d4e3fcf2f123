// Rows that no values meet.

use crate::limits::NO_EXCESS;
use crate::numbers::put_number;
use crate::simplex::Simplex;
use crate::variables::Variable;

impl Simplex {
    // Whether the row of the pivot has no values within all ranges: it is a sum of rows as given, whatever the
    // roundings of the inverse.
    pub(crate) fn is_refuted(&self, sign: f64) -> bool {
        let mut least = 0.0;
        for at in self.pivot_row.listed() {
            if let Some(variable) = self.variables.get(*at) {
                least += least_of(variable, sign * self.pivot_row.number(*at));
            }
        }
        least > NO_EXCESS
    }

    // The multipliers of the row of the pivot, for the rows as they were given.
    pub(crate) fn put_multipliers(&self, multipliers: &mut [f64], sign: f64) {
        for row in self.inverse_row.listed() {
            let number = self.inverse_row.number(*row);
            put_number(multipliers, *row, -sign * number * self.matrix.scale(*row));
        }
    }

    // The multiplier of a row whose ends have crossed: of that end which is further from what its terms reach.
    // `false` where they haven't.
    pub(crate) fn put_crossed(&self, multipliers: &mut [f64], row: usize) -> bool {
        let at = self.columns.saturating_add(row);
        match self.variables.get(at) {
            Some(variable) if self.is_crossed(at, variable) => {
                let missing = variable.range.lower - self.greatest(row, 1.0);
                let beyond = -self.greatest(row, -1.0) - variable.range.upper;
                let multiplier = if missing >= beyond { 1.0 } else { -1.0 };
                put_number(multipliers, row, multiplier);
                true
            }
            _ => false,
        }
    }

    // The greatest that a row's terms reach, or these with the other sign.
    fn greatest(&self, row: usize, sign: f64) -> f64 {
        let mut least = 0.0;
        for entry in self.matrix.row(row) {
            if let Some(variable) = self.variables.get(entry.place) {
                least += least_of(variable, -sign * entry.number);
            }
        }
        -least
    }
}

// The least of a variable times a coefficient.
fn least_of(variable: &Variable, coefficient: f64) -> f64 {
    if coefficient > 0.0 {
        coefficient * variable.range.lower
    } else {
        coefficient * variable.range.upper
    }
}
