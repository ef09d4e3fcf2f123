// Pivots: values, reduced costs, weights and the factors after one variable has come in for another.

use crate::limits::{AGREEMENT, LEAST_SQUARE, LEAST_WEIGHT, NO_NUMBER, NO_PIVOT};
use crate::numbers::{put_flag, put_number};
use crate::pricing::{Leaving, slope_of};
use crate::simplex::{Basic, Simplex};
use crate::variables::{Standing, Variable, end_of};
use scut_base::NoMemory;

// How the pivot's column and its row agree.
#[derive(Clone, Copy, Debug)]
pub(crate) enum Agreement {
    Good,
    // The factors have to be built anew.
    Bad,
    // There's no pivot.
    Zero,
}

// What all places need of a pivot.
#[derive(Clone, Copy, Debug)]
struct Step {
    place: usize,
    // The number of the column at this place.
    pivot: f64,
    // How far the variable that enters moves.
    by: f64,
    // The square of the row of the inverse.
    square: f64,
}

impl Simplex {
    // The column of the variable that enters, as the basis tells it, by place.
    pub(crate) fn take_pivot_column(&mut self, entering: usize) -> Result<(), NoMemory> {
        self.load_column(entering)?;
        let touched = self.factors.forward_keeping(&mut self.pivot_column)?;
        self.count_reached(touched);
        Ok(())
    }

    // The column of a variable with its sign changed, by row.
    pub(crate) fn load_column(&mut self, variable: usize) -> Result<(), NoMemory> {
        self.pivot_column.clear();
        if variable < self.columns {
            self.pivot_column
                .add_multiple(self.matrix.column(variable), -1.0)
        } else {
            self.pivot_column.add(variable - self.columns, 1.0)
        }
    }

    // Whether the pivot is the same in its row and in its column.
    pub(crate) fn agreement(&self, place: usize, entering: usize) -> Agreement {
        let by_row = self.pivot_row.number(entering);
        let by_column = self.pivot_column.number(place);
        if (by_row - by_column).abs() > AGREEMENT * (1.0 + by_row.abs())
            && self.factors.has_changed()
        {
            Agreement::Bad
        } else if by_column.abs() < NO_PIVOT {
            Agreement::Zero
        } else {
            Agreement::Good
        }
    }

    // Puts a variable into the basis for the one that leaves, which then stands at the end that it was beyond.
    pub(crate) fn pivot(&mut self, leaving: &Leaving, entering: usize) -> Result<(), NoMemory> {
        // Should memory be refused, the factors don't belong to the basis.
        self.is_stale = true;
        self.flip()?;
        let pivot = self.pivot_column.number(leaving.place);
        let step = Step {
            place: leaving.place,
            pivot,
            by: (self.value_at(leaving.place) - leaving.end) / pivot,
            square: self.inverse_row.sum_of_squares().max(LEAST_SQUARE),
        };
        self.take_edge_column()?;
        self.move_basics(&step);
        self.change_costs(leaving, entering, pivot);
        self.exchange(leaving, entering, &step);
        let touched = self.basics.len().saturating_mul(4);
        self.count(touched);
        self.factors.change(leaving.place, pivot)?;
        self.is_stale = false;
        Ok(())
    }

    // The row of the inverse as the basis tells it, where the pivot's column has numbers.
    fn take_edge_column(&mut self) -> Result<(), NoMemory> {
        self.edge_column.clear();
        for row in self.inverse_row.listed() {
            self.edge_column.add(*row, -self.inverse_row.number(*row))?;
        }
        let touched = self
            .factors
            .forward_at(&mut self.edge_column, &self.pivot_column)?;
        self.count_reached(touched);
        Ok(())
    }

    // The values of the basis and its weights after the pivot.
    fn move_basics(&mut self, step: &Step) {
        for place in self.pivot_column.listed() {
            let number = self.pivot_column.number(*place);
            let edge = self.edge_column.number(*place);
            match self.basics.get_mut(*place) {
                Some(basic) if number.abs() > NO_NUMBER => {
                    basic.value -= number * step.by;
                    if *place != step.place {
                        if let Some(variable) = self.variables.get_mut(basic.variable) {
                            reweigh(variable, number / step.pivot, edge, step.square);
                            let slope = slope_of(variable, basic.value);
                            put_number(self.slopes.as_mut_slice(), *place, slope);
                        }
                    }
                }
                _ => (),
            }
        }
    }

    // The reduced costs after the pivot.
    fn change_costs(&mut self, leaving: &Leaving, entering: usize, pivot: f64) {
        let dual = self.reduced_cost(entering) / pivot;
        for at in self.pivot_row.listed() {
            if let Some(variable) = self.variables.get_mut(*at) {
                if !variable.is_basic() {
                    variable.reduced_cost -= dual * self.pivot_row.number(*at);
                }
            }
        }
        self.put_reduced_cost(leaving.variable, -dual);
        self.put_reduced_cost(entering, 0.0);
    }

    fn reduced_cost(&self, variable: usize) -> f64 {
        match self.variables.get(variable) {
            Some(variable) => variable.reduced_cost,
            None => 0.0,
        }
    }

    fn put_reduced_cost(&mut self, variable: usize, cost: f64) {
        if let Some(place) = self.variables.get_mut(variable) {
            place.reduced_cost = cost;
        }
    }

    // The two variables change places.
    fn exchange(&mut self, leaving: &Leaving, entering: usize, step: &Step) {
        let mut value = 0.0;
        if let Some(variable) = self.variables.get_mut(entering) {
            value = variable.end() + step.by;
            variable.standing = Standing::Basic(step.place);
            variable.weight = (step.square / (step.pivot * step.pivot)).max(LEAST_WEIGHT);
            let slope = slope_of(variable, value);
            put_number(self.slopes.as_mut_slice(), step.place, slope);
        }
        if let Some(variable) = self.variables.get_mut(leaving.variable) {
            variable.standing = end_of(!leaving.is_below);
            variable.weight = 1.0;
        }
        put_flag(self.is_basic.as_mut_slice(), entering, true);
        put_flag(self.is_basic.as_mut_slice(), leaving.variable, false);
        if let Some(basic) = self.basics.get_mut(step.place) {
            *basic = Basic {
                variable: entering,
                value,
            };
        }
    }

    fn value_at(&self, place: usize) -> f64 {
        match self.basics.get(place) {
            Some(basic) => basic.value,
            None => 0.0,
        }
    }
}

// The weight after the pivot of a variable whose number in the pivot's column is `part` pivots (Forrest and
// Goldfarb 1992).
fn reweigh(variable: &mut Variable, part: f64, edge: f64, square: f64) {
    let weight = variable.weight - 2.0 * part * edge + part * part * square;
    let least = LEAST_WEIGHT * (part * part).max(1.0);
    variable.weight = weight.max(least);
}
