// The state of the simplex method, and what follows from its basis.

use crate::factors::Factors;
use crate::limits::{
    CROSSED, FIRST_OF_SEQUENCE, NO_COST, SPREAD, SPREAD_WITHOUT_COSTS, TIMES_PASSED,
};
use crate::matrix::{Entry, Matrix};
use crate::numbers::number_at;
use crate::ordering::Order;
use crate::ratios::Candidates;
use crate::sparse_numbers::SparseNumbers;
use crate::variables::{Standing, Variable, scaled};
use crate::{Range, Term};
use scut_base::NoMemory;
use std::alloc::Global;

// A variable in the basis with its value.
#[derive(Clone, Copy, Debug)]
pub(crate) struct Basic {
    pub(crate) variable: usize,
    pub(crate) value: f64,
}

#[derive(Debug, Drop)]
pub(crate) struct Simplex {
    pub(crate) alloc: Global,
    pub(crate) columns: usize,
    pub(crate) matrix: Matrix,
    // Of the columns, then of the rows.
    pub(crate) variables: Vec<Variable>,
    // The costs of the columns as given.
    pub(crate) costs: Vec<f64>,
    // By place; there are as many places as rows.
    pub(crate) basics: Vec<Basic>,
    // By place: the square of how far the value is outside of its range, over the weight.
    pub(crate) slopes: Vec<f64>,
    // By variable.
    pub(crate) is_basic: Vec<bool>,
    pub(crate) factors: Factors,
    // Whether factors don't belong to the basis, and whether reduced costs don't.
    pub(crate) is_stale: bool,
    pub(crate) are_costs_new: bool,
    // Numbers touched so far.
    pub(crate) work: u64,
    // Of the pivot that is made: its row of the inverse, its row, its column, and that row of the inverse as a column.
    pub(crate) inverse_row: SparseNumbers,
    pub(crate) pivot_row: SparseNumbers,
    pub(crate) pivot_column: SparseNumbers,
    pub(crate) edge_column: SparseNumbers,
    pub(crate) candidates: Candidates,
    // For a rebuilding.
    pub(crate) order: Order,
}

impl Simplex {
    pub(crate) fn new(alloc: Global, columns: usize) -> Result<Simplex, NoMemory> {
        Ok(Simplex {
            alloc,
            columns,
            matrix: Matrix::new(alloc, columns)?,
            variables: vec![in alloc; Variable::of_column(); columns]?,
            costs: vec![in alloc; 0.0; columns]?,
            basics: Vec::new(alloc),
            slopes: Vec::new(alloc),
            is_basic: Vec::new(alloc),
            factors: Factors::new(alloc),
            is_stale: true,
            are_costs_new: true,
            work: 0,
            inverse_row: SparseNumbers::new(alloc),
            pivot_row: SparseNumbers::new(alloc),
            pivot_column: SparseNumbers::new(alloc),
            edge_column: SparseNumbers::new(alloc),
            candidates: Candidates::new(alloc),
            order: Order::new(alloc),
        })
    }

    // Adds the row of these terms, whose activity comes into the basis, if there is room. After `NoMemory` nothing
    // has changed.
    pub(crate) fn add_terms(&mut self, terms: &[Term], range: Range) -> Result<bool, NoMemory> {
        let row = self.matrix.row_of(terms)?;
        let has_room = self.matrix.has_room(row.len());
        if has_room {
            self.add_row(row, range)?;
        }
        Ok(has_room)
    }

    fn add_row(&mut self, row: Vec<Entry>, range: Range) -> Result<(), NoMemory> {
        self.variables.reserve(1)?;
        self.basics.reserve(1)?;
        self.matrix.add_row(row)?;
        let place = self.basics.len();
        let variable = self.variables.len();
        let scale = self.matrix.scale(place);
        self.is_stale = true;
        self.variables.push(Variable::of_row(range, scale, place))?;
        self.basics.push(Basic {
            variable,
            value: 0.0,
        })?;
        Ok(())
    }

    // Sets the range of a variable.
    pub(crate) fn set_range(&mut self, at: usize, range: Range) {
        let scale = self.scale_of(at);
        if let Some(variable) = self.variables.get_mut(at) {
            variable.range = scaled(range, scale);
        }
    }

    // By what a variable is multiplied: a row's by the scale of its row.
    fn scale_of(&self, at: usize) -> f64 {
        if at < self.columns {
            1.0
        } else {
            self.matrix.scale(at - self.columns)
        }
    }

    // Sets the costs of the columns; those missing are 0. Each is perturbed by the next number of a
    // sequence that is always the same.
    pub(crate) fn set_costs(&mut self, costs: &[f64]) {
        let spread = if costs.iter().all(|cost| *cost == 0.0) {
            SPREAD_WITHOUT_COSTS
        } else {
            SPREAD
        };
        let mut sequence = FIRST_OF_SEQUENCE;
        for (column, (cost, variable)) in self
            .costs
            .iter_mut()
            .zip(self.variables.iter_mut())
            .enumerate()
        {
            sequence = sequence.wrapping_mul(1_664_525).wrapping_add(1_013_904_223);
            let part = 0.5 + f64::from(sequence >> 8) / 16_777_216.0;
            *cost = number_at(costs, column);
            variable.cost = *cost + spread * part * (1.0 + cost.abs());
        }
        self.are_costs_new = true;
    }

    // Counts numbers that were touched.
    pub(crate) fn count(&mut self, touched: usize) {
        self.work = self.work.saturating_add(touched as u64);
    }

    // Counts numbers that a solve by the factors reached.
    pub(crate) fn count_reached(&mut self, reached: usize) {
        let passed = (reached as u64).saturating_mul(TIMES_PASSED);
        self.work = self.work.saturating_add(passed);
    }

    // The reduced costs of the basis.
    pub(crate) fn reduce(&mut self) -> Result<(), NoMemory> {
        self.take_dual_row()?;
        for (at, variable) in self.variables.iter_mut().enumerate() {
            variable.reduced_cost = if variable.is_basic() {
                0.0
            } else if at < self.columns {
                variable.cost - self.inverse_row.product(self.matrix.column(at))
            } else {
                self.inverse_row.number(at - self.columns)
            };
        }
        self.are_costs_new = false;
        self.count_matrix();
        Ok(())
    }

    // The costs of the basis times its inverse.
    fn take_dual_row(&mut self) -> Result<(), NoMemory> {
        self.inverse_row.clear();
        for (place, basic) in self.basics.iter().enumerate() {
            if let Some(variable) = self.variables.get(basic.variable) {
                if variable.cost != 0.0 {
                    self.inverse_row.add(place, -variable.cost)?;
                }
            }
        }
        let touched = self.factors.backward(&mut self.inverse_row)?;
        self.count_reached(touched);
        Ok(())
    }

    // Each variable outside of the basis goes to the end that its reduced cost tells.
    pub(crate) fn settle(&mut self) {
        for (variable, is_basic) in self.variables.iter_mut().zip(self.is_basic.iter_mut()) {
            *is_basic = variable.is_basic();
            if variable.reduced_cost > NO_COST {
                variable.put_at(false);
            } else if variable.reduced_cost < -NO_COST {
                variable.put_at(true);
            }
        }
    }

    // The values of the basis.
    pub(crate) fn evaluate(&mut self) -> Result<(), NoMemory> {
        self.take_ends()?;
        let touched = self.factors.forward(&mut self.edge_column)?;
        self.count_reached(touched);
        self.count_matrix();
        for (place, basic) in self.basics.iter_mut().enumerate() {
            basic.value = self.edge_column.number(place);
        }
        self.grade();
        Ok(())
    }

    // What the variables outside of the basis make of the rows where they stand, with its sign changed.
    fn take_ends(&mut self) -> Result<(), NoMemory> {
        self.edge_column.clear();
        for (at, variable) in self.variables.iter().enumerate() {
            let end = variable.end();
            if !variable.is_basic() && end != 0.0 {
                if at < self.columns {
                    self.edge_column.add_multiple(self.matrix.column(at), end)?;
                } else {
                    self.edge_column.add(at - self.columns, -end)?;
                }
            }
        }
        Ok(())
    }

    // A pass over the coefficients.
    pub(crate) fn count_matrix(&mut self) {
        let entries = self.matrix.entries();
        self.count(entries);
        let variables = self.variables.len();
        self.count(variables);
    }

    // The value of a variable.
    pub(crate) fn value(&self, variable: &Variable) -> f64 {
        match variable.standing {
            Standing::Basic(place) => match self.basics.get(place) {
                Some(basic) => basic.value,
                None => 0.0,
            },
            _ => variable.end(),
        }
    }

    // The sum of the costs as given.
    pub(crate) fn sum(&self) -> f64 {
        let mut sum = 0.0;
        for (cost, variable) in self.costs.iter().zip(self.variables.as_slice()) {
            if *cost != 0.0 {
                sum += *cost * self.value(variable);
            }
        }
        sum
    }

    // The values of the columns.
    pub(crate) fn put_values(&self, values: &mut [f64]) {
        for (value, variable) in values.iter_mut().zip(self.variables.as_slice()) {
            *value = self.value(variable);
        }
    }

    // Of each row that stands at an end, its reduced cost, for the row as it was given.
    pub(crate) fn put_duals(&self, duals: &mut [f64]) {
        for (row, dual) in duals.iter_mut().enumerate() {
            if let Some(variable) = self.variables.get(self.columns.saturating_add(row)) {
                if !variable.is_basic() {
                    *dual = variable.reduced_cost * self.matrix.scale(row);
                }
            }
        }
    }

    // The first variable whose range has no point, or an end that isn't finite.
    pub(crate) fn unusable(&self) -> Option<usize> {
        for (at, variable) in self.variables.iter().enumerate() {
            if !variable.width().is_finite() || self.is_crossed(at, variable) {
                return Some(at);
            }
        }
        None
    }

    // Whether the ends of a variable's range have crossed.
    pub(crate) fn is_crossed(&self, at: usize, variable: &Variable) -> bool {
        -variable.width() > CROSSED * self.scale_of(at)
    }
}
