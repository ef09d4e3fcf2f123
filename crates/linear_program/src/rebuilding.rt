// The factors of the basis built anew.

use crate::ordering::Pair;
use crate::simplex::Simplex;
use crate::variables::{Standing, end_of};
use scut_base::NoMemory;

impl Simplex {
    // Builds the factors of the basis anew. A column that has no place leaves the basis, and a row whose place no
    // column takes comes in by its activity. After `NoMemory` the basis is what it was.
    pub(crate) fn rebuild(&mut self) -> Result<(), NoMemory> {
        self.is_stale = true;
        self.resize()?;
        self.order.find(&self.matrix, self.basics.as_slice())?;
        let before = self.work;
        self.factor()?;
        self.count_matrix();
        self.place();
        self.is_stale = false;
        self.reduce()?;
        self.settle();
        self.evaluate()?;
        self.factors.note_work(self.work.saturating_sub(before));
        Ok(())
    }

    // Makes the lists of a pivot as long as they have to be.
    fn resize(&mut self) -> Result<(), NoMemory> {
        let places = self.basics.len();
        self.slopes.resize(places, 0.0)?;
        self.is_basic.resize(self.variables.len(), false)?;
        self.inverse_row.resize(places)?;
        self.edge_column.resize(places)?;
        self.pivot_column.resize(places)?;
        self.pivot_row.resize(self.variables.len())
    }

    // Columns with one row come first, since the lower factor has nothing of them, then those alone in a row, which nothing
    // changes, and then all others.
    fn factor(&mut self) -> Result<(), NoMemory> {
        self.factors.clear(self.basics.len())?;
        self.open_places();
        self.enter_last()?;
        self.enter_first()?;
        self.enter_middle()?;
        self.enter_activities()?;
        self.factors.end_building()?;
        let touched = self.factors.size();
        self.count(touched);
        Ok(())
    }

    // The places that are for columns.
    fn open_places(&mut self) {
        for row in 0..self.basics.len() {
            if self.order.is_open_row(row) {
                self.factors.open(row);
            }
        }
    }

    fn enter_last(&mut self) -> Result<(), NoMemory> {
        for at in 0..self.order.last.len() {
            if let Some(pair) = self.order.last.get(at).copied() {
                self.load_column(pair.column)?;
                self.enter(pair)?;
            }
        }
        Ok(())
    }

    fn enter_first(&mut self) -> Result<(), NoMemory> {
        for at in 0..self.order.first.len() {
            if let Some(pair) = self.order.first.get(at).copied() {
                self.load_column(pair.column)?;
                self.enter(pair)?;
            }
        }
        Ok(())
    }

    fn enter_middle(&mut self) -> Result<(), NoMemory> {
        for at in 0..self.order.middle.len() {
            if let Some(column) = self.order.middle_column(at) {
                self.load_column(column)?;
                let touched = self.factors.pass_lower(&mut self.pivot_column)?;
                self.count_reached(touched);
                if let Some(row) = self.order.row_for(&self.pivot_column) {
                    let pair = Pair { column, row };
                    self.order.take_middle(&self.matrix, pair);
                    self.enter(pair)?;
                }
            }
        }
        Ok(())
    }

    // The places that no column has taken.
    fn enter_activities(&mut self) -> Result<(), NoMemory> {
        for row in 0..self.basics.len() {
            if self.order.is_free_row(row) {
                self.factors.enter_activity(row)?;
            }
        }
        Ok(())
    }

    // The column that has been taken comes in at a place.
    fn enter(&mut self, pair: Pair) -> Result<(), NoMemory> {
        self.factors.enter(&self.pivot_column, pair.row)?;
        put_variable(&mut self.order.variables, pair);
        Ok(())
    }

    // Each place gets the variable that the order has found for it.
    fn place(&mut self) {
        self.take_out();
        let places = self.basics.iter_mut().enumerate();
        for ((place, basic), at) in places.zip(self.order.variables.as_slice()) {
            basic.variable = *at;
            if let Some(variable) = self.variables.get_mut(*at) {
                variable.standing = Standing::Basic(place);
            }
        }
    }

    // All variables stand at an end.
    fn take_out(&mut self) {
        for basic in self.basics.iter() {
            if let Some(variable) = self.variables.get_mut(basic.variable) {
                variable.standing = end_of(variable.reduced_cost < 0.0);
            }
        }
    }
}

fn put_variable(variables: &mut [usize], pair: Pair) {
    if let Some(variable) = variables.get_mut(pair.row) {
        *variable = pair.column;
    }
}
