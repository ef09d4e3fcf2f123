// Bases that are kept and come back.

use crate::factors::Moment;
use crate::simplex::{Basic, Simplex};
use crate::variables::{Standing, end_of};
use scut_base::NoMemory;
use std::alloc::Global;

/// A basis of a linear program, from which a later question may start: what stands in it, at which ends the
/// others stand, and the steepest-edge weights. Takes 16 bytes for each row, and 1 for each row and column.
#[derive(Debug, Drop)]
pub struct Basis {
    pub(crate) columns: usize,
    // By place: the variable there and its weight.
    pub(crate) basic: Vec<Weighted>,
    // By variable.
    pub(crate) is_at_upper: Vec<bool>,
    // When the factors were those of this basis, if they were.
    pub(crate) moment: Option<Moment>,
}

#[derive(Clone, Copy, Debug)]
pub(crate) struct Weighted {
    variable: usize,
    weight: f64,
}

impl Simplex {
    pub(crate) fn basis(&self) -> Result<Basis, NoMemory> {
        Ok(Basis {
            columns: self.columns,
            basic: self.weighted()?,
            is_at_upper: self.sides()?,
            moment: if self.is_stale {
                None
            } else {
                Some(self.factors.moment())
            },
        })
    }

    fn weighted(&self) -> Result<Vec<Weighted>, NoMemory> {
        let mut weighted = Vec::with_capacity(self.alloc, self.basics.len())?;
        for basic in self.basics.iter() {
            let weight = match self.variables.get(basic.variable) {
                Some(variable) => variable.weight,
                None => 1.0,
            };
            weighted.push(Weighted {
                variable: basic.variable,
                weight,
            })?;
        }
        Ok(weighted)
    }

    fn sides(&self) -> Result<Vec<bool>, NoMemory> {
        let mut sides = Vec::with_capacity(self.alloc, self.variables.len())?;
        for variable in self.variables.iter() {
            sides.push(variable.is_at_upper())?;
        }
        Ok(sides)
    }

    // Puts a basis of this shape, or of the rows before some, in the place of the present one, and notes when the factors are its.
    pub(crate) fn restore(&mut self, basis: &mut Basis) -> Result<(), NoMemory> {
        if basis.columns != self.columns || basis.basic.len() > self.basics.len() {
            return Ok(());
        }
        let is_whole = basis.basic.len() == self.basics.len();
        let goes_back = match basis.moment {
            Some(moment) => is_whole && !self.is_stale && self.factors.cut_back(moment),
            None => false,
        };
        self.are_costs_new = true;
        self.put_sides(basis.is_at_upper.as_slice());
        self.put_basics(basis.basic.as_slice());
        if !goes_back {
            // What is built anew has other places, and a column that has none is gone.
            self.rebuild()?;
            *basis = self.basis()?;
        }
        Ok(())
    }

    fn put_sides(&mut self, sides: &[bool]) {
        for (variable, side) in self.variables.iter_mut().zip(sides) {
            variable.standing = end_of(*side);
        }
    }

    // Fills the places, those past the end by the activities of their rows.
    fn put_basics(&mut self, weighted: &[Weighted]) {
        for (place, basic) in self.basics.iter_mut().enumerate() {
            let own = Weighted {
                variable: self.columns.saturating_add(place),
                weight: 1.0,
            };
            let chosen = weighted.get(place).copied().unwrap_or(own);
            *basic = Basic {
                variable: chosen.variable,
                value: 0.0,
            };
            if let Some(variable) = self.variables.get_mut(chosen.variable) {
                variable.standing = Standing::Basic(place);
                variable.weight = chosen.weight;
            }
        }
    }
}
