// Variables that go to their other end before a pivot.

use crate::numbers::put_number;
use crate::pricing::slope_of;
use crate::simplex::Simplex;
use crate::variables::end_of;
use scut_base::NoMemory;

impl Simplex {
    // Puts the variables that flip at their other ends, and moves the values of the basis along.
    pub(crate) fn flip(&mut self) -> Result<(), NoMemory> {
        if self.candidates.flips.is_empty() {
            return Ok(());
        }
        self.take_flips()?;
        let touched = self.factors.forward(&mut self.edge_column)?;
        self.count_reached(touched);
        for place in self.edge_column.listed() {
            if let Some(basic) = self.basics.get_mut(*place) {
                basic.value += self.edge_column.number(*place);
                if let Some(variable) = self.variables.get(basic.variable) {
                    let slope = slope_of(variable, basic.value);
                    put_number(self.slopes.as_mut_slice(), *place, slope);
                }
            }
        }
        Ok(())
    }

    // Puts the variables at their other ends, and what that makes of the rows into a column, with its sign changed.
    fn take_flips(&mut self) -> Result<(), NoMemory> {
        self.edge_column.clear();
        for at in self.candidates.flips.iter() {
            if let Some(variable) = self.variables.get_mut(*at) {
                let from = variable.end();
                variable.standing = end_of(!variable.is_at_upper());
                let by = variable.end() - from;
                if *at < self.columns {
                    self.edge_column.add_multiple(self.matrix.column(*at), by)?;
                } else {
                    self.edge_column.add(*at - self.columns, -by)?;
                }
            }
        }
        Ok(())
    }
}
