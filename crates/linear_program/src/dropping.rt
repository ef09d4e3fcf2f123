// Rows that are taken away.

use crate::simplex::{Basic, Simplex};
use crate::variables::{Standing, Variable};
use scut_base::NoMemory;

impl Simplex {
    // The rows that stay where those that are marked go, from one on, if their activity is in the basis.
    pub(crate) fn staying(
        &self,
        first: usize,
        is_dropped: &[bool],
    ) -> Result<Vec<usize>, NoMemory> {
        let mut staying = Vec::with_capacity(self.alloc, self.basics.len())?;
        for row in 0..self.basics.len() {
            let is_marked = matches!(is_dropped.get(row), Some(true));
            if row < first || !is_marked || !self.is_row_basic(row) {
                staying.push(row)?;
            }
        }
        Ok(staying)
    }

    fn is_row_basic(&self, row: usize) -> bool {
        match self.variables.get(self.columns.saturating_add(row)) {
            Some(variable) => variable.is_basic(),
            None => false,
        }
    }

    // Leaves these rows alone. After `NoMemory` nothing has changed.
    pub(crate) fn keep_rows(&mut self, staying: &[usize]) -> Result<(), NoMemory> {
        if staying.len() == self.basics.len() {
            return Ok(());
        }
        let news = self.news(staying)?;
        self.matrix.drop_rows(news.as_slice(), staying.len());
        for (new, old) in staying.iter().enumerate() {
            let from = self.columns.saturating_add(*old);
            let to = self.columns.saturating_add(new);
            copy_variable(self.variables.as_mut_slice(), from, to);
        }
        self.variables
            .truncate(self.columns.saturating_add(staying.len()));
        self.renumber(news.as_slice());
        self.is_stale = true;
        Ok(())
    }

    // The new number of each row that stays.
    fn news(&self, staying: &[usize]) -> Result<Vec<Option<usize>>, NoMemory> {
        let mut news = vec![in self.alloc; None; self.basics.len()]?;
        for (new, old) in staying.iter().enumerate() {
            if let Some(place) = news.get_mut(*old) {
                *place = Some(new);
            }
        }
        Ok(news)
    }

    // Leaves those in the basis that are still there, by their new numbers.
    fn renumber(&mut self, news: &[Option<usize>]) {
        let columns = self.columns;
        self.basics
            .retain(|basic| new_number(columns, news, basic).is_some());
        for (place, basic) in self.basics.iter_mut().enumerate() {
            if let Some(number) = new_number(columns, news, basic) {
                basic.variable = number;
                if let Some(variable) = self.variables.get_mut(number) {
                    variable.standing = Standing::Basic(place);
                }
            }
        }
    }
}

// The new number of a variable in the basis, if it's still there.
fn new_number(columns: usize, news: &[Option<usize>], basic: &Basic) -> Option<usize> {
    if basic.variable < columns {
        return Some(basic.variable);
    }
    match news.get(basic.variable - columns) {
        Some(Some(row)) => Some(columns.saturating_add(*row)),
        _ => None,
    }
}

fn copy_variable(variables: &mut [Variable], from: usize, to: usize) {
    if let Some(variable) = variables.get(from).copied() {
        if let Some(place) = variables.get_mut(to) {
            *place = variable;
        }
    }
}
