// Solving by the factors: each pass goes on only from numbers other than 0 (Hall and McKinnon 2005).

use crate::factors::Factors;
use crate::limits::NO_NUMBER;
use crate::sparse_numbers::SparseNumbers;
use scut_base::NoMemory;

impl Factors {
    // Makes a column, given with its sign changed, what the basis tells of it, and says how many numbers were touched.
    pub(crate) fn forward(&self, column: &mut SparseNumbers) -> Result<usize, NoMemory> {
        let inner = self.forward_inside(column)?;
        let outer = self.pass_outer(column)?;
        Ok(inner.saturating_add(outer))
    }

    // The same where only those numbers are wanted that stand where another column has some.
    pub(crate) fn forward_at(
        &self,
        column: &mut SparseNumbers,
        wanted: &SparseNumbers,
    ) -> Result<usize, NoMemory> {
        let inner = self.forward_inside(column)?;
        let outer = self.pass_outer_at(column, wanted)?;
        Ok(inner.saturating_add(outer))
    }

    // What the factors make of a column, without the outer block.
    fn forward_inside(&self, column: &mut SparseNumbers) -> Result<usize, NoMemory> {
        let lower = self.pass_lower(column)?;
        let changes = self.pass_changes(column)?;
        let upper = self.pass_upper(column)?;
        Ok(lower.saturating_add(changes).saturating_add(upper))
    }

    // The same for a column that comes in next.
    pub(crate) fn forward_keeping(
        &mut self,
        column: &mut SparseNumbers,
    ) -> Result<usize, NoMemory> {
        let lower = self.pass_lower(column)?;
        let changes = self.pass_changes(column)?;
        self.keep_column(column)?;
        let upper = self.pass_upper(column)?;
        let outer = self.pass_outer(column)?;
        Ok(
            lower
                .saturating_add(changes)
                .saturating_add(upper)
                .saturating_add(outer),
        )
    }

    // A column by the lower factor alone.
    pub(crate) fn pass_lower(&self, column: &mut SparseNumbers) -> Result<usize, NoMemory> {
        let mut touched = self.lower_places.len();
        for place in self.lower_places.iter() {
            if let Some(number) = column.significant(*place) {
                let entries = self.lower.list(*place);
                column.add_multiple(entries, -number)?;
                touched = touched.saturating_add(entries.len());
            }
        }
        Ok(touched)
    }

    fn pass_changes(&self, column: &mut SparseNumbers) -> Result<usize, NoMemory> {
        let mut touched: usize = 0;
        for change in self.changes.iter() {
            let row = self.row_of(change);
            touched = touched.saturating_add(row.len());
            let part = column.product(row) / change.pivot;
            if part.abs() > NO_NUMBER {
                let entries = self.column_of(change);
                column.add_multiple(entries, -part)?;
                touched = touched.saturating_add(entries.len());
            }
        }
        Ok(touched)
    }

    fn pass_upper(&self, column: &mut SparseNumbers) -> Result<usize, NoMemory> {
        let mut touched = self.order.len();
        for pivot in self.order.iter().rev() {
            if let Some(number) = column.significant(pivot.place) {
                let number = number / pivot.number;
                column.replace(pivot.place, number);
                let entries = self.upper.list(pivot.place);
                column.add_multiple(entries, -number)?;
                touched = touched.saturating_add(entries.len());
            }
        }
        Ok(touched)
    }

    // The outer block, by the columns that have a number.
    fn pass_outer(&self, column: &mut SparseNumbers) -> Result<usize, NoMemory> {
        let count = column.listed().len();
        let mut touched = count;
        for at in 0..count {
            let place = column.listed_at(at);
            if let Some(number) = column.significant(place) {
                let entries = self.outer.list(place);
                column.add_multiple(entries, -number)?;
                touched = touched.saturating_add(entries.len());
            }
        }
        Ok(touched)
    }

    // The outer block, by the rows that are wanted.
    fn pass_outer_at(
        &self,
        column: &mut SparseNumbers,
        wanted: &SparseNumbers,
    ) -> Result<usize, NoMemory> {
        let mut touched = wanted.listed().len();
        for place in wanted.listed() {
            if self.is_activity(*place) && wanted.number(*place).abs() > NO_NUMBER {
                let entries = self.outer_rows.list(*place);
                let sum = column.product(entries);
                column.add(*place, -sum)?;
                touched = touched.saturating_add(entries.len());
            }
        }
        Ok(touched)
    }

    // As `forward`, with a row from the other side.
    pub(crate) fn backward(&mut self, row: &mut SparseNumbers) -> Result<usize, NoMemory> {
        let activities = self.pass_activities(row)?;
        let upper = self.pass_upper_rows(row)?;
        self.keep_row(row)?;
        let changes = self.pass_changes_back(row)?;
        let lower = self.pass_lower_rows(row)?;
        Ok(
            activities
                .saturating_add(upper)
                .saturating_add(changes)
                .saturating_add(lower),
        )
    }

    // The outer block from the other side, by the activities that have a number.
    fn pass_activities(&self, row: &mut SparseNumbers) -> Result<usize, NoMemory> {
        let count = row.listed().len();
        let mut touched = count;
        for at in 0..count {
            let place = row.listed_at(at);
            if self.is_activity(place) {
                let number = row.number(place);
                let entries = self.outer_rows.list(place);
                row.add_multiple(entries, -number)?;
                touched = touched.saturating_add(entries.len());
            }
        }
        Ok(touched)
    }

    fn pass_upper_rows(&self, row: &mut SparseNumbers) -> Result<usize, NoMemory> {
        let mut touched = self.order.len();
        for pivot in self.order.iter() {
            if let Some(number) = row.significant(pivot.place) {
                let number = number / pivot.number;
                row.replace(pivot.place, number);
                let entries = self.upper_rows.list(pivot.place);
                row.add_multiple(entries, -number)?;
                touched = touched.saturating_add(entries.len());
            }
        }
        Ok(touched)
    }

    fn pass_changes_back(&self, row: &mut SparseNumbers) -> Result<usize, NoMemory> {
        let mut touched: usize = 0;
        for change in self.changes.iter().rev() {
            let column = self.column_of(change);
            touched = touched.saturating_add(column.len());
            let part = row.product(column) / change.pivot;
            if part.abs() > NO_NUMBER {
                let entries = self.row_of(change);
                row.add_multiple(entries, -part)?;
                touched = touched.saturating_add(entries.len());
            }
        }
        Ok(touched)
    }

    fn pass_lower_rows(&self, row: &mut SparseNumbers) -> Result<usize, NoMemory> {
        let mut touched = self.order.len();
        for pivot in self.order.iter().rev() {
            if let Some(number) = row.significant(pivot.place) {
                let entries = self.lower_rows.list(pivot.place);
                row.add_multiple(entries, -number)?;
                touched = touched.saturating_add(entries.len());
            }
        }
        Ok(touched)
    }
}
