// In which order the columns of a basis come into its factors: columns with one row, then those alone in a row, and
// what is left by the count of its rows (Orchard-Hays 1968; Maros 2003).

use crate::limits::{CHOSEN_PART, LONE_PART, NO_PIVOT};
use crate::matrix::{Entry, Matrix};
use crate::simplex::Basic;
use crate::sparse_numbers::SparseNumbers;
use scut_base::NoMemory;
use std::alloc::Global;

// A column of the basis and the row whose place it takes.
#[derive(Clone, Copy, Debug)]
pub(crate) struct Pair {
    pub(crate) column: usize,
    pub(crate) row: usize,
}

// A row as the order is found.
#[derive(Clone, Copy, Debug)]
struct RowState {
    // Its activity is not in the basis, so its place is for a column.
    is_open: bool,
    // It's open and has no column yet.
    is_free: bool,
    // How many columns of the basis with no row yet are in it.
    count: usize,
}

// A column as the order is found.
#[derive(Clone, Copy, Debug)]
struct ColumnState {
    // It's in the basis and has no row yet.
    is_free: bool,
    // How many free rows it is in.
    count: usize,
}

// In which order the columns of the basis come in, and at which places.
#[derive(Debug, Drop)]
pub(crate) struct Order {
    rows: Vec<RowState>,
    columns: Vec<ColumnState>,
    // The columns of the basis.
    chosen: Vec<usize>,
    // Rows and columns whose count has become 1.
    lone_rows: Vec<usize>,
    lone_columns: Vec<usize>,
    pub(crate) first: Vec<Pair>,
    // Those of which each has just one row that none before it has.
    pub(crate) last: Vec<Pair>,
    // The columns between, with their counts.
    pub(crate) middle: Vec<(usize, usize)>,
    // The variable of each place.
    pub(crate) variables: Vec<usize>,
}

impl Order {
    pub(crate) fn new(alloc: Global) -> Order {
        Order {
            rows: Vec::new(alloc),
            columns: Vec::new(alloc),
            chosen: Vec::new(alloc),
            lone_rows: Vec::new(alloc),
            lone_columns: Vec::new(alloc),
            first: Vec::new(alloc),
            last: Vec::new(alloc),
            middle: Vec::new(alloc),
            variables: Vec::new(alloc),
        }
    }

    // Finds the order for these variables.
    pub(crate) fn find(&mut self, matrix: &Matrix, basics: &[Basic]) -> Result<(), NoMemory> {
        self.begin(matrix, basics)?;
        self.count(matrix);
        self.list_lone_rows()?;
        self.list_lone_columns()?;
        let most = self.rows.len().saturating_add(self.chosen.len());
        for _pair in 0..=most.saturating_mul(2) {
            if let Some(row) = self.lone_rows.pop() {
                self.take_row(matrix, row)?;
            } else if let Some(column) = self.lone_columns.pop() {
                self.take_column(matrix, column)?;
            } else {
                break;
            }
        }
        self.find_middle()
    }

    // All rows open whose activity isn't in the basis, and all its columns free.
    fn begin(&mut self, matrix: &Matrix, basics: &[Basic]) -> Result<(), NoMemory> {
        let columns = matrix.columns.len();
        self.clear();
        let open = RowState {
            is_open: true,
            is_free: true,
            count: 0,
        };
        self.rows.resize(matrix.rows.len(), open)?;
        let away = ColumnState {
            is_free: false,
            count: 0,
        };
        self.columns.resize(columns, away)?;
        self.put_rows(matrix)?;
        for basic in basics {
            if basic.variable < columns {
                self.free_column(basic.variable)?;
            } else {
                self.close_row(basic.variable - columns);
            }
        }
        Ok(())
    }

    // Each place for its own row, as long as no column takes it.
    fn put_rows(&mut self, matrix: &Matrix) -> Result<(), NoMemory> {
        for row in 0..matrix.rows.len() {
            self.variables
                .push(matrix.columns.len().saturating_add(row))?;
        }
        Ok(())
    }

    fn clear(&mut self) {
        self.rows.clear();
        self.columns.clear();
        self.chosen.clear();
        self.lone_rows.clear();
        self.lone_columns.clear();
        self.first.clear();
        self.last.clear();
        self.middle.clear();
        self.variables.clear();
    }

    fn free_column(&mut self, column: usize) -> Result<(), NoMemory> {
        if let Some(state) = self.columns.get_mut(column) {
            state.is_free = true;
        }
        self.chosen.push(column)?;
        Ok(())
    }

    fn close_row(&mut self, row: usize) {
        if let Some(state) = self.rows.get_mut(row) {
            state.is_open = false;
            state.is_free = false;
        }
    }

    // Counts the free rows of columns and the free columns of rows.
    fn count(&mut self, matrix: &Matrix) {
        for column in self.chosen.iter() {
            let count = count_rows(&mut self.rows, matrix.column(*column));
            if let Some(state) = self.columns.get_mut(*column) {
                state.count = count;
            }
        }
    }

    // Lists the free rows whose count is 1.
    fn list_lone_rows(&mut self) -> Result<(), NoMemory> {
        for (row, state) in self.rows.iter().enumerate() {
            if state.is_free && state.count == 1 {
                self.lone_rows.push(row)?;
            }
        }
        Ok(())
    }

    // Lists the columns whose count is 1.
    fn list_lone_columns(&mut self) -> Result<(), NoMemory> {
        for column in self.chosen.iter() {
            if let Some(state) = self.columns.get(*column) {
                if state.count == 1 {
                    self.lone_columns.push(*column)?;
                }
            }
        }
        Ok(())
    }

    // Gives a row its only free column, if that is large there.
    fn take_row(&mut self, matrix: &Matrix, row: usize) -> Result<(), NoMemory> {
        if let Some(column) = self.only_column(matrix, row) {
            let pair = Pair { column, row };
            if self.is_large(matrix, pair) {
                self.first.push(pair)?;
                self.take(matrix, pair)?;
            }
        }
        Ok(())
    }

    // Gives a column its only free row, if it's large there.
    fn take_column(&mut self, matrix: &Matrix, column: usize) -> Result<(), NoMemory> {
        if let Some(row) = self.only_row(matrix, column) {
            let pair = Pair { column, row };
            if self.is_large(matrix, pair) {
                self.last.push(pair)?;
                self.take(matrix, pair)?;
            }
        }
        Ok(())
    }

    // The free column of a free row that has just one.
    fn only_column(&self, matrix: &Matrix, row: usize) -> Option<usize> {
        let state = self.rows.get(row)?;
        if !state.is_free || state.count != 1 {
            return None;
        }
        let entry = matrix
            .row(row)
            .iter()
            .find(|entry| self.is_free_column(entry.place))?;
        Some(entry.place)
    }

    // The free row of a free column that has just one.
    fn only_row(&self, matrix: &Matrix, column: usize) -> Option<usize> {
        let state = self.columns.get(column)?;
        if !state.is_free || state.count != 1 {
            return None;
        }
        let entry = matrix
            .column(column)
            .iter()
            .find(|entry| self.is_free_row(entry.place))?;
        Some(entry.place)
    }

    // Whether the row's place is for a column, and whether none has taken it.
    pub(crate) fn is_open_row(&self, row: usize) -> bool {
        self.rows.get(row).is_some_and(|state| state.is_open)
    }

    pub(crate) fn is_free_row(&self, row: usize) -> bool {
        self.rows.get(row).is_some_and(|state| state.is_free)
    }

    fn is_free_column(&self, column: usize) -> bool {
        self.columns.get(column).is_some_and(|state| state.is_free)
    }

    // Whether the number there is large enough for a pivot, and among those of the column in open rows.
    fn is_large(&self, matrix: &Matrix, pair: Pair) -> bool {
        let mut largest: f64 = 0.0;
        let mut here = 0.0;
        for entry in matrix.column(pair.column) {
            let size = entry.number.abs();
            if entry.place == pair.row {
                here = size;
            }
            if self
                .rows
                .get(entry.place)
                .is_some_and(|state| state.is_open)
            {
                largest = largest.max(size);
            }
        }
        here >= NO_PIVOT && here >= LONE_PART * largest
    }

    // A row and a column of it are no longer free.
    fn take(&mut self, matrix: &Matrix, pair: Pair) -> Result<(), NoMemory> {
        if let Some(state) = self.columns.get_mut(pair.column) {
            state.is_free = false;
        }
        self.fill_row(pair.row);
        self.uncount_rows(matrix.column(pair.column))?;
        self.uncount_columns(matrix.row(pair.row))
    }

    // The rows of a column have one free column less.
    fn uncount_rows(&mut self, column: &[Entry]) -> Result<(), NoMemory> {
        for entry in column {
            if let Some(state) = self.rows.get_mut(entry.place) {
                state.count = state.count.saturating_sub(1);
                if state.is_free && state.count == 1 {
                    self.lone_rows.push(entry.place)?;
                }
            }
        }
        Ok(())
    }

    // The columns of a row have one free row less.
    fn uncount_columns(&mut self, row: &[Entry]) -> Result<(), NoMemory> {
        for entry in row {
            if let Some(state) = self.columns.get_mut(entry.place) {
                state.count = state.count.saturating_sub(1);
                if state.is_free && state.count == 1 {
                    self.lone_columns.push(entry.place)?;
                }
            }
        }
        Ok(())
    }

    fn fill_row(&mut self, row: usize) {
        if let Some(state) = self.rows.get_mut(row) {
            state.is_free = false;
        }
    }

    // The columns that are left, those with the fewest rows first.
    fn find_middle(&mut self) -> Result<(), NoMemory> {
        for column in self.chosen.iter() {
            if let Some(state) = self.columns.get(*column) {
                if state.is_free {
                    self.middle.push((state.count, *column))?;
                }
            }
        }
        self.middle.sort_unstable();
        Ok(())
    }

    // The free row for a column, as the basis tells that: the shortest of those in which it's large. `None` where
    // it's small in all of them.
    pub(crate) fn row_for(&self, column: &SparseNumbers) -> Option<usize> {
        let least = (CHOSEN_PART * self.largest_free(column)).max(NO_PIVOT);
        let mut shortest = None;
        let mut count = usize::MAX;
        for row in column.listed() {
            if let Some(state) = self.rows.get(*row) {
                let size = column.number(*row).abs();
                if state.is_free && size >= least && state.count < count {
                    count = state.count;
                    shortest = Some(*row);
                }
            }
        }
        shortest
    }

    pub(crate) fn middle_column(&self, at: usize) -> Option<usize> {
        let (_, column) = self.middle.get(at)?;
        Some(*column)
    }

    fn largest_free(&self, column: &SparseNumbers) -> f64 {
        let mut largest: f64 = 0.0;
        for row in column.listed() {
            if self.is_free_row(*row) {
                largest = largest.max(column.number(*row).abs());
            }
        }
        largest
    }

    // A column of the middle takes a row.
    pub(crate) fn take_middle(&mut self, matrix: &Matrix, pair: Pair) {
        self.fill_row(pair.row);
        for entry in matrix.column(pair.column) {
            if let Some(state) = self.rows.get_mut(entry.place) {
                state.count = state.count.saturating_sub(1);
            }
        }
    }
}

// Counts a free column once more in each of its rows, and says how many free rows it's in.
fn count_rows(rows: &mut [RowState], column: &[Entry]) -> usize {
    let mut count: usize = 0;
    for entry in column {
        if let Some(state) = rows.get_mut(entry.place) {
            if state.is_free {
                state.count = state.count.saturating_add(1);
                count = count.saturating_add(1);
            }
        }
    }
    count
}
