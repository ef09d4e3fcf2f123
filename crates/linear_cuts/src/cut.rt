// Cuts, and how they are made.
use scut_base::NoMemory;
use std::alloc::Global;

/// A coefficient of a row or a cut: a whole number.
#[derive(Clone, Copy, Debug)]
pub struct Term {
    /// The column, counted from 0.
    pub column: usize,
    pub coefficient: f64,
}

/// A row by its place, with a factor from 1 on.
#[derive(Clone, Copy, Debug)]
pub struct RowFactor {
    /// The row, counted from 0 in the order in which rows were added.
    pub row: usize,
    pub factor: u64,
}

/// A column by its place, or 1 less the column, with a factor from 1 on.
#[derive(Clone, Copy, Debug)]
pub struct ColumnFactor {
    /// The column, counted from 0.
    pub column: usize,
    /// Whether it is 1 less the column.
    pub is_complemented: bool,
    pub factor: u64,
}

/// Rows and columns that are added by their factors.
#[derive(Debug, Drop)]
pub struct Addends {
    pub rows: Vec<RowFactor>,
    pub columns: Vec<ColumnFactor>,
}

impl Addends {
    fn new(alloc: Global) -> Addends {
        Addends {
            rows: Vec::new(alloc),
            columns: Vec::new(alloc),
        }
    }

    pub fn is_empty(&self) -> bool {
        self.rows.is_empty() && self.columns.is_empty()
    }
}

/// Where a cut comes from.
#[derive(Clone, Copy, Debug, PartialEq, Eq)]
pub enum Kind {
    /// From tight rows, whose sum is halved.
    ZeroHalf,
    /// From a row of the simplex table.
    TableRow,
    /// From one row.
    OwnRow,
}

/// A cut, and how it is made of rows. Their sum, where columns near 1 are complemented, is at least a multiple of the divisor and
/// the rest.
///
/// Where nothing is loose, the cut is what is padded, divided by the divisor and rounded up. Else it is a mixed-integer rounding:
/// its negation, times the scale and evened out, with what is loose, can be divided by the rest; that times what the divisor
/// exceeds the rest, with what is padded, and once more with the negation, times the scale and evened out, is `0 >= 1`.
#[derive(Debug, Drop)]
pub struct Cut {
    pub kind: Kind,
    pub divisor: u64,
    /// From 1 to the divisor less 1.
    pub rest: u64,
    /// Rows, and what their sum's coefficients lack to multiples of the divisor.
    pub padded: Addends,
    /// Rows by what their factors lack to the divisor, and by how much coefficients are above multiples of it, where that is less
    /// than the rest.
    pub loose: Addends,
    pub scale: u64,
    /// What makes multiples of the scale of all coefficients.
    pub evening: Vec<ColumnFactor>,
    /// The sum of the terms, which are whole numbers, is at least `least`.
    pub terms: Vec<Term>,
    pub least: f64,
    // How far the point is from it.
    pub(crate) violation: f64,
    // The length of its coefficients.
    pub(crate) length: f64,
}

impl Cut {
    // A cut that says nothing yet.
    pub(crate) fn new(alloc: Global, kind: Kind, divisor: u64, rest: u64) -> Cut {
        Cut {
            kind,
            divisor,
            rest,
            padded: Addends::new(alloc),
            loose: Addends::new(alloc),
            scale: 1,
            evening: Vec::new(alloc),
            terms: Vec::new(alloc),
            least: 0.0,
            violation: 0.0,
            length: 0.0,
        }
    }

    /// Whether it is a sum of rows and columns, divided and rounded up.
    pub fn is_divided(&self) -> bool {
        self.loose.is_empty()
    }

    // Adds what of a column pads its coefficient, or is loose.
    pub(crate) fn add_column(
        &mut self,
        column: ColumnFactor,
        is_loose: bool,
    ) -> Result<(), NoMemory> {
        if column.factor == 0 {
            return Ok(());
        }
        if is_loose {
            self.loose.columns.push(column)?;
        } else {
            self.padded.columns.push(column)?;
        }
        Ok(())
    }

    // Adds a term, and what evens it out.
    pub(crate) fn add_term(&mut self, term: Term, evening: ColumnFactor) -> Result<(), NoMemory> {
        if evening.factor > 0 {
            self.evening.push(evening)?;
        }
        if term.coefficient != 0.0 {
            self.terms.push(term)?;
        }
        Ok(())
    }
}
