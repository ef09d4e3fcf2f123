// Linear programs as others see them.
ghost use Rattle.std.specs.Prelude.{◌≡◌, ◌+◌, IfOk, IfSome, length, MatchResult, MatchBool};
ghost use Rattle.linear_program.specs.Shape.{Shape};

use crate::basis::Basis;
use crate::simplex::Simplex;
use scut_base::NoMemory;
use std::alloc::Global;
use std::marker::Model;

/// A coefficient of a row.
#[derive(Clone, Copy, Debug)]
pub struct Term {
    /// The column, counted from 0.
    pub column: usize,
    pub coefficient: f64,
}

/// What a column or a row is to be within: both ends are finite.
#[derive(Clone, Copy, Debug)]
pub struct Range {
    pub lower: f64,
    pub upper: f64,
}

/// Rows over columns, each within a range, with a basis from which the next question starts. Contracts see
/// its shape alone.
#[derive(Debug, Drop)]
pub struct LinearProgram {
    pub(crate) alloc: Global,
    pub(crate) columns: usize,
    pub(crate) rows: usize,
    pub(crate) simplex: Simplex,
}

impl Model for LinearProgram {
    ghost use Rattle.linear_program.specs.Shape.{Shape};

    ghost Value = { Shape };

    ghost view = { λ p. record { columns = p.columns; rows = p.rows } };
}

impl LinearProgram {
    /// So many columns, each within 0 and 1 and at no cost, and no rows.
    pub fn new(alloc: Global, columns: usize) -> Result<LinearProgram, NoMemory>
        ensures { IfOk result (λ p. p ≡ record { columns = columns; rows = 0 }) }
    {
        Ok(LinearProgram {
            alloc,
            columns,
            rows: 0,
            simplex: Simplex::new(alloc, columns)?,
        })
    }

    /// The number of columns.
    pub fn columns(&self) -> usize
        ensures { result ≡ self.now.columns }
    {
        self.columns
    }

    /// The number of rows.
    pub fn rows(&self) -> usize
        ensures { result ≡ self.now.rows }
    {
        self.rows
    }

    /// Adds a row; terms of one column are summed, and those of columns that aren't there are left out. The row
    /// comes into the basis by its own activity, so that the basis stays as good as it was. `false` where there
    /// would be more than `MOST_ENTRIES` numbers other than 0 or more than `MOST_ROWS` rows, and then nothing
    /// has changed.
    pub fn add_row(&mut self, terms: &[Term], range: Range) -> Result<bool, NoMemory>
        ensures added { MatchResult result (λ added. MatchBool added
            (self.new ≡ record self.old { rows = self.old.rows + 1 }) (self.new ≡ self.old))
            (λ _. self.new ≡ self.old) }
    {
        if self.rows == usize::MAX || !self.simplex.add_terms(terms, range)? {
            return Ok(false);
        }
        self.rows += 1;
        Ok(true)
    }

    /// Sets the range of a column; one that isn't there changes nothing.
    pub fn set_column(&mut self, column: usize, range: Range)
        ensures { self.new ≡ self.old }
    {
        if column < self.columns {
            self.simplex.set_range(column, range);
        }
    }

    /// Sets the range of a row; one that isn't there changes nothing.
    pub fn set_row(&mut self, row: usize, range: Range)
        ensures { self.new ≡ self.old }
    {
        self.simplex
            .set_range(self.columns.saturating_add(row), range);
    }

    /// Sets the costs of the columns, of which `solve` makes the sum least; those missing are 0. They are
    /// perturbed a little, always by the same sequence.
    pub fn set_costs(&mut self, costs: &[f64])
        ensures { self.new ≡ self.old }
    {
        self.simplex.set_costs(costs);
    }

    /// The sum of the costs as they were given, at the values that the last `solve` left.
    pub fn sum(&self) -> f64 {
        self.simplex.sum()
    }

    /// A multiplier for each row: rows by these, and columns by what is left of their costs, bound the sum from
    /// below. One above 0 is of a row's lower end, one below 0 of its upper end.
    pub fn duals(&self) -> Result<Vec<f64>, NoMemory>
        ensures { IfOk result (λ ys. length ys.items ≡ self.now.rows) }
    {
        let mut duals = vec![in self.alloc; 0.0; self.rows]?;
        self.simplex.put_duals(duals.as_mut_slice());
        Ok(duals)
    }

    /// A multiplier for each row: rows by these add up to the row of the simplex table by which a column of the basis is
    /// told, with a coefficient of 1. `None` where the column isn't in the basis, or where the inverse isn't that of the
    /// basis, as after rows have come or gone.
    pub fn table_row(&mut self, column: usize) -> Result<Option<Vec<f64>>, NoMemory>
        ensures same { self.new ≡ self.old }
        ensures shaped { IfOk result (λ row. IfSome row (λ ys. length ys.items ≡ self.old.rows)) }
    {
        if column >= self.columns || !self.simplex.take_table_row(column)? {
            return Ok(None);
        }
        let mut multipliers = vec![in self.alloc; 0.0; self.rows]?;
        self.simplex
            .put_multipliers(multipliers.as_mut_slice(), -1.0);
        Ok(Some(multipliers))
    }

    /// The basis, for `restore`.
    pub fn basis(&self) -> Result<Basis, NoMemory> {
        self.simplex.basis()
    }

    /// Makes a basis that `basis` of this very program has answered the present one. Where it's an earlier moment of
    /// the present factors, their list of changes is cut back; else they are built anew, and the basis notes that, so that going
    /// back to it once more is cheap. Rows that have come since then come into it by their own activities. One of another shape changes nothing; one of another program
    /// of this shape isn't told apart, and may make answers wrong. `sum` and `duals` speak of the basis after the
    /// next `solve`.
    pub fn restore(&mut self, basis: &mut Basis) -> Result<(), NoMemory>
        ensures { self.new ≡ self.old }
    {
        self.simplex.restore(basis)
    }

    /// Takes those rows from `first` on away that are marked and whose activity is in the basis. Answers the old
    /// numbers of those that stay, in order.
    pub fn drop_rows(&mut self, first: usize, is_dropped: &[bool]) -> Result<Vec<usize>, NoMemory>
        ensures kept { MatchResult result
            (λ left. self.new ≡ record self.old { rows = length left.items })
            (λ _. self.new ≡ self.old) }
    {
        let staying = self.simplex.staying(first, is_dropped)?;
        self.simplex.keep_rows(staying.as_slice())?;
        self.rows = staying.len();
        Ok(staying)
    }

    /// Has the factors of the basis built anew at the next `solve`.
    pub fn rebuild(&mut self) -> Result<(), NoMemory>
        ensures { self.new ≡ self.old }
    {
        self.simplex.is_stale = true;
        Ok(())
    }

    /// How much has been done so far, in numbers passed over: one that a solve by the factors reaches counts as several, since
    /// it takes as long.
    pub fn work(&self) -> u64 {
        self.simplex.work
    }
}
