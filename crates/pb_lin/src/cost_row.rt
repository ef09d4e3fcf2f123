// Sums to be minimised.
ghost use Rattle.std.specs.Prelude.{◌≡◌, length};
ghost use Rattle.pb_lin.specs.Constraint.{TermsUpTo};
ghost use Rattle.pb_lin.specs.CostRow.{IsCostRow, row_cost};

use scut_base::{Assignment, Duplicate, Items, Lit, NoMemory};
use std::alloc::Global;
use std::marker::Model;

/// A sum to be minimised: positive coefficients on literals of distinct variables, plus an offset.
/// Each value of it has a magnitude below 2^63.
#[derive(Debug, Drop)]
pub struct CostRow {
    terms: Items<(Lit, u64)>,
    offset: i64,
}

impl Model for CostRow {
    ghost use Rattle.pb_lin.specs.CostRow.{CostRowValue, IsCostRow};

    ghost Value = { CostRowValue };

    ghost view = { λ r. record { terms = r.terms; offset = r.offset } };

    ghost invariant = { λ r. IsCostRow r.terms r.offset };
}

impl CostRow {
    /// The row of these parts. Takes no memory.
    pub fn from_parts(terms: Items<(Lit, u64)>, offset: i64) -> CostRow
        requires { IsCostRow terms offset }
        ensures { result ≡ record { terms = terms; offset = offset } }
    {
        CostRow { terms, offset }
    }

    /// The coefficients with their literals.
    pub fn terms(&self) -> &[(Lit, u64)]
        ensures value { result.now ≡ self.now.terms }
        ensures row { IsCostRow self.now.terms self.now.offset }
    {
        self.terms.as_slice()
    }

    /// What is added to the sum.
    pub fn offset(&self) -> i64
        ensures { result ≡ self.now.offset }
    {
        self.offset
    }
}

impl Duplicate for CostRow {
    fn copy(&self, alloc: Global) -> Result<CostRow, NoMemory> {
        Ok(CostRow {
            terms: Items::from_vec(Vec::from_slice(alloc, self.terms.as_slice())?),
            offset: self.offset,
        })
    }
}

/// The value of a row under an assignment. Costs one pass over the terms.
pub fn row_cost(row: &CostRow, a: &Assignment) -> i64
    requires { TermsUpTo (length a.now) row.now.terms }
    ensures { result ≡ row_cost a.now row.now }
{
    let mut value = 0;
    for term in row.terms() {
        if a.value(term.0) {
            value += term.1;
        }
    }
    value as i64 + row.offset()
}
