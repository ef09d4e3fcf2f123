// Linear rows.
use scut_base::{Duplicate, Items, Lit, NoMemory};
use std::alloc::Global;

/// How a row's sum stands to its bound.
#[derive(Clone, Copy, Debug, PartialEq, Eq)]
pub enum Rel {
    AtLeast,
    AtMost,
    Equal,
}

/// A hard constraint: the sum of the coefficients of the true literals, against a bound.
#[derive(Debug, Drop, PartialEq, Eq)]
pub struct Linear {
    pub terms: Items<(i64, Lit)>,
    pub rel: Rel,
    pub bound: i64,
}

impl Duplicate for Linear {
    fn copy(&self, alloc: Global) -> Result<Linear, NoMemory> {
        Ok(Linear {
            terms: self.terms.copy(alloc)?,
            rel: self.rel,
            bound: self.bound,
        })
    }
}
