// Objectives.
use scut_base::{Duplicate, Items, Lit, NoMemory};
use std::alloc::Global;

/// Whether small or large sums are better.
#[derive(Clone, Copy, Debug, PartialEq, Eq)]
pub enum Sense {
    Min,
    Max,
}

/// A clause that costs its weight where it is false.
#[derive(Debug, Drop, PartialEq, Eq)]
pub struct Soft {
    pub weight: u64,
    pub lits: Items<Lit>,
}

/// The weights of the false soft clauses, plus the coefficients of the true literals, plus the offset.
#[derive(Debug, Drop, PartialEq, Eq)]
pub struct Objective {
    pub sense: Sense,
    pub softs: Items<Soft>,
    pub terms: Items<(i64, Lit)>,
    pub offset: i64,
}

impl Duplicate for Soft {
    fn copy(&self, alloc: Global) -> Result<Soft, NoMemory> {
        Ok(Soft {
            weight: self.weight,
            lits: self.lits.copy(alloc)?,
        })
    }
}

impl Duplicate for Objective {
    fn copy(&self, alloc: Global) -> Result<Objective, NoMemory> {
        Ok(Objective {
            sense: self.sense,
            softs: self.softs.copy(alloc)?,
            terms: self.terms.copy(alloc)?,
            offset: self.offset,
        })
    }
}
