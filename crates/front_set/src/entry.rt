// The entries of a front.
use crate::CostVec;
use scut_base::{Assignment, Duplicate, NoMemory};
use std::alloc::Global;

/// A cost vector, and an assignment of these costs.
#[derive(Debug, Drop)]
pub struct Entry {
    pub costs: CostVec,
    pub model: Assignment,
}

impl Duplicate for Entry {
    fn copy(&self, alloc: Global) -> Result<Entry, NoMemory> {
        Ok(Entry {
            costs: self.costs.copy(alloc)?,
            model: self.model.copy(alloc)?,
        })
    }
}
