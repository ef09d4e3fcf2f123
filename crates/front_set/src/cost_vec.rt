// Vectors of costs.
ghost use Rattle.std.specs.Prelude.{◌≡◌, ◌<◌, ◌↔◌, [], length, slice_get, Some, IsTrue, IfOk};
ghost use Rattle.front_set.specs.Vector.{is_below};

use scut_base::{Duplicate, Items, NoMemory};
use std::alloc::Global;
use std::marker::Model;

/// One number for each objective. Its order is lexicographic.
#[derive(Debug, Drop, PartialEq, Eq, PartialOrd, Ord)]
pub struct CostVec {
    values: Items<i64>,
}

impl Model for CostVec {
    ghost use Rattle.std.specs.Prelude.{List, ℤ};

    ghost Value = { List ℤ };

    ghost view = { λ c. c.values };

    ghost inverse = { λ v. record { values = v } };
}

impl CostVec {
    /// The vector of these numbers.
    pub fn from_slice(alloc: Global, values: &[i64]) -> Result<CostVec, NoMemory>
        ensures { IfOk result (λ c. c ≡ values.now) }
    {
        Ok(CostVec {
            values: Items::from_vec(Vec::from_slice(alloc, values)?),
        })
    }

    /// The vector of a list of numbers. Takes no memory.
    pub fn from_items(values: Items<i64>) -> CostVec
        ensures { result ≡ values }
    {
        CostVec { values }
    }

    /// The number of objectives.
    pub fn len(&self) -> usize
        ensures { result ≡ length self.now }
    {
        self.values.len()
    }

    /// Whether there are no objectives.
    pub fn is_empty(&self) -> bool
        ensures { IsTrue result ↔ (self.now ≡ []) }
    {
        self.values.is_empty()
    }

    /// The number of an objective, counted from 0.
    pub fn get(&self, i: usize) -> i64
        requires { i < length self.now }
        ensures { slice_get self.now i ≡ Some result }
    {
        *self.values.at(i)
    }

    /// The numbers in order.
    pub fn as_slice(&self) -> &[i64]
        ensures { result.now ≡ self.now }
    {
        self.values.as_slice()
    }

    /// Whether each number is at most the other's. Stops at the first that isn't.
    pub fn weakly_dominates(&self, other: &CostVec) -> bool
        requires { length self.now ≡ length other.now }
        ensures { result ≡ is_below self.now other.now }
    {
        let theirs = other.as_slice();
        for (i, value) in self.as_slice().iter().enumerate() {
            if *value > theirs[i] {
                return false;
            }
        }
        true
    }

    // The same for vectors of any lengths, as the tests of a whole list ask.
    pub(crate) fn is_below(&self, other: &CostVec) -> bool
        ensures { result ≡ is_below self.now other.now }
    {
        self.len() == other.len() && self.weakly_dominates(other)
    }
}

impl Duplicate for CostVec {
    fn copy(&self, alloc: Global) -> Result<CostVec, NoMemory> {
        CostVec::from_slice(alloc, self.as_slice())
    }
}
