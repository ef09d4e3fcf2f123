// An assignment of truth values to all variables.
ghost use Rattle.std.specs.Prelude.{◌≡◌, ◌-◌, ◌≤◌, not, false, length, replicate, slice_set, IfOk};
ghost use Rattle.scut_base.specs.Assignment.{lit_true};

use crate::{Duplicate, Items, Lit, NoMemory};
use std::alloc::Global;
use std::marker::Model;

/// The truth values of the variables 1 to `len`. Contracts see it as the list of these values.
#[derive(Debug, Drop)]
pub struct Assignment {
    values: Vec<bool>,
}

impl Model for Assignment {
    ghost use Rattle.std.specs.Prelude.{List, Bool};

    ghost Value = { List Bool };

    ghost view = { λ a. a.values.items };
}

impl Assignment {
    /// All of `len` variables false.
    pub fn new(alloc: Global, len: u64) -> Result<Assignment, NoMemory>
        ensures { IfOk result (λ a. a ≡ replicate len false) }
    {
        Ok(Assignment {
            values: vec![in alloc; false; len as usize]?,
        })
    }

    /// The number of variables.
    pub fn len(&self) -> u64
        ensures { result ≡ length self.now }
    {
        self.values.len() as u64
    }

    /// The values in order, that of variable 1 first.
    pub fn as_slice(&self) -> &[bool]
        ensures { result.now ≡ self.now }
    {
        self.values.as_slice()
    }

    /// Whether the literal is true.
    pub fn value(&self, lit: Lit) -> bool
        requires { lit.var ≤ length self.now }
        ensures { result ≡ lit_true self.now lit }
    {
        self.values[(lit.var() - 1) as usize] != lit.is_neg()
    }

    /// Makes the literal true.
    pub fn set(&mut self, lit: Lit)
        requires { lit.var ≤ length self.old }
        ensures { self.new ≡ slice_set self.old (lit.var - 1) (not lit.neg) }
    {
        self.values[(lit.var() - 1) as usize] = !lit.is_neg();
    }
}

impl Duplicate for Assignment {
    fn copy(&self, alloc: Global) -> Result<Assignment, NoMemory> {
        Ok(Assignment {
            values: Vec::from_slice(alloc, &self.values)?,
        })
    }
}
