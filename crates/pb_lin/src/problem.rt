// Problems: constraints, and sums to be minimised.
ghost use Rattle.std.specs.Prelude.{◌≡◌};
ghost use Rattle.pb_lin.specs.Problem.{IsProblem};

use crate::{Constraint, CostRow};
use scut_base::{Duplicate, Items, NoMemory};
use std::alloc::Global;
use std::marker::Model;

/// Constraints over the variables 1 to `vars`, and sums to be minimised: fewer than 2^33 variables, at
/// most 2^34 constraints, each of a size of at most 2^66, and at most 64 sums.
#[derive(Debug, Drop)]
pub struct PbProblem {
    vars: u64,
    rows: Items<Constraint>,
    costs: Items<CostRow>,
}

impl Model for PbProblem {
    ghost use Rattle.pb_lin.specs.Problem.{ProblemValue, IsProblem};

    ghost Value = { ProblemValue };

    ghost view = { λ p. record { vars = p.vars; rows = p.rows; costs = p.costs } };

    ghost invariant = { λ p. IsProblem (record { vars = p.vars; rows = p.rows; costs = p.costs }) };
}

impl PbProblem {
    /// The problem of these parts. Takes no memory.
    pub fn from_parts(vars: u64, rows: Items<Constraint>, costs: Items<CostRow>) -> PbProblem
        requires { IsProblem (record { vars = vars; rows = rows; costs = costs }) }
        ensures { result ≡ record { vars = vars; rows = rows; costs = costs } }
    {
        PbProblem { vars, rows, costs }
    }

    /// The number of variables. Its second clause tells the limits of the whole.
    pub fn vars(&self) -> u64
        ensures value { result ≡ self.now.vars }
        ensures problem { IsProblem self.now }
    {
        self.vars
    }

    /// The constraints, in order.
    pub fn rows(&self) -> &[Constraint]
        ensures { result.now ≡ self.now.rows }
    {
        self.rows.as_slice()
    }

    /// The sums to be minimised, in order.
    pub fn costs(&self) -> &[CostRow]
        ensures { result.now ≡ self.now.costs }
    {
        self.costs.as_slice()
    }
}

impl Duplicate for PbProblem {
    fn copy(&self, alloc: Global) -> Result<PbProblem, NoMemory> {
        Ok(PbProblem {
            vars: self.vars,
            rows: self.rows.copy(alloc)?,
            costs: self.costs.copy(alloc)?,
        })
    }
}
