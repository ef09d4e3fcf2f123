// An instance, within its limits.
ghost use Rattle.std.specs.Prelude.{◌≡◌, ◌↔◌, length, IsTrue, IfOk};

use crate::evaluate::{all_clauses_true, all_rows_hold, objective_costs};
use crate::sense::problem_numbers;
use crate::{Clauses, Linear, Objective};
use front_set::CostVec;
use scut_base::{Assignment, Duplicate, Items, NoMemory};
use std::alloc::Global;
use std::marker::Model;

/// Hard clauses, hard linear rows and objectives over the variables 1 to `vars`.
#[derive(Debug, Drop)]
pub struct Instance {
    pub vars: u64,
    pub clauses: Clauses,
    pub linear: Items<Linear>,
    pub objectives: Items<Objective>,
}

impl Model for Instance {
    ghost use Rattle.instance.specs.Shape.{InstanceValue, IsWithinLimits};

    ghost Value = { InstanceValue };

    ghost view = { λ i. record { vars = i.vars; clauses = i.clauses; linear = i.linear; objectives = i.objectives } };

    ghost invariant = { λ i. IsWithinLimits (record { vars = i.vars; clauses = i.clauses; linear = i.linear; objectives = i.objectives }) };
}

impl Instance {
    ghost use Rattle.instance.specs.Shape.{InstanceValue, IsWithinLimits};
    ghost use Rattle.instance.specs.Meaning.{IsModel, costs_of};
    ghost use Rattle.instance.specs.ParetoFront.{problem_vector, IsProblemVector};

    /// The instance of these parts, which are within the limits. Takes no memory.
    pub fn new(
        vars: u64,
        clauses: Clauses,
        linear: Items<Linear>,
        objectives: Items<Objective>,
    ) -> Instance
        requires { let value : InstanceValue =
            record { vars = vars; clauses = clauses; linear = linear; objectives = objectives } in
            IsWithinLimits value }
        ensures { result ≡
            record { vars = vars; clauses = clauses; linear = linear; objectives = objectives } }
    {
        Instance {
            vars,
            clauses,
            linear,
            objectives,
        }
    }

    /// The number of variables. Its clause tells the limits that every instance keeps, to callers that
    /// need them.
    pub fn vars(&self) -> u64
        ensures value { result ≡ self.now.vars }
        ensures limits { IsWithinLimits self.now }
    {
        self.vars
    }

    /// Whether every clause has a true literal and every row holds. Costs one pass over them at most.
    pub fn is_model(&self, a: &Assignment) -> bool
        requires { length a.now ≡ self.now.vars }
        ensures { IsTrue result ↔ IsModel self.now a.now }
    {
        all_clauses_true(&self.clauses, a) && all_rows_hold(self.linear.as_slice(), a)
    }

    /// One number for each objective: the weights of its false soft clauses, plus the coefficients of
    /// its true terms, plus its offset. Costs one pass over them.
    pub fn costs(&self, alloc: Global, a: &Assignment) -> Result<CostVec, NoMemory>
        requires { length a.now ≡ self.now.vars }
        ensures costs { IfOk result (λ c. c ≡ costs_of self.now a.now) }
        ensures bounds { IfOk result (λ c. IsProblemVector self.now c) }
    {
        let costs = objective_costs(alloc, self.objectives.as_slice(), a)?;
        Ok(CostVec::from_items(Items::from_vec(costs)))
    }

    /// The vector with the sign changed of each number at a maximised objective, whose magnitudes are
    /// below 2^63. It is its own inverse.
    pub fn problem_vector(&self, alloc: Global, u: &CostVec) -> Result<CostVec, NoMemory>
        requires { IsProblemVector self.now u.now }
        ensures vector { IfOk result (λ v. v ≡ problem_vector self.now u.now) }
        ensures bounds { IfOk result (λ v. IsProblemVector self.now v) }
    {
        let numbers = problem_numbers(alloc, self.objectives.as_slice(), u.as_slice())?;
        Ok(CostVec::from_items(Items::from_vec(numbers)))
    }
}

impl Duplicate for Instance {
    fn copy(&self, alloc: Global) -> Result<Instance, NoMemory> {
        Ok(Instance {
            vars: self.vars,
            clauses: self.clauses.copy(alloc)?,
            linear: self.linear.copy(alloc)?,
            objectives: self.objectives.copy(alloc)?,
        })
    }
}
