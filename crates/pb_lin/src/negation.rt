// The negation of a constraint.
ghost use Rattle.std.specs.Prelude.{◌≡◌, ◌+◌, ◌≤◌, ◌<◌, ◌^◌, ◌↔◌, List, Bool, map, IfOk, IsErrOf};
ghost use Rattle.pb_lin.specs.Constraint.{ConstraintValue, IsNormal, Holds, opposite, opposite_terms, total, size, negation};

use crate::{Constraint, LinFault, SIZE_LIMIT};
use scut_base::{Items, Lit, NoMemory};
use std::alloc::Global;

impl Constraint {
    /// The constraint that holds exactly where this one doesn't: the opposite literals, and a degree of
    /// one above what this one's falls short of the sum of its coefficients. `Overflow` where its size
    /// would exceed 2^100, `NoMemory` where memory was refused. Costs one pass over the terms, and the
    /// memory of a copy.
    pub fn negated(&self, alloc: Global) -> Result<Constraint, LinFault>
        ensures value { IfOk result (λ c. c ≡ negation self.now) }
        ensures overflow { IsErrOf result LinFault.Overflow ↔ (2 ^ 100 < size (negation self.now)) }
    {
        let total = self.total();
        let degree = (total + 1).saturating_sub(self.degree());
        if total + degree > SIZE_LIMIT {
            return Err(LinFault::Overflow);
        }
        let negation = self.opposite(alloc, degree)?;
        Ok(negation)
    }

    // The opposite literals with these coefficients, and another degree.
    fn opposite(&self, alloc: Global, degree: u128) -> Result<Constraint, NoMemory>
        requires { total self.now.terms + degree ≤ 2 ^ 100 }
        ensures { IfOk result
            (λ c. c ≡ record { terms = opposite_terms self.now.terms; degree = degree }) }
    {
        let lits = opposite_literals(alloc, self.parts.literals())?;
        Ok(Constraint {
            parts: self.parts.replaced(alloc, lits, degree)?,
        })
    }
}

// The opposite of each literal.
fn opposite_literals(alloc: Global, lits: &[Lit]) -> Result<Items<Lit>, NoMemory>
    ensures { IfOk result (λ opposites. opposites ≡ map opposite lits.now) }
{
    let mut opposites = Items::with_capacity(alloc, lits.len())?;
    for lit in lits {
        opposites.push(lit.not())?;
    }
    Ok(opposites)
}

/// Law: the negation of a constraint holds exactly where the constraint doesn't.
pub fn negation_holds_elsewhere()
    ensures { (c : ConstraintValue) → IsNormal c.terms c.degree
        → (a : List Bool) → (Holds a (negation c) ↔ ¬ (Holds a c)) }
{}
