// A sum that constraints are added to in place.
ghost use Rattle.std.specs.Prelude.{◌≡◌, ◌+◌, ◌*◌, ◌≤◌, ◌^◌, IfOk, IfSome};
ghost use Rattle.pb_lin.specs.Constraint.{size};
ghost use Rattle.cutting_planes.specs.Rules.{IsSum, multiplied};

use crate::operand::Operand;
use crate::slots::{add_multiple, empty_slots};
use crate::weaken::nonzero_terms;
use crate::wide::WideConstraint;
use scut_base::{Lit, NoMemory};
use std::alloc::Global;
use std::marker::Model;

// A constraint with a slot for each variable that may come, so that a term is added by a search, and
// none is moved: a sparse accumulator (Gilbert, Moler and Schreiber 1992).
#[derive(Debug, Drop)]
pub(crate) struct RunningSum {
    slots: Vec<(Lit, u128)>,
    total: u128,
    degree: u128,
}

impl Model for RunningSum {
    ghost use Rattle.pb_lin.specs.Constraint.{ConstraintValue};
    ghost use Rattle.cutting_planes.specs.Runs.{nonzero};
    ghost use Rattle.cutting_planes.specs.Slots.{AreCounted};

    ghost Value = { ConstraintValue };

    ghost view = { λ s. record { terms = nonzero s.slots.items; degree = s.degree } };

    ghost invariant = { λ s. AreCounted s.slots.items s.total s.degree };
}

impl RunningSum {
    // The constraint, with slots for the variables of these literals, which stand in rising order; or
    // none where one of the constraint's isn't among them.
    pub(crate) fn of(
        alloc: Global,
        c: &Operand,
        literals: &[Lit],
    ) -> Result<Option<RunningSum>, NoMemory>
        ensures { IfOk result (λ found. IfSome found (λ s. s ≡ c.now)) }
    {
        // Tells that its size is small enough.
        let _len = c.len();
        let nothing = RunningSum {
            slots: empty_slots(alloc, literals)?,
            total: 0,
            degree: 0,
        };
        Ok(nothing.plus(c, 1))
    }

    // The sum with a multiple of a constraint, or none where one of its variables has no slot. Costs a
    // search for each of its terms.
    pub(crate) fn plus(self, c: &Operand, factor: u128) -> Option<RunningSum>
        requires { size self + size c.now * factor ≤ 2 ^ 100 }
        ensures { IfSome result (λ s. IsSum s self (multiplied factor c.now)) }
    {
        let mut slots = self.slots;
        let (added, cancelled) = add_multiple(&mut slots, c, factor)?;
        let degree = (self.degree + c.degree() * factor).saturating_sub(cancelled);
        Some(RunningSum {
            slots,
            total: self.total + added - 2 * cancelled,
            degree,
        })
    }

    // The coefficients and the degree, summed. Takes constant time.
    pub(crate) fn size(&self) -> u128
        ensures value { result ≡ size self.now }
        ensures small { result ≤ 2 ^ 100 }
    {
        self.total + self.degree
    }

    // The constraint without the slots that are left empty. Costs one pass.
    pub(crate) fn into_wide(self) -> WideConstraint
        ensures { result ≡ self }
    {
        WideConstraint::from_parts(nonzero_terms(self.slots), self.degree)
    }
}
