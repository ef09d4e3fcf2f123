// Constraints as the stack works on them.
ghost use Rattle.std.specs.Prelude.{◌≡◌, ◌<◌, ◌≤◌, ◌^◌, Some, IfOk, length, slice_get};
ghost use Rattle.pb_lin.specs.Constraint.{IsNormal, size};
ghost use Rattle.cutting_planes.specs.Rules.{literal_axiom};

use pb_lin::Constraint;
use scut_base::{Items, Lit, NoMemory};
use std::alloc::Global;
use std::marker::Model;

// A constraint whose terms stand in one list, each literal with its coefficient: 32 bytes a term, and
// they change in place, without memory, whatever the coefficients become.
#[derive(Debug, Drop)]
pub(crate) struct WideConstraint {
    pub(crate) terms: Items<(Lit, u128)>,
    pub(crate) degree: u128,
}

impl Model for WideConstraint {
    ghost use Rattle.pb_lin.specs.Constraint.{ConstraintValue, IsNormal};

    ghost Value = { ConstraintValue };

    ghost view = { λ c. record { terms = c.terms; degree = c.degree } };

    ghost invariant = { λ c. IsNormal c.terms c.degree };
}

impl WideConstraint {
    // The constraint of these parts, which are in normal form.
    pub(crate) fn from_parts(terms: Items<(Lit, u128)>, degree: u128) -> WideConstraint
        requires { IsNormal terms degree }
        ensures { result ≡ record { terms = terms; degree = degree } }
    {
        WideConstraint { terms, degree }
    }

    // A copy of a constraint. Costs one pass.
    pub(crate) fn of(alloc: Global, c: &Constraint) -> Result<WideConstraint, NoMemory>
        ensures { IfOk result (λ w. w ≡ c.now) }
    {
        let terms = c.to_terms(alloc)?;
        Ok(WideConstraint::from_parts(terms, c.degree()))
    }

    // That a literal is at least 0.
    pub(crate) fn literal_axiom(alloc: Global, lit: Lit) -> Result<WideConstraint, NoMemory>
        ensures { IfOk result (λ c. c ≡ literal_axiom lit) }
    {
        // Tells that the variable is at least 1.
        let _var = lit.var();
        let mut terms = Items::new(alloc);
        terms.push((lit, 1))?;
        Ok(WideConstraint::from_parts(terms, 0))
    }

    // The constraint as others keep it. Costs two passes.
    pub(crate) fn to_constraint(&self, alloc: Global) -> Result<Constraint, NoMemory>
        ensures { IfOk result (λ c. c ≡ self.now) }
    {
        let constraint = Constraint::from_terms(alloc, self.terms(), self.degree())?;
        Ok(constraint)
    }

    // The terms, in rising order of variables.
    pub(crate) fn terms(&self) -> &[(Lit, u128)]
        ensures value { result.now ≡ self.now.terms }
        ensures normal { IsNormal self.now.terms self.now.degree }
    {
        self.terms.as_slice()
    }

    // The number of terms.
    pub(crate) fn len(&self) -> usize
        ensures value { result ≡ length self.now.terms }
        ensures normal { IsNormal self.now.terms self.now.degree }
    {
        self.terms().len()
    }

    // The term at a place, counted from 0; their variables rise.
    pub(crate) fn term(&self, at: usize) -> (Lit, u128)
        requires { at < length self.now.terms }
        ensures { slice_get self.now.terms at ≡ Some result }
    {
        self.terms()[at]
    }

    // The degree.
    pub(crate) fn degree(&self) -> u128
        ensures value { result ≡ self.now.degree }
        ensures normal { IsNormal self.now.terms self.now.degree }
    {
        self.degree
    }

    // The coefficients and the degree, summed.
    pub(crate) fn size(&self) -> u128
        ensures value { result ≡ size self.now }
        ensures normal { IsNormal self.now.terms self.now.degree }
    {
        let mut total = 0;
        for term in self.terms() {
            total += term.1;
        }
        total + self.degree()
    }
}
