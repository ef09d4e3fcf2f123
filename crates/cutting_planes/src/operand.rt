// Constraints on the stack, lent or made.
ghost use Rattle.std.specs.Prelude.{◌≡◌, ◌*◌, ◌+◌, ◌<◌, ◌↔◌, [], None, Some, IfOk, OnOk, IfErr, IsTrue, length, slice_get, unsigned_abs};
ghost use Rattle.scut_base.specs.Fault.{IsFaultOr};
ghost use Rattle.pb_lin.specs.Constraint.{IsNormal, literals, size};
ghost use Rattle.cutting_planes.specs.Rules.{IsSum, multiplied};
ghost use Rattle.cutting_planes.specs.Stack.{factor_fault, size_fault};

use crate::PolFault;
use crate::scale::multiplied;
use crate::sum::sum;
use crate::wide::WideConstraint;
use pb_lin::Constraint;
use scut_base::{Duplicate, Lit, NoMemory};
use std::alloc::Global;
use std::marker::Model;

// A constraint that is lent for as long as the stack lives, or one of the stack's own.
#[derive(Debug, Drop)]
pub(crate) enum Holding<'a> {
    Lent(&'a Constraint),
    Made(WideConstraint),
}

// What operations read and make. One that was lent takes no memory.
#[derive(Debug, Drop)]
pub(crate) struct Operand<'a> {
    holding: Holding<'a>,
}

impl<'a> Model for Operand<'a> {
    ghost use Rattle.pb_lin.specs.Constraint.{ConstraintValue};
    ghost use Rattle.cutting_planes.specs.Held.{held};

    ghost Value = { ConstraintValue };

    ghost view = { λ o. held o.holding };
}

impl<'a> Operand<'a> {
    // A constraint by reference.
    pub(crate) fn lent(c: &'a Constraint) -> Operand<'a>
        ensures { result ≡ c.entry.now }
    {
        Operand {
            holding: Holding::Lent(c),
        }
    }

    // A constraint of the stack's own.
    pub(crate) fn made(c: WideConstraint) -> Operand<'a>
        ensures { result ≡ c }
    {
        Operand {
            holding: Holding::Made(c),
        }
    }

    // The constraint with its terms in one list: a copy of one that was lent, which costs one pass.
    pub(crate) fn into_wide(self, alloc: Global) -> Result<WideConstraint, NoMemory>
        ensures { IfOk result (λ c. c ≡ self.entry) }
    {
        match self.holding {
            Holding::Lent(c) => Ok(WideConstraint::of(alloc, c)?),
            Holding::Made(c) => Ok(c),
        }
    }

    // The constraint as others keep it. Costs two passes.
    pub(crate) fn to_constraint(&self, alloc: Global) -> Result<Constraint, NoMemory>
        ensures { IfOk result (λ c. c ≡ self.now) }
    {
        match &self.holding {
            Holding::Lent(c) => c.copy(alloc),
            Holding::Made(c) => c.to_constraint(alloc),
        }
    }

    // The number of terms.
    pub(crate) fn len(&self) -> usize
        ensures value { result ≡ length self.now.terms }
        ensures normal { IsNormal self.now.terms self.now.degree }
    {
        match &self.holding {
            Holding::Lent(c) => c.len(),
            Holding::Made(c) => c.len(),
        }
    }

    // The term at a place, counted from 0; their variables rise.
    pub(crate) fn term(&self, at: usize) -> (Lit, u128)
        requires { at < length self.now.terms }
        ensures { slice_get self.now.terms at ≡ Some result }
    {
        match &self.holding {
            Holding::Lent(c) => c.term(at),
            Holding::Made(c) => c.term(at),
        }
    }

    // The literals, in rising order of variables. Takes 8 bytes each.
    pub(crate) fn to_literals(&self, alloc: Global) -> Result<Vec<Lit>, NoMemory>
        ensures { IfOk result (λ found. found.items ≡ literals self.now.terms) }
    {
        let mut literals = Vec::with_capacity(alloc, self.len())?;
        for at in 0..self.len() {
            let (lit, _) = self.term(at);
            literals.push(lit)?;
        }
        Ok(literals)
    }

    // The degree.
    pub(crate) fn degree(&self) -> u128
        ensures value { result ≡ self.now.degree }
        ensures normal { IsNormal self.now.terms self.now.degree }
    {
        match &self.holding {
            Holding::Lent(c) => c.degree(),
            Holding::Made(c) => c.degree(),
        }
    }

    // The coefficients and the degree, summed: at most 2^100. Costs one pass at most.
    pub(crate) fn size(&self) -> u128
        ensures value { result ≡ size self.now }
        ensures normal { IsNormal self.now.terms self.now.degree }
    {
        match &self.holding {
            Holding::Lent(c) => c.size(),
            Holding::Made(c) => c.size(),
        }
    }

    // Whether it is `0 >= 0`. Takes constant time.
    fn is_nothing(&self) -> bool
        ensures value { IsTrue result ↔ ((self.now.terms ≡ []) × (self.now.degree ≡ 0)) }
        ensures normal { IsNormal self.now.terms self.now.degree }
    {
        self.len() == 0 && self.degree() == 0
    }

    // The constraint multiplied. By 1 it is itself, and isn't copied.
    pub(crate) fn times(self, alloc: Global, factor: i128) -> Result<Operand<'a>, PolFault>
        ensures value { IfOk result (λ r. r ≡ multiplied (unsigned_abs factor) self.entry) }
        ensures faultless { OnOk result
            (factor_fault factor (size_fault (size self.entry * unsigned_abs factor)) ≡ None) }
        ensures fault { IfErr result
            (IsFaultOr PolFault.NoMemory (factor_fault factor (size_fault (size self.entry * unsigned_abs factor)))) }
    {
        if factor == 1 {
            // Tells that its size is small enough.
            let _nothing = self.is_nothing();
            return Ok(self);
        }
        Ok(Operand::made(multiplied(self.into_wide(alloc)?, factor)?))
    }

    // The sum of two constraints. Where one is `0 >= 0` it is the other, which isn't copied.
    pub(crate) fn plus(self, alloc: Global, other: Operand<'a>) -> Result<Operand<'a>, PolFault>
        ensures value { IfOk result (λ r. IsSum r self.entry other.entry) }
        ensures faultless { OnOk result (size_fault (size self.entry + size other.entry) ≡ None) }
        ensures fault { IfErr result
            (IsFaultOr PolFault.NoMemory (size_fault (size self.entry + size other.entry))) }
    {
        if other.is_nothing() {
            let _nothing = self.is_nothing();
            return Ok(self);
        }
        if self.is_nothing() {
            return Ok(other);
        }
        let (p, q) = (self.into_wide(alloc)?, other.into_wide(alloc)?);
        Ok(Operand::made(sum(alloc, &p, &q)?))
    }
}
