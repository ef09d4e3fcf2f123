// A line of a search, in little room for clauses (DECISIONS, search-lines).
ghost use Rattle.std.specs.Prelude.{◌≡◌, ◌<◌, ◌↔◌, Some, length, slice_get, IsTrue, IfOk};
ghost use Rattle.pb_lin.specs.Constraint.{IsNormal, AreOnes, literals};
ghost use Rattle.clause_prop.specs.StoredLine.{constraint_of};

use pb_lin::Constraint;
use scut_base::{Duplicate, Lit, NoMemory, boxed};
use smallvec::SmallVec;
use std::alloc::Global;
use std::marker::Model;

/// A line as a store keeps it: of a clause its literals, and of another constraint all of it, in a box. Contracts see
/// the constraint. Takes 48 bytes, and a clause of up to three literals no more; a longer one takes a list of them.
#[derive(Debug, Drop)]
pub struct StoredLine {
    kind: Kind,
}

#[derive(Debug, Drop)]
enum Kind {
    // Up to three literals stand in the list itself.
    Clause(SmallVec<Lit, 3>),
    Other(Box<Constraint>),
}

const _: () = prove!(std::mem::size_of::<StoredLine>() == 48);

impl Model for StoredLine {
    ghost use Rattle.pb_lin.specs.Constraint.{ConstraintValue, IsNormal};
    ghost use Rattle.clause_prop.specs.StoredLine.{constraint_of};

    ghost Value = { ConstraintValue };

    ghost view = { λ l. constraint_of l.kind };

    ghost invariant = { λ l. IsNormal (constraint_of l.kind).terms
        (constraint_of l.kind).degree };
}

impl StoredLine {
    /// A copy of a constraint.
    pub(crate) fn of(alloc: Global, line: &Constraint) -> Result<StoredLine, NoMemory>
        ensures { IfOk result (λ stored. stored ≡ line.now) }
    {
        // Tells that the line is in normal form.
        let _terms = line.len();
        let kind = kind_of(alloc, line)?;
        Ok(StoredLine { kind })
    }

    /// The number of terms.
    pub fn len(&self) -> usize
        ensures value { result ≡ length self.now.terms }
        ensures normal { IsNormal self.now.terms self.now.degree }
    {
        self.literals().len()
    }

    /// The least value of the sum at which the line holds.
    pub fn degree(&self) -> u128
        ensures value { result ≡ self.now.degree }
        ensures normal { IsNormal self.now.terms self.now.degree }
    {
        match &self.kind {
            Kind::Clause(_) => 1,
            Kind::Other(line) => line.degree(),
        }
    }

    /// The literals, in rising order of variables.
    pub fn literals(&self) -> &[Lit]
        ensures value { result.now ≡ literals self.now.terms }
        ensures normal { IsNormal self.now.terms self.now.degree }
    {
        match &self.kind {
            Kind::Clause(lits) => lits.as_slice(),
            Kind::Other(line) => line.literals(),
        }
    }

    /// The literal at a place, counted from 0, with its coefficient.
    pub fn term(&self, at: usize) -> (Lit, u128)
        requires { at < length self.now.terms }
        ensures { slice_get self.now.terms at ≡ Some result }
    {
        match &self.kind {
            Kind::Clause(lits) => (lits.as_slice()[at], 1),
            Kind::Other(line) => line.term(at),
        }
    }

    /// Whether all coefficients are 1. Takes constant time.
    pub fn is_cardinality(&self) -> bool
        ensures { IsTrue result ↔ AreOnes self.now.terms }
    {
        match &self.kind {
            Kind::Clause(_) => true,
            Kind::Other(line) => line.is_cardinality(),
        }
    }

    /// Whether all coefficients and the degree are 1, also without terms. Takes constant time.
    pub fn is_clause(&self) -> bool
        ensures { IsTrue result ↔ (AreOnes self.now.terms × (self.now.degree ≡ 1)) }
    {
        match &self.kind {
            Kind::Clause(_) => true,
            Kind::Other(line) => line.is_clause(),
        }
    }
}

// How a constraint is kept.
fn kind_of(alloc: Global, line: &Constraint) -> Result<Kind, NoMemory>
    ensures { IfOk result (λ kind. constraint_of kind ≡ line.now) }
{
    if line.is_clause() {
        let lits = SmallVec::from_slice(alloc, line.literals())?;
        return Ok(Kind::Clause(lits));
    }
    Ok(Kind::Other(boxed(alloc, line.copy(alloc)?)?))
}
