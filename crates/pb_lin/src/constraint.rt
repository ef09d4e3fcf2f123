// Constraints in normal form, and how they are stored.
ghost use Rattle.std.specs.Prelude.{◌≡◌, ◌+◌, ◌<◌, ◌≤◌, ◌^◌, ◌↔◌, Some, [], length, map, slice_get, AllPairs, IsTrue, IfOk};
ghost use Rattle.std.specs.List.{slice_index_or};
ghost use Rattle.scut_base.specs.Literal.{Literal};
ghost use Rattle.pb_lin.specs.Constraint.{IsNormal, AreOnes, literals, ones};
ghost use Rattle.pb_lin.specs.Stored.{terms_of};

use crate::parts::{Parts, coefficient};
use scut_base::{Duplicate, Items, Lit, NoMemory};
use std::alloc::Global;
use std::marker::Model;

/// A sum of positive coefficients on literals of distinct variables, in rising order of variables,
/// that is at least its degree. Coefficients and degree sum to at most 2^100.
///
/// Takes 48 bytes, and a clause of one to four literals no more. Else 8 besides for each literal where all coefficients
/// are 1, and 24 with a box where they aren't.
#[derive(Debug, Drop)]
pub struct Constraint {
    pub(crate) parts: Parts,
}

const _: () = prove!(std::mem::size_of::<Constraint>() == 48);

impl Model for Constraint {
    ghost use Rattle.pb_lin.specs.Constraint.{ConstraintValue};
    ghost use Rattle.pb_lin.specs.Stored.{IsStored, terms_of};

    ghost Value = { ConstraintValue };

    ghost view = { λ c. record { terms = terms_of c.parts.lits c.parts.coefs; degree = c.parts.degree } };

    ghost invariant = { λ c. IsStored c.parts.lits c.parts.coefs c.parts.degree };
}

impl Constraint {
    /// The constraint of these terms, which are in normal form. Costs two passes over them.
    pub fn from_terms(
        alloc: Global,
        terms: &[(Lit, u128)],
        degree: u128,
    ) -> Result<Constraint, NoMemory>
        requires { IsNormal terms.now degree }
        ensures { IfOk result (λ c. c ≡ record { terms = terms.now; degree = degree }) }
    {
        let lits = literals_of(alloc, terms)?;
        let coefs = stored_coefficients(alloc, terms)?;
        let parts = Parts::new(alloc, lits, coefs, degree)?;
        Ok(Constraint { parts })
    }

    /// That at least one of these literals, whose variables rise, is true. Takes no memory, and
    /// constant time.
    pub fn clause(lits: Items<Lit>) -> Constraint
        requires { AllPairs (λ l m. l.var < m.var) lits }
        ensures { result ≡ record { terms = ones lits; degree = 1 } }
    {
        let _fits = lits.len();
        Constraint::at_least(lits, 1)
    }

    /// That at least `degree` of these literals, whose variables rise, are true. Takes no memory,
    /// and constant time.
    pub fn at_least(lits: Items<Lit>, degree: u128) -> Constraint
        requires rising { AllPairs (λ l m. l.var < m.var) lits }
        requires small { length lits + degree ≤ 2 ^ 100 }
        ensures { result ≡ record { terms = ones lits; degree = degree } }
    {
        // A literal's variable is at least 1; of those that rise, the first tells it of all.
        let _first = first_variable(lits.as_slice());
        Constraint {
            parts: Parts::ones(lits, degree),
        }
    }

    /// The number of terms.
    pub fn len(&self) -> usize
        ensures value { result ≡ length self.now.terms }
        ensures normal { IsNormal self.now.terms self.now.degree }
    {
        self.parts.literals().len()
    }

    /// The least value of the sum at which the constraint holds.
    pub fn degree(&self) -> u128
        ensures value { result ≡ self.now.degree }
        ensures normal { IsNormal self.now.terms self.now.degree }
    {
        self.parts.degree()
    }

    /// The literals, in rising order of variables.
    pub fn literals(&self) -> &[Lit]
        ensures value { result.now ≡ literals self.now.terms }
        ensures normal { IsNormal self.now.terms self.now.degree }
    {
        self.parts.literals()
    }

    /// The literal at a place, counted from 0, with its coefficient.
    pub fn term(&self, at: usize) -> (Lit, u128)
        requires { at < length self.now.terms }
        ensures { slice_get self.now.terms at ≡ Some result }
    {
        (self.parts.literals()[at], self.parts.coefficient(at))
    }

    /// A copy of the terms, each literal with its coefficient. Takes 32 bytes a term, and one pass.
    pub fn to_terms(&self, alloc: Global) -> Result<Items<(Lit, u128)>, NoMemory>
        ensures value { IfOk result (λ terms. terms ≡ self.now.terms) }
        ensures normal { IsNormal self.now.terms self.now.degree }
    {
        paired(alloc, self.parts.literals(), self.parts.coefficients())
    }

    /// Whether all coefficients are 1. Takes constant time.
    pub fn is_cardinality(&self) -> bool
        ensures { IsTrue result ↔ AreOnes self.now.terms }
    {
        self.parts.is_ones()
    }

    /// Whether all coefficients and the degree are 1, also without terms. Takes constant time.
    pub fn is_clause(&self) -> bool
        ensures { IsTrue result ↔ (AreOnes self.now.terms × (self.now.degree ≡ 1)) }
    {
        self.parts.is_ones() && self.parts.degree() == 1
    }
}

impl Duplicate for Constraint {
    fn copy(&self, alloc: Global) -> Result<Constraint, NoMemory> {
        Ok(Constraint {
            parts: self.parts.copy(alloc)?,
        })
    }
}

// The first literal's variable, and 1 where there is none.
fn first_variable(lits: &[Lit]) -> u64
    ensures { (d : Literal) → 0 < length lits.now → 0 < (slice_index_or lits.now 0 d).var }
{
    if lits.is_empty() {
        return 1;
    }
    lits[0].var()
}

// Each literal with its coefficient. The coefficients are looked up once, and not for each term.
fn paired(alloc: Global, lits: &[Lit], coefs: &[u128]) -> Result<Items<(Lit, u128)>, NoMemory>
    ensures { IfOk result (λ terms. terms ≡ terms_of lits.now coefs.now) }
{
    let mut terms = Items::with_capacity(alloc, lits.len())?;
    for at in 0..lits.len() {
        terms.push((lits[at], coefficient(coefs, at)))?;
    }
    Ok(terms)
}

// The literals of the terms.
fn literals_of(alloc: Global, terms: &[(Lit, u128)]) -> Result<Items<Lit>, NoMemory>
    ensures { IfOk result (λ lits. lits ≡ literals terms.now) }
{
    let mut lits = Items::with_capacity(alloc, terms.len())?;
    for term in terms {
        lits.push(term.0)?;
    }
    Ok(lits)
}

// The coefficients of the terms, or none where all are 1.
fn stored_coefficients(alloc: Global, terms: &[(Lit, u128)]) -> Result<Items<u128>, NoMemory>
    ensures value { IfOk result (λ coefs. terms_of (literals terms.now) coefs ≡ terms.now) }
    ensures short { IfOk result (λ coefs. AreOnes terms.now → coefs ≡ []) }
{
    if are_ones(terms) {
        return Ok(Items::new(alloc));
    }
    let coefs = coefficients_of(alloc, terms)?;
    Ok(coefs)
}

// The coefficients of the terms.
fn coefficients_of(alloc: Global, terms: &[(Lit, u128)]) -> Result<Items<u128>, NoMemory>
    ensures { IfOk result (λ coefs. coefs ≡ map (λ t. t.1) terms.now) }
{
    let mut coefs = Items::with_capacity(alloc, terms.len())?;
    for term in terms {
        coefs.push(term.1)?;
    }
    Ok(coefs)
}

// Whether all coefficients are 1.
fn are_ones(terms: &[(Lit, u128)]) -> bool
    ensures { IsTrue result ↔ AreOnes terms.now }
{
    terms.iter().all(|term| term.1 == 1)
}
