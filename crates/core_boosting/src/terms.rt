// Weighted literals, and a core's among them.
ghost use Rattle.std.specs.Prelude.{◌≡◌, ◌<◌, All, AllPairs, IfOk, Some};
ghost use Rattle.std.specs.FinMap.{get};
ghost use Rattle.pb_lin.specs.Constraint.{ConstraintValue, literals};
ghost use Rattle.pb_lin.specs.Place.{IsPlace};
ghost use Rattle.pb_lin.specs.Restriction.{is_among};
ghost use Rattle.core_boosting.specs.Exchanging.{AllWeigh, exchanged, remaining};

use proof_rules::ProofState;
use scut_base::{Items, Lit, NoMemory};
use std::alloc::Global;

// The literals of a live line.
pub(crate) fn literals_of(
    alloc: Global,
    state: &ProofState,
    id: u64,
) -> Result<Items<Lit>, NoMemory>
    ensures { IfOk result (λ lits. (c : ConstraintValue) → get state.now.live id ≡ Some c
        → lits ≡ literals c.terms) }
{
    let mut lits = Items::new(alloc);
    if let Some(line) = state.live().get(id) {
        lits.extend_from_slice(line.literals())?;
    }
    Ok(lits)
}

// The least weight of these literals, whose variables rise. Costs a binary search for each term.
pub(crate) fn least_weight(terms: &[(Lit, u64)], lits: &[Lit]) -> u64
    requires rising { AllPairs (λ l m. l.var < m.var) lits.now }
    requires positive { All (λ t. 0 < t.1) terms.now }
    ensures some { 0 < result }
    ensures least { AllWeigh lits.now result terms.now }
{
    let mut least = u64::MAX;
    for term in terms {
        if term.1 < least && is_among(lits, term.0) {
            least = term.1;
        }
    }
    least
}

// The terms with this weight taken from these literals, whose variables rise, and given to the outputs. Costs a binary
// search for each term.
pub(crate) fn exchanged(
    alloc: Global,
    terms: &[(Lit, u64)],
    lits: &[Lit],
    weight: u64,
    outputs: &[Lit],
) -> Result<Items<(Lit, u64)>, NoMemory>
    requires rising { AllPairs (λ l m. l.var < m.var) lits.now }
    requires least { AllWeigh lits.now weight terms.now }
    ensures { IfOk result (λ new. new ≡ exchanged lits.now weight outputs.now terms.now) }
{
    let mut new = remaining(alloc, terms, lits, weight)?;
    for output in outputs {
        new.push((*output, weight))?;
    }
    Ok(new)
}

// The terms that are left where this weight is taken from these literals.
fn remaining(
    alloc: Global,
    terms: &[(Lit, u64)],
    lits: &[Lit],
    weight: u64,
) -> Result<Items<(Lit, u64)>, NoMemory>
    requires rising { AllPairs (λ l m. l.var < m.var) lits.now }
    requires least { AllWeigh lits.now weight terms.now }
    ensures { IfOk result (λ left. left ≡ remaining lits.now weight terms.now) }
{
    let mut left = Items::with_capacity(alloc, terms.len())?;
    for term in terms {
        let rest = if is_among(lits, term.0) {
            term.1 - weight
        } else {
            term.1
        };
        if rest > 0 {
            left.push((term.0, rest))?;
        }
    }
    Ok(left)
}

// Whether the literal is one of these, whose variables rise. Costs a binary search.
fn is_among(lits: &[Lit], lit: Lit) -> bool
    requires { AllPairs (λ l m. l.var < m.var) lits.now }
    ensures { result ≡ is_among lits.now lit }
{
    let place = literal_place(lits, lit.var());
    if place == lits.len() || lits[place].var() != lit.var() {
        return false;
    }
    lits[place].is_neg() == lit.is_neg()
}

// The first place whose variable isn't below the given one.
fn literal_place(lits: &[Lit], var: u64) -> usize
    requires { AllPairs (λ l m. l.var < m.var) lits.now }
    ensures { IsPlace (λ l. l.var) lits.now var result }
{
    lits.partition_point(|lit| lit.var() < var)
}
