// Constraints without variables, in place: one pass, and no memory.
ghost use Rattle.std.specs.Prelude.{◌≡◌, ℕ, ◌+◌, ◌-◌, ◌<◌, ◌≤◌, ◌≢◌, ◌^◌, ◌==◌, not, sum_by, All, AllPairs, MatchOption, length, slice_index_or};
ghost use Rattle.std.specs.List.{filter};
ghost use Rattle.scut_base.specs.Literal.{Literal};
ghost use Rattle.pb_lin.specs.Constraint.{ConstraintValue, Implies, total};
ghost use Rattle.pb_lin.specs.Place.{IsPlace};
ghost use Rattle.cutting_planes.specs.Rules.{coefficient_in, weakened};
ghost use Rattle.cutting_planes.specs.Runs.{nonzero, weakened_all, weakened_variable};

use crate::PolToken;
use crate::wide::WideConstraint;
use scut_base::{Items, Lit};

// The constraint without the terms of the variables that the tokens weaken, one after another: each
// is the sum with as many times the opposite literal's axiom. The terms are dropped together.
pub(crate) fn weakened_all(c: WideConstraint, run: &[PolToken]) -> WideConstraint
    ensures { result ≡ weakened_all run.now c }
{
    let mut terms = c.terms.into_vec();
    let lost = clear_all(&mut terms, run);
    let degree = c.degree.saturating_sub(lost);
    WideConstraint::from_parts(nonzero_terms(terms), degree)
}

/// Law: a constraint implies itself without a variable, at a degree lowered by the coefficient.
pub fn weakening_is_implied()
    ensures { (var : ℕ) (c : ConstraintValue) → Implies c (weakened var c) }
{}

// Makes the coefficients of these variables 0, and gives what they were together. Each is looked for
// next to the one before, then by a binary search.
fn clear_all(terms: &mut [(Lit, u128)], run: &[PolToken]) -> u128
    requires rising { AllPairs (λ s t. s.0.var < t.0.var) terms.old }
    requires small { total terms.old ≤ 2 ^ 100 }
    ensures { (degree : ℕ)
        → record { terms = nonzero terms.new; degree = degree - result }
        ≡ weakened_all run.now (record { terms = nonzero terms.old; degree = degree }) }
{
    let (mut lost, mut near) = (0, 0);
    for token in run {
        let (gone, after) = clear(terms, weakened_variable(*token), near);
        lost += gone;
        near = after;
    }
    lost
}

// Makes the coefficient of a variable 0, and gives what it was, or 0 where it has no term; and the
// place after it.
fn clear(terms: &mut [(Lit, u128)], var: u64, near: usize) -> (u128, usize)
    requires { AllPairs (λ s t. s.0.var < t.0.var) terms.old }
    ensures kept { nonzero terms.new
        ≡ filter (λ t. not (t.0.var == var)) (nonzero terms.old) }
    ensures gone { result.0 ≡ sum_by (coefficient_in var) (nonzero terms.old) }
    ensures rising { AllPairs (λ s t. s.0.var < t.0.var) terms.new }
    ensures total { total terms.new + result.0 ≡ total terms.old }
{
    let Some(place) = place_of(terms, var, near) else {
        return (0, near);
    };
    let (lit, coefficient) = terms[place];
    terms[place] = (lit, 0);
    (coefficient, place + 1)
}

// The variable that a token weakens, and 0 for another token.
fn weakened_variable(token: PolToken) -> u64
    ensures { result ≡ weakened_variable token }
{
    match token {
        PolToken::Weaken(var) => var,
        _ => 0,
    }
}

// The place of the term of a variable, which may be near.
pub(crate) fn place_of(terms: &[(Lit, u128)], var: u64, near: usize) -> Option<usize>
    requires { AllPairs (λ s t. s.0.var < t.0.var) terms.now }
    ensures { MatchOption result
        (All (λ t. t.0.var ≢ var) terms.now)
        (λ place. (place < length terms.now)
        × ((d : Literal × ℕ) → (slice_index_or terms.now place d).0.var ≡ var)) }
{
    if near < terms.len() && terms[near].0.var() == var {
        return Some(near);
    }
    let place = least_place(terms, var);
    if place < terms.len() && terms[place].0.var() == var {
        return Some(place);
    }
    None
}

// The first place whose variable isn't below the given one, by binary search.
fn least_place(terms: &[(Lit, u128)], var: u64) -> usize
    requires { AllPairs (λ s t. s.0.var < t.0.var) terms.now }
    ensures { IsPlace (λ t. t.0.var) terms.now var result }
{
    terms.partition_point(|term| term.0.var() < var)
}

// The terms whose coefficients aren't 0.
pub(crate) fn nonzero_terms(terms: Vec<(Lit, u128)>) -> Items<(Lit, u128)>
    ensures { result ≡ nonzero terms.items }
{
    let mut terms = terms;
    terms.retain(|term| term.1 != 0);
    Items::from_vec(terms)
}
