// Sums brought to normal form.
ghost use Rattle.std.specs.Prelude.{◌≡◌, ℕ, ◌+◌, ◌<◌, ◌≤◌, ◌^◌, ◌↔◌, Bool, List, ℤ, pos, ◌-ℤ◌, ◌+ℤ◌, ◌≤ℤ◌, unsigned_abs, sum_by, All, IfOk, IsErrOf, IsTrue, option_to_list};
ghost use Rattle.std.specs.Int.{int_max};
ghost use Rattle.std.specs.List.Sorted.{IsNonDecreasingBy};
ghost use Rattle.scut_base.specs.Literal.{Literal};
ghost use Rattle.pb_lin.specs.Constraint.{ConstraintValue, Holds, IsMerged, IsNormal, IsVariable, TermsUpTo, UpTo, total, value, term_value};
ghost use Rattle.pb_lin.specs.NormalForm.{HasExcess, IsNormalForm, magnitude, signed_value, sum_value};

use crate::{Constraint, LinFault, SIZE_LIMIT};
use scut_base::{Items, Lit, NoMemory};
use std::alloc::Global;

// The largest sum of magnitudes that is brought to normal form, half of the largest size: positive
// coefficients can raise the degree by as much as the magnitudes sum to.
pub(crate) const LARGEST: u128 = SIZE_LIMIT / 2;

impl Constraint {
    /// The normal form of a sum that is at least a degree: one positive coefficient for each
    /// variable, by `c·~x = c - c·x` (as in Roussel and Manquinho 2009). Takes the time of a sort of
    /// the terms. `Overflow` where the magnitudes of the coefficients and of the degree sum above
    /// 2^99; `NoMemory` where memory is refused.
    pub fn normal(
        alloc: Global,
        terms: &[(i128, Lit)],
        degree: i128,
    ) -> Result<Constraint, LinFault>
        ensures normal_form { IfOk result (λ c. IsNormalForm c terms.now degree) }
        ensures overflow { IsErrOf result LinFault.Overflow
            ↔ (2 ^ 99 < magnitude terms.now degree) }
    {
        if !is_small(terms, degree) {
            return Err(LinFault::Overflow);
        }
        let (positive, lowered) = positive_terms(alloc, terms)?;
        let constraint = normal_form_of_positive(alloc, positive, degree + lowered as i128)?;
        Ok(constraint)
    }
}

/// Law: the normal form of a sum holds exactly where the sum is at least its degree.
pub fn normal_form_holds()
    ensures { (c : ConstraintValue) (terms : List (ℤ × Literal)) (degree : ℤ)
        → IsNormalForm c terms degree
        → (a : List Bool) → (Holds a c ↔ (degree ≤ℤ sum_value a terms)) }
{}

/// Law: constraints in normal form whose left sides differ by the same amount at every assignment
/// have the same terms, and so the amount is 0.
pub fn normal_form_is_unique()
    ensures { (c d : ConstraintValue) → IsNormal c.terms c.degree → IsNormal d.terms d.degree
        → (m n : ℕ) → ((a : List Bool) → value a c.terms + m ≡ value a d.terms + n)
        → (c.terms ≡ d.terms) × (m ≡ n) }
{}

/// Law: constraints in normal form of the same excess are equal.
pub fn same_excess()
    ensures { (c d : ConstraintValue) → IsNormal c.terms c.degree → IsNormal d.terms d.degree
        → (excess : List Bool → ℤ) → HasExcess c excess → HasExcess d excess → c ≡ d }
{}

/// Law: a normal form has no variable that the sum lacks.
pub fn normal_form_variables()
    ensures { (c : ConstraintValue) (terms : List (ℤ × Literal)) (degree : ℤ) (n : ℕ)
        → IsNormal c.terms c.degree → IsNormalForm c terms degree
        → All (λ t. IsVariable n t.1.var) terms → UpTo n c }
{}

/// What is left of two terms of one variable, and what they make together at each assignment: where
/// their literals are opposite, the smaller coefficient cancels.
pub fn add_terms(one: (Lit, u128), other: (Lit, u128)) -> (Option<(Lit, u128)>, u128)
    requires same { one.0.var ≡ other.0.var }
    requires positive { 0 < one.1 }
    requires positive_too { 0 < other.1 }
    requires small { one.1 + other.1 ≤ 2 ^ 100 }
    ensures value { (a : List Bool) → value a (option_to_list result.0) + result.1
        ≡ term_value a one + term_value a other }
    ensures total { total (option_to_list result.0) + result.1 ≤ one.1 + other.1 }
    ensures left { All (λ t. (t.0.var ≡ one.0.var) × (0 < t.1)) (option_to_list result.0) }
{
    if one.0.is_neg() == other.0.is_neg() {
        return (Some((one.0, one.1 + other.1)), 0);
    }
    if other.1 < one.1 {
        (Some((one.0, one.1 - other.1)), other.1)
    } else if one.1 < other.1 {
        (Some((other.0, other.1 - one.1)), one.1)
    } else {
        (None, one.1)
    }
}

// Whether the magnitudes sum to at most 2^99.
fn is_small(terms: &[(i128, Lit)], degree: i128) -> bool
    ensures { IsTrue result ↔ (magnitude terms.now degree ≤ 2 ^ 99) }
{
    let mut sum = degree.unsigned_abs();
    for term in terms {
        sum = sum.saturating_add(term.0.unsigned_abs());
    }
    sum <= LARGEST
}

// The same sum with positive coefficients, as `c·~x = c - c·x`, and what it is lowered by then.
fn positive_terms(
    alloc: Global,
    terms: &[(i128, Lit)],
) -> Result<(Vec<(Lit, u128)>, u128), NoMemory>
    requires { sum_by (λ t. unsigned_abs t.0) terms.now ≤ 2 ^ 99 }
    ensures value { IfOk result
        (λ r. (a : List Bool) → pos (value a r.0.items) -ℤ pos r.1 ≡ sum_value a terms.now) }
    ensures positive { IfOk result (λ r. All (λ t. 0 < t.1) r.0.items) }
    ensures total { IfOk result
        (λ r. total r.0.items ≤ sum_by (λ t. unsigned_abs t.0) terms.now) }
    ensures lowered { IfOk result (λ r. r.1 ≤ sum_by (λ t. unsigned_abs t.0) terms.now) }
{
    let mut positive = Vec::new(alloc);
    let mut lowered: u128 = 0;
    for given in terms {
        let (term, by) = positive_term(*given);
        lowered += by;
        if 0 < term.1 {
            positive.push(term)?;
        }
    }
    Ok((positive, lowered))
}

// The same term with no negative coefficient, and what it is lowered by then.
fn positive_term(term: (i128, Lit)) -> ((Lit, u128), u128)
    ensures value { (a : List Bool)
        → pos (term_value a result.0) -ℤ pos result.1 ≡ signed_value a term }
    ensures magnitude { result.0.1 ≡ unsigned_abs term.0 }
    ensures lowered { result.1 ≤ unsigned_abs term.0 }
{
    let magnitude = term.0.unsigned_abs();
    if term.0 < 0 {
        ((term.1.not(), magnitude), magnitude)
    } else {
        ((term.1, magnitude), 0)
    }
}

// The normal form of a sum of positive coefficients that is at least `least`.
pub(crate) fn normal_form_of_positive(
    alloc: Global,
    terms: Vec<(Lit, u128)>,
    least: i128,
) -> Result<Constraint, NoMemory>
    requires positive { All (λ t. 0 < t.1) terms.items }
    requires small { total terms.items ≤ 2 ^ 100 }
    requires low { unsigned_abs least ≤ 2 ^ 100 }
    requires room { (pos (total terms.items) +ℤ least) ≤ℤ pos (2 ^ 100) }
    ensures { IfOk result (λ c. HasExcess c (λ a. pos (value a terms.items) -ℤ least)) }
{
    let mut sorted = terms;
    sorted.sort_unstable_by_key(|term| term.0.var());
    let (merged, cancelled) = merged(alloc, sorted.as_slice())?;
    let degree = degree_without(least, cancelled);
    let constraint = Constraint::from_terms(alloc, merged.as_slice(), degree)?;
    Ok(constraint)
}

// What is left of a degree, and no less than 0.
fn degree_without(least: i128, cancelled: u128) -> u128
    requires low { unsigned_abs least ≤ 2 ^ 100 }
    requires small { cancelled ≤ 2 ^ 100 }
    ensures { pos result ≡ int_max (least -ℤ pos cancelled) (pos 0) }
{
    let left = least - cancelled as i128;
    if left < 0 { 0 } else { left as u128 }
}

// One term for each variable, and what the terms of opposite literals make together.
fn merged(alloc: Global, terms: &[(Lit, u128)]) -> Result<(Items<(Lit, u128)>, u128), NoMemory>
    requires order { IsNonDecreasingBy (λ t. t.0.var) terms.now }
    requires positive { All (λ t. 0 < t.1) terms.now }
    requires small { total terms.now ≤ 2 ^ 100 }
    ensures value { IfOk result (λ r. (a : List Bool) → value a r.0 + r.1 ≡ value a terms.now) }
    ensures total { IfOk result (λ r. total r.0 + r.1 ≤ total terms.now) }
    ensures merged { IfOk result (λ r. IsMerged r.0) }
{
    let mut merged = Items::new(alloc);
    let mut cancelled: u128 = 0;
    for term in terms {
        cancelled += push_term(&mut merged, *term)?;
    }
    Ok((merged, cancelled))
}

// Adds a term of no lower a variable, and gives what it and one of the opposite literal make
// together at each assignment.
fn push_term(merged: &mut Items<(Lit, u128)>, term: (Lit, u128)) -> Result<u128, NoMemory>
    requires merged { IsMerged merged.old }
    requires upto { TermsUpTo term.0.var merged.old }
    requires positive { 0 < term.1 }
    requires small { total merged.old + term.1 ≤ 2 ^ 100 }
    ensures value { IfOk result
        (λ cancelled. (a : List Bool) → value a merged.new + cancelled
        ≡ value a merged.old + term_value a term) }
    ensures total { IfOk result
        (λ cancelled. total merged.new + cancelled ≤ total merged.old + term.1) }
    ensures merged { IfOk result (λ _. IsMerged merged.new) }
    ensures upto { IfOk result (λ _. TermsUpTo term.0.var merged.new) }
{
    let Some(last) = merged.pop() else {
        merged.push(term)?;
        return Ok(0);
    };
    if last.0.var() < term.0.var() {
        merged.push(last)?;
        merged.push(term)?;
        return Ok(0);
    }
    let (joined, cancelled) = add_terms(last, term);
    if let Some(left) = joined {
        merged.push(left)?;
    }
    Ok(cancelled)
}
