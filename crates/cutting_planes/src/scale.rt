// Constraints multiplied, divided and saturated, in place: one pass, and no memory.
ghost use Rattle.std.specs.Prelude.{◌≡◌, ℕ, ◌<◌, ◌≤◌, ◌*◌, ◌^◌, ◌↔◌, min, map, [], pos, int_lt, unsigned_abs, true, false, None, Some, IfOk, OnOk, IfErr, IsTrue};
ghost use Rattle.pb_lin.specs.Constraint.{ConstraintValue, Implies, size, total};
ghost use Rattle.cutting_planes.specs.Rules.{multiplied, divided, saturated, rounded_up};
ghost use Rattle.cutting_planes.specs.Stack.{factor_fault, size_fault};

use crate::PolFault;
use crate::wide::WideConstraint;
use pb_lin::SIZE_LIMIT;
use scut_base::{Items, Lit};

// The constraint with each number multiplied.
pub(crate) fn multiplied(c: WideConstraint, k: i128) -> Result<WideConstraint, PolFault>
    ensures value { IfOk result (λ r. r ≡ multiplied (unsigned_abs k) c) }
    ensures faultless { OnOk result
        (factor_fault k (size_fault (size c * unsigned_abs k)) ≡ None) }
    ensures fault { IfErr result
        (λ f. factor_fault k (size_fault (size c * unsigned_abs k)) ≡ Some f) }
{
    let factor = factor_of(k)?;
    if !is_product_small(c.size(), factor) {
        return Err(PolFault::Overflow);
    }
    let degree = c.degree * factor;
    Ok(WideConstraint::from_parts(multiplied_terms(c.terms, factor), degree))
}

/// Law: a constraint implies each multiple of it.
pub fn multiples_are_implied()
    ensures { (k : ℕ) (c : ConstraintValue) → Implies c (multiplied k c) }
{}

// The constraint with each number divided and rounded up (Chvátal 1973; as the rule of cutting planes in
// Cook, Coullard and Turán 1987).
pub(crate) fn divided(c: WideConstraint, k: i128) -> Result<WideConstraint, PolFault>
    ensures value { IfOk result (λ r. r ≡ divided (unsigned_abs k) c) }
    ensures faultless { OnOk result (factor_fault k None ≡ None) }
    ensures fault { IfErr result (λ f. factor_fault k None ≡ Some f) }
{
    let divisor = factor_of(k)?;
    let degree = rounded_up(c.degree, divisor);
    Ok(WideConstraint::from_parts(divided_terms(c.terms, divisor), degree))
}

/// Law: a constraint implies itself divided, where each number is rounded up.
pub fn quotients_are_implied()
    ensures { (k : ℕ) (c : ConstraintValue) → 0 < k → Implies c (divided k c) }
{}

// The constraint with each coefficient cut to the degree (Chai and Kuehlmann 2003).
pub(crate) fn saturated(c: WideConstraint) -> WideConstraint
    ensures { result ≡ saturated c }
{
    let degree = c.degree;
    let terms = if degree == 0 {
        no_terms(c.terms)
    } else {
        cut_terms(c.terms, degree)
    };
    WideConstraint::from_parts(terms, degree)
}

/// Law: a constraint implies itself with each coefficient cut to the degree.
pub fn saturation_is_implied()
    ensures { (c : ConstraintValue) → Implies c (saturated c) }
{}

// A factor without its sign, which is that of a number from 1 on.
fn factor_of(k: i128) -> Result<u128, PolFault>
    ensures value { IfOk result (λ factor. factor ≡ unsigned_abs k) }
    ensures from_one { IfOk result (λ factor. 0 < factor) }
    ensures small { IfOk result (λ factor. factor < 2 ^ 127) }
    ensures faultless { OnOk result (int_lt k (pos 1) ≡ false) }
    ensures below { IfErr result (λ f. int_lt k (pos 1) ≡ true) }
    ensures fault { IfErr result (λ f. f ≡ PolFault.BadFactor) }
{
    if k < 1 {
        return Err(PolFault::BadFactor);
    }
    Ok(k.unsigned_abs())
}

// Whether a constraint of this size may be multiplied by the factor.
pub(crate) fn is_product_small(size: u128, factor: u128) -> bool
    ensures { IsTrue result ↔ (size * factor ≤ 2 ^ 100) }
{
    match size.checked_mul(factor) {
        Some(product) => product <= SIZE_LIMIT,
        None => false,
    }
}

fn rounded_up(n: u128, divisor: u128) -> u128
    requires from_one { 0 < divisor }
    requires small { divisor < 2 ^ 127 }
    requires dividend { n ≤ 2 ^ 100 }
    ensures { result ≡ rounded_up n divisor }
{
    (n + (divisor - 1)) / divisor
}

fn multiplied_terms(terms: Items<(Lit, u128)>, factor: u128) -> Items<(Lit, u128)>
    requires { total terms * factor ≤ 2 ^ 100 }
    ensures { result ≡ map (λ t. (t.0, t.1 * factor)) terms }
{
    let mut terms = terms.into_vec();
    for term in terms.iter_mut() {
        term.1 *= factor;
    }
    Items::from_vec(terms)
}

fn divided_terms(terms: Items<(Lit, u128)>, divisor: u128) -> Items<(Lit, u128)>
    requires from_one { 0 < divisor }
    requires small { divisor < 2 ^ 127 }
    requires terms { total terms ≤ 2 ^ 100 }
    ensures { result ≡ map (λ t. (t.0, rounded_up t.1 divisor)) terms }
{
    let mut terms = terms.into_vec();
    for term in terms.iter_mut() {
        term.1 = rounded_up(term.1, divisor);
    }
    Items::from_vec(terms)
}

fn cut_terms(terms: Items<(Lit, u128)>, degree: u128) -> Items<(Lit, u128)>
    ensures { result ≡ map (λ t. (t.0, min t.1 degree)) terms }
{
    let mut terms = terms.into_vec();
    for term in terms.iter_mut() {
        term.1 = term.1.min(degree);
    }
    Items::from_vec(terms)
}

fn no_terms(terms: Items<(Lit, u128)>) -> Items<(Lit, u128)>
    ensures { result ≡ [] }
{
    let mut terms = terms.into_vec();
    terms.clear();
    Items::from_vec(terms)
}
