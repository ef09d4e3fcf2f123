// Sums of constraints.
ghost use Rattle.std.specs.Prelude.{◌≡◌, ℕ, ◌+◌, ◌<◌, ◌≤◌, length, slice_index_or, ◌^◌, ◌++◌, Bool, List, None, IfOk, OnOk, IfErr, drop, option_to_list};
ghost use Rattle.scut_base.specs.Fault.{IsFaultOr};
ghost use Rattle.scut_base.specs.Literal.{Literal};
ghost use Rattle.pb_lin.specs.Constraint.{ConstraintValue, Holds, size};
ghost use Rattle.cutting_planes.specs.Rules.{IsSum};
ghost use Rattle.cutting_planes.specs.Applied.{IsPushedBelow};
ghost use Rattle.cutting_planes.specs.Stack.{size_fault};

use crate::PolFault;
use crate::wide::WideConstraint;
use pb_lin::{SIZE_LIMIT, add_terms};
use scut_base::{Items, Lit, NoMemory};
use std::alloc::Global;

// The sum of two constraints, where complementary literals cancel. Its size is judged before, so that
// the answer doesn't depend on what cancels.
pub(crate) fn sum(
    alloc: Global,
    p: &WideConstraint,
    q: &WideConstraint,
) -> Result<WideConstraint, PolFault>
    ensures value { IfOk result (λ r. IsSum r p.now q.now) }
    ensures faultless { OnOk result (size_fault (size p.now + size q.now) ≡ None) }
    ensures fault { IfErr result
        (IsFaultOr PolFault.NoMemory (size_fault (size p.now + size q.now))) }
{
    if p.size() + q.size() > SIZE_LIMIT {
        return Err(PolFault::Overflow);
    }
    Ok(small_sum(alloc, p, q)?)
}

/// Law: where two constraints hold, their sum does.
pub fn sums_keep_truth()
    ensures { (r p q : ConstraintValue) → IsSum r p q
        → (a : List Bool) → Holds a p → Holds a q → Holds a r }
{}

// One pass over both, in which terms of one side that follow one another are copied together. What is
// merged so far lies below what is left of either.
fn small_sum(
    alloc: Global,
    p: &WideConstraint,
    q: &WideConstraint,
) -> Result<WideConstraint, NoMemory>
    requires { size p.now + size q.now ≤ 2 ^ 100 }
    ensures { IfOk result (λ r. IsSum r p.now q.now) }
{
    let (mut i, mut j, mut cancelled) = (0, 0, 0);
    let mut merged = Items::with_capacity(alloc, p.len().saturating_add(q.len()))?;
    while i < p.len() && j < q.len() {
        let (s, t) = (p.term(i), q.term(j));
        if s.0.var() < t.0.var() {
            i = push_below(&mut merged, p.terms(), i, t.0.var())?;
        } else if t.0.var() < s.0.var() {
            j = push_below(&mut merged, q.terms(), j, s.0.var())?;
        } else {
            let joined = add_terms(s, t);
            cancelled += joined.1;
            push_some(&mut merged, joined.0)?;
            i += 1;
            j += 1;
        }
    }
    push_rest(&mut merged, p, i)?;
    push_rest(&mut merged, q, j)?;
    let degree = (p.degree() + q.degree()).saturating_sub(cancelled);
    Ok(WideConstraint::from_parts(merged, degree))
}

// Puts a term at the end, where there is one.
fn push_some(terms: &mut Items<(Lit, u128)>, term: Option<(Lit, u128)>) -> Result<(), NoMemory>
    ensures { OnOk result (terms.new ≡ terms.old ++ option_to_list term) }
{
    if let Some(term) = term {
        terms.push(term)?;
    }
    Ok(())
}

// Puts the terms from a place on whose variables are below another at the end, together, and gives the
// place after them. The first is known to be.
fn push_below(
    merged: &mut Items<(Lit, u128)>,
    terms: &[(Lit, u128)],
    from: usize,
    var: u64,
) -> Result<usize, NoMemory>
    requires within { from < length terms.now }
    requires first { (d : Literal × ℕ) → (slice_index_or terms.now from d).0.var < var }
    ensures { IfOk result (IsPushedBelow merged.old merged.new terms.now from var) }
{
    let end = end_below(terms, from, var);
    merged.extend_from_slice(&terms[from..end])?;
    Ok(end)
}

// The place after the terms from a place on whose variables are below another.
fn end_below(terms: &[(Lit, u128)], from: usize, var: u64) -> usize
    requires within { from < length terms.now }
    requires first { (d : Literal × ℕ) → (slice_index_or terms.now from d).0.var < var }
    ensures past { from < result }
    ensures bound { result ≤ length terms.now }
    ensures below { (k : ℕ) (d : Literal × ℕ) → from ≤ k → k < result
        → (slice_index_or terms.now k d).0.var < var }
{
    let mut end = from + 1;
    while end < terms.len() && terms[end].0.var() < var {
        end += 1;
    }
    end
}

// Puts the terms from a place on at the end.
fn push_rest(
    terms: &mut Items<(Lit, u128)>,
    c: &WideConstraint,
    from: usize,
) -> Result<(), NoMemory>
    requires { from ≤ length c.now.terms }
    ensures { OnOk result (terms.new ≡ terms.old ++ drop from c.now.terms) }
{
    let rest = &c.terms()[from..];
    terms.extend_from_slice(rest)?;
    Ok(())
}
