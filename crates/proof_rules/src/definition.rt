// Definitions of variables.
ghost use Rattle.std.specs.Prelude.{◌≡◌, ◌+◌, ◌*◌, ◌≤◌, ◌^◌, ◌<◌, ◌++◌, IfOk, OnOk};
ghost use Rattle.pb_lin.specs.Constraint.{IsNormal, UpTo, opposite_terms, size};
ghost use Rattle.proof_laws.specs.Steps.{term_of, reached_if, reached_only_if, missed_by};
ghost use Rattle.proof_laws.specs.Refusal.{def_fault, fault_unless, first_fault, size_fault};
ghost use Rattle.proof_laws.specs.declared.why.Why.{Why};
ghost use Rattle.proof_rules.specs.Verdict.{IsVerdict};

use crate::StepFault;
use crate::ranges::terms_above;
use crate::reached::Reached;
use pb_lin::{Constraint, SIZE_LIMIT};
use proof_laws::Why;
use scut_base::{Items, Lit, NoMemory};
use std::alloc::Global;

// The variable is the next one, the sum's are the state's, and both constraints are small enough.
pub(crate) fn judge_definition(
    reached: &Reached,
    var: u64,
    sum: &Constraint,
) -> Result<(), StepFault>
    ensures { IsVerdict (λ f. f ≡ def_fault reached.now var sum.now) result }
{
    if var != reached.vars + 1 {
        return Err(StepFault::Refused(Why::NotFresh(var)));
    }
    if let Some(above) = terms_above(sum, reached.vars) {
        return Err(StepFault::Refused(Why::VarRange(above)));
    }
    if !are_small(var, sum) {
        return Err(StepFault::Refused(Why::Overflow));
    }
    Ok(())
}

// Whether the constraints that define this variable are small enough. Neither's size depends on it.
fn are_small(var: u64, sum: &Constraint) -> bool
    ensures { fault_unless result Why.Overflow ≡ first_fault
        (size_fault (size (reached_if var sum.now)))
        (size_fault (size (reached_only_if var sum.now))) }
{
    let total = sum.total();
    total + 2 * sum.degree() <= SIZE_LIMIT && total + 2 * missed_by(sum) <= SIZE_LIMIT
}

// How far the sum of the negated literals is above what it is where the sum is its degree.
fn missed_by(sum: &Constraint) -> u128
    ensures value { result ≡ missed_by sum.now }
    ensures small { result ≤ 2 ^ 100 + 1 }
{
    (sum.total() + 1).saturating_sub(sum.degree())
}

// The variable after these implies that the sum reaches its degree.
pub(crate) fn reached_if(alloc: Global, vars: u64, sum: &Constraint) -> Result<Constraint, NoMemory>
    requires variables { UpTo vars sum.now }
    requires next { vars + 1 < 2 ^ 63 }
    requires small { size (reached_if (vars + 1) sum.now) ≤ 2 ^ 100 }
    ensures { IfOk result (λ c. c ≡ reached_if (vars + 1) sum.now) }
{
    let degree = sum.degree();
    let mut terms = sum.to_terms(alloc)?;
    push_term(&mut terms, Lit::new(vars + 1, true), degree)?;
    Constraint::from_terms(alloc, terms.as_slice(), degree)
}

// Its negation implies that the sum doesn't reach its degree.
pub(crate) fn reached_only_if(
    alloc: Global,
    vars: u64,
    sum: &Constraint,
) -> Result<Constraint, NoMemory>
    requires variables { UpTo vars sum.now }
    requires next { vars + 1 < 2 ^ 63 }
    requires small { size (reached_only_if (vars + 1) sum.now) ≤ 2 ^ 100 }
    ensures { IfOk result (λ c. c ≡ reached_only_if (vars + 1) sum.now) }
{
    let degree = missed_by(sum);
    let mut terms = opposite_terms(alloc, sum)?;
    push_term(&mut terms, Lit::new(vars + 1, false), degree)?;
    Constraint::from_terms(alloc, terms.as_slice(), degree)
}

// Puts a term at the end, where its coefficient isn't 0.
fn push_term(terms: &mut Items<(Lit, u128)>, lit: Lit, coefficient: u128) -> Result<(), NoMemory>
    ensures { OnOk result (terms.new ≡ terms.old ++ term_of lit coefficient) }
{
    if coefficient == 0 {
        return Ok(());
    }
    terms.push((lit, coefficient))
}

// The terms with each literal negated.
fn opposite_terms(alloc: Global, sum: &Constraint) -> Result<Items<(Lit, u128)>, NoMemory>
    ensures value { IfOk result (λ terms. terms ≡ opposite_terms sum.now.terms) }
    ensures normal { IsNormal sum.now.terms sum.now.degree }
{
    let mut terms = Items::with_capacity(alloc, sum.len())?;
    for at in 0..sum.len() {
        let term = sum.term(at);
        terms.push((term.0.not(), term.1))?;
    }
    Ok(terms)
}
