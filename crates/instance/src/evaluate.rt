// Clauses, rows and objectives under an assignment.
ghost use Rattle.std.specs.Prelude.{◌≡◌, ◌<◌, ◌≤◌, ◌^◌, length, map, unsigned_abs, All, IfOk};
ghost use Rattle.std.specs.List.{list_all};
ghost use Rattle.instance.specs.Shape.{ClauseUpTo, TermsUpTo, IsRowWithin, IsObjectiveWithin, terms_magnitude, weights_sum};
ghost use Rattle.instance.specs.Meaning.{clause_true, term_value, terms_value, row_holds, int_sum_by, soft_cost, objective_cost};

use crate::{Clauses, Linear, Objective, Rel, Soft};
use scut_base::{Assignment, Lit, NoMemory};
use std::alloc::Global;

// Whether each of these clauses has a true literal.
pub(crate) fn all_clauses_true(clauses: &Clauses, a: &Assignment) -> bool
    requires { All (ClauseUpTo (length a.now)) clauses.now }
    ensures { result ≡ list_all (clause_true a.now) clauses.now }
{
    for at in 0..clauses.len() {
        if !clause_true(clauses.clause(at), a) {
            return false;
        }
    }
    true
}

// Whether each of these rows holds.
pub(crate) fn all_rows_hold(rows: &[Linear], a: &Assignment) -> bool
    requires { All (IsRowWithin (length a.now)) rows.now }
    ensures { result ≡ list_all (row_holds a.now) rows.now }
{
    for row in rows {
        if !row_holds(row, a) {
            return false;
        }
    }
    true
}

// The cost of the assignment in each of these objectives.
pub(crate) fn objective_costs(
    alloc: Global,
    objectives: &[Objective],
    a: &Assignment,
) -> Result<Vec<i64>, NoMemory>
    requires { All (IsObjectiveWithin (length a.now)) objectives.now }
    ensures costs { IfOk result (λ costs. costs.items ≡ map (objective_cost a.now) objectives.now) }
    ensures small { IfOk result (λ costs. All (λ x. unsigned_abs x < 2 ^ 63) costs.items) }
{
    let mut costs = Vec::with_capacity(alloc, objectives.len())?;
    for objective in objectives {
        costs.push(objective_cost(objective, a))?;
    }
    Ok(costs)
}

// Whether a literal of the clause is true.
fn clause_true(clause: &[Lit], a: &Assignment) -> bool
    requires { ClauseUpTo (length a.now) clause.now }
    ensures { result ≡ clause_true a.now clause.now }
{
    for lit in clause {
        if a.value(*lit) {
            return true;
        }
    }
    false
}

// Whether the row's sum stands to its bound as it should.
fn row_holds(row: &Linear, a: &Assignment) -> bool
    requires { IsRowWithin (length a.now) row.now }
    ensures { result ≡ row_holds a.now row.now }
{
    let value = terms_value(row.terms.as_slice(), a);
    match row.rel {
        Rel::AtLeast => value >= row.bound,
        Rel::AtMost => value <= row.bound,
        Rel::Equal => value == row.bound,
    }
}

// The sum of the coefficients of the true literals.
fn terms_value(terms: &[(i64, Lit)], a: &Assignment) -> i64
    requires variables { TermsUpTo (length a.now) terms.now }
    requires magnitude { terms_magnitude terms.now < 2 ^ 63 }
    ensures value { result ≡ terms_value a.now terms.now }
    ensures bound { unsigned_abs result ≤ terms_magnitude terms.now }
{
    let mut sum = 0;
    for term in terms {
        sum += term_value(term, a);
    }
    sum
}

// The sum of the weights of the false soft clauses.
fn softs_cost(softs: &[Soft], a: &Assignment) -> i64
    requires variables { All (λ s. ClauseUpTo (length a.now) s.lits) softs.now }
    requires magnitude { weights_sum softs.now < 2 ^ 63 }
    ensures value { result ≡ int_sum_by (soft_cost a.now) softs.now }
    ensures bound { unsigned_abs result ≤ weights_sum softs.now }
{
    let mut sum = 0;
    for soft in softs {
        sum += soft_cost(soft, a);
    }
    sum
}

// The coefficient where the literal is true, and else 0.
fn term_value(term: &(i64, Lit), a: &Assignment) -> i64
    requires { term.now.1.var ≤ length a.now }
    ensures value { result ≡ term_value a.now term.now }
    ensures bound { unsigned_abs result ≤ unsigned_abs term.now.0 }
{
    if a.value(term.1) { term.0 } else { 0 }
}

// The weight where the clause is false, and else 0.
fn soft_cost(soft: &Soft, a: &Assignment) -> i64
    requires variables { ClauseUpTo (length a.now) soft.now.lits }
    requires magnitude { soft.now.weight < 2 ^ 63 }
    ensures value { result ≡ soft_cost a.now soft.now }
    ensures bound { unsigned_abs result ≤ soft.now.weight }
{
    if clause_true(soft.lits.as_slice(), a) {
        0
    } else {
        soft.weight as i64
    }
}

// The cost of the assignment in one objective.
fn objective_cost(objective: &Objective, a: &Assignment) -> i64
    requires { IsObjectiveWithin (length a.now) objective.now }
    ensures cost { result ≡ objective_cost a.now objective.now }
    ensures small { unsigned_abs result < 2 ^ 63 }
{
    let softs = softs_cost(objective.softs.as_slice(), a);
    let terms = terms_value(objective.terms.as_slice(), a);
    softs + terms + objective.offset
}
