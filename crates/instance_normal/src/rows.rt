// The rows of an instance's clauses and linear rows.
ghost use Rattle.std.specs.Prelude.{◌≡◌, ◌<◌, ◌^◌, ◌++◌, ℕ, List, map, neg_ℤ, All, IfOk, OnOk};
ghost use Rattle.std.specs.List.{AllZip, flat_map};
ghost use Rattle.instance.specs.Shape.{ClauseUpTo, TermsUpTo, IsRowWithin, row_magnitude};
ghost use Rattle.pb_lin.specs.NormalForm.{magnitude};
ghost use Rattle.instance_normal.specs.NormalForm.{RowSource, Clause, Sum, IsRowOf, at_least, at_most, linear_sources};
ghost use Rattle.instance_normal.specs.Fitting.{Fits};

use crate::clause::clause_row;
use instance::{Clauses, Linear, Rel};
use pb_lin::{Constraint, LinFault};
use scut_base::{Items, Lit, NoMemory};
use std::alloc::Global;

// Adds the rows of clauses.
pub(crate) fn add_clauses(
    alloc: Global,
    clauses: &Clauses,
    rows: &mut Items<Constraint>,
) -> Result<(), NoMemory>
    ensures rows { OnOk result ((ss : List RowSource)
        → AllZip IsRowOf ss rows.old → AllZip IsRowOf (ss ++ map Clause clauses.now) rows.new) }
    ensures fits { OnOk result ((n : ℕ)
        → All (ClauseUpTo n) clauses.now → All (Fits n) rows.old → All (Fits n) rows.new) }
{
    for at in 0..clauses.len() {
        let row = clause_row(alloc, clauses.clause(at))?;
        rows.push(row)?;
    }
    Ok(())
}

// Adds the rows of linear rows: an equation gives the one for at least, and then the one for at most.
pub(crate) fn add_linear(
    alloc: Global,
    linear: &[Linear],
    rows: &mut Items<Constraint>,
) -> Result<(), NoMemory>
    requires { All (λ row. row_magnitude row < 2 ^ 63) linear.now }
    ensures rows { OnOk result ((ss : List RowSource) → AllZip IsRowOf ss rows.old
        → AllZip IsRowOf (ss ++ flat_map linear_sources linear.now) rows.new) }
    ensures fits { OnOk result ((n : ℕ)
        → All (IsRowWithin n) linear.now → All (Fits n) rows.old → All (Fits n) rows.new) }
{
    for row in linear {
        add_row(alloc, row, rows)?;
    }
    Ok(())
}

// Adds the rows of one.
fn add_row(alloc: Global, row: &Linear, rows: &mut Items<Constraint>) -> Result<(), NoMemory>
    requires { row_magnitude row.now < 2 ^ 63 }
    ensures rows { OnOk result ((ss : List RowSource)
        → AllZip IsRowOf ss rows.old → AllZip IsRowOf (ss ++ linear_sources row.now) rows.new) }
    ensures fits { OnOk result ((n : ℕ)
        → TermsUpTo n row.now.terms → All (Fits n) rows.old → All (Fits n) rows.new) }
{
    match row.rel {
        Rel::AtLeast => rows.push(least_row(alloc, row)?),
        Rel::AtMost => rows.push(most_row(alloc, row)?),
        Rel::Equal => {
            let least = least_row(alloc, row)?;
            let most = most_row(alloc, row)?;
            rows.push(least)?;
            rows.push(most)
        }
    }
}

// That a row's sum is at least its bound.
fn least_row(alloc: Global, row: &Linear) -> Result<Constraint, NoMemory>
    requires { row_magnitude row.now < 2 ^ 63 }
    ensures row { IfOk result (IsRowOf (at_least row.now)) }
    ensures fits { IfOk result (λ c. (n : ℕ) → TermsUpTo n row.now.terms → Fits n c) }
{
    let terms = widened(alloc, row.terms.as_slice())?;
    sum_row(alloc, terms.as_slice(), i128::from(row.bound))
}

// That a row's sum is at most its bound, with both sides negated.
fn most_row(alloc: Global, row: &Linear) -> Result<Constraint, NoMemory>
    requires { row_magnitude row.now < 2 ^ 63 }
    ensures row { IfOk result (IsRowOf (at_most row.now)) }
    ensures fits { IfOk result (λ c. (n : ℕ) → TermsUpTo n row.now.terms → Fits n c) }
{
    let terms = negated(alloc, row.terms.as_slice())?;
    sum_row(alloc, terms.as_slice(), -i128::from(row.bound))
}

// The terms with wide coefficients.
fn widened(alloc: Global, terms: &[(i64, Lit)]) -> Result<Vec<(i128, Lit)>, NoMemory>
    ensures value { IfOk result (λ v. v.items ≡ terms.now) }
    ensures from_one { IfOk result (λ v. All (λ t. 0 < t.1.var) v.items) }
{
    let mut wide = Vec::with_capacity(alloc, terms.len())?;
    for term in terms {
        let _from_one = term.1.var();
        wide.push((i128::from(term.0), term.1))?;
    }
    Ok(wide)
}

// The terms with wide coefficients of the other sign.
fn negated(alloc: Global, terms: &[(i64, Lit)]) -> Result<Vec<(i128, Lit)>, NoMemory>
    ensures value { IfOk result (λ v. v.items ≡ map (λ t. (neg_ℤ t.0, t.1)) terms.now) }
    ensures from_one { IfOk result (λ v. All (λ t. 0 < t.1.var) v.items) }
{
    let mut wide = Vec::with_capacity(alloc, terms.len())?;
    for term in terms {
        wide.push(negated_term(term))?;
    }
    Ok(wide)
}

// The term with the coefficient of the other sign.
fn negated_term(term: &(i64, Lit)) -> (i128, Lit)
    ensures value { result ≡ (neg_ℤ term.now.0, term.now.1) }
    ensures from_one { 0 < result.1.var }
{
    let _from_one = term.1.var();
    (-i128::from(term.0), term.1)
}

// The normal form of a sum that is at least a bound. So small a sum never overflows.
fn sum_row(alloc: Global, terms: &[(i128, Lit)], bound: i128) -> Result<Constraint, NoMemory>
    requires small { magnitude terms.now bound < 2 ^ 63 }
    requires from_one { All (λ t. 0 < t.1.var) terms.now }
    ensures row { IfOk result (IsRowOf (Sum terms.now bound)) }
    ensures fits { IfOk result (λ c. (n : ℕ) → TermsUpTo n terms.now → Fits n c) }
{
    match Constraint::normal(alloc, terms, bound) {
        Ok(row) => {
            let _normal = row.degree();
            Ok(row)
        }
        Err(LinFault::NoMemory) => Err(NoMemory),
        Err(LinFault::Overflow) => unreachable!(),
    }
}
