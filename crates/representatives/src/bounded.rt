// The bounded problem of a vector and of models that are listed (DECISIONS, bounded-problem).
ghost use Rattle.std.specs.Prelude.{◌≡◌, ◌<◌, ◌≤◌, ◌^◌, ◌++◌, List, length, map, pos, neg_ℤ, unsigned_abs, All, IfOk, OnOk};
ghost use Rattle.instance.specs.ParetoFront.{IsProblemVector, problem_vector};
ghost use Rattle.instance_normal.specs.NormalForm.{IsNormalFormOf};
ghost use Rattle.pb_lin.specs.Constraint.{ConstraintValue, IsNormal};
ghost use Rattle.pb_lin.specs.NormalForm.{IsNormalForm, magnitude};
ghost use Rattle.representatives.specs.Bounded.{AreCostBounds, IsBounded, IsCostBound, blocking, false_literals};

use front_set::CostVec;
use instance::Instance;
use pb_lin::{Constraint, CostRow, LinFault, PbProblem};
use scut_base::{Assignment, Duplicate, Items, Lit, NoMemory};
use std::alloc::Global;

/// The problem of the instance's normal form without its costs, bounded: each cost is at most its number in the vector, and none of
/// the listed models is one of it. Copies the rows; costs one pass over these, the costs and the listed models.
pub fn bounded_problem(
    alloc: Global,
    inst: &Instance,
    problem: &PbProblem,
    vec: &CostVec,
    list: &[Assignment],
) -> Result<PbProblem, NoMemory>
    requires normal { IsNormalFormOf inst.now problem.now }
    requires vector { IsProblemVector inst.now vec.now }
    requires few { length list.now ≤ 2 ^ 20 }
    requires long { All (λ a. length a ≡ inst.now.vars) list.now }
    ensures { IfOk result (IsBounded problem.now (problem_vector inst.now vec.now) list.now) }
{
    // Tells that the instance is within its limits.
    let _limits = inst.vars();
    let numbers = inst.problem_vector(alloc, vec)?;
    let rows = bounded_rows(alloc, problem, numbers.as_slice(), list)?;
    Ok(PbProblem::from_parts(problem.vars(), rows, Items::new(alloc)))
}

// The rows of the problem, then a bound for each cost row, and then a clause for each listed model.
fn bounded_rows(
    alloc: Global,
    problem: &PbProblem,
    numbers: &[i64],
    list: &[Assignment],
) -> Result<Items<Constraint>, NoMemory>
    requires numbers { length numbers.now ≡ length problem.now.costs }
    requires small { All (λ x. unsigned_abs x < 2 ^ 63) numbers.now }
    ensures { IfOk result (λ rows. (bounds : List ConstraintValue)
        × AreCostBounds problem.now.costs numbers.now bounds
        × (rows ≡ problem.now.rows ++ (bounds ++ map blocking list.now))) }
{
    let mut rows = copied_rows(alloc, problem.rows())?;
    add_bounds(alloc, problem.costs(), numbers, &mut rows)?;
    add_blocking(alloc, list, &mut rows)?;
    Ok(rows)
}

// A copy of these rows.
fn copied_rows(alloc: Global, rows: &[Constraint]) -> Result<Items<Constraint>, NoMemory>
    ensures { IfOk result (λ copies. copies ≡ rows.now) }
{
    let mut copies = Items::with_capacity(alloc, rows.len())?;
    for row in rows {
        copies.push(row.copy(alloc)?)?;
    }
    Ok(copies)
}

// Adds the bound of each cost row.
fn add_bounds(
    alloc: Global,
    costs: &[CostRow],
    numbers: &[i64],
    rows: &mut Items<Constraint>,
) -> Result<(), NoMemory>
    requires numbers { length numbers.now ≡ length costs.now }
    requires small { All (λ x. unsigned_abs x < 2 ^ 63) numbers.now }
    ensures { OnOk result ((bounds : List ConstraintValue)
        × AreCostBounds costs.now numbers.now bounds × (rows.new ≡ rows.old ++ bounds)) }
{
    for i in 0..costs.len() {
        rows.push(cost_bound(alloc, &costs[i], numbers[i])?)?;
    }
    Ok(())
}

// That a row's cost is at most a number.
fn cost_bound(alloc: Global, row: &CostRow, most: i64) -> Result<Constraint, NoMemory>
    requires { unsigned_abs most < 2 ^ 63 }
    ensures { IfOk result (IsCostBound row.now most) }
{
    let terms = negated(alloc, row.terms())?;
    let least = i128::from(row.offset()) - i128::from(most);
    normal_form(alloc, terms.as_slice(), least)
}

// The normal form of a sum that is at least a number. So small a sum never overflows.
fn normal_form(alloc: Global, terms: &[(i128, Lit)], least: i128) -> Result<Constraint, NoMemory>
    requires { magnitude terms.now least ≤ 2 ^ 99 }
    ensures normal { IfOk result (λ c. IsNormal c.terms c.degree) }
    ensures form { IfOk result (λ c. IsNormalForm c terms.now least) }
{
    match Constraint::normal(alloc, terms, least) {
        Ok(constraint) => {
            let _normal = constraint.degree();
            Ok(constraint)
        }
        Err(LinFault::NoMemory) => Err(NoMemory),
        Err(LinFault::Overflow) => unreachable!(),
    }
}

// The terms with wide coefficients of the other sign.
fn negated(alloc: Global, terms: &[(Lit, u64)]) -> Result<Vec<(i128, Lit)>, NoMemory>
    ensures { IfOk result (λ v. v.items ≡ map (λ t. (neg_ℤ (pos t.1), t.0)) terms.now) }
{
    let mut wide = Vec::with_capacity(alloc, terms.len())?;
    for term in terms {
        wide.push(negated_term(term))?;
    }
    Ok(wide)
}

// The term with a wide coefficient of the other sign.
fn negated_term(term: &(Lit, u64)) -> (i128, Lit)
    ensures { result ≡ (neg_ℤ (pos term.now.1), term.now.0) }
{
    (-i128::from(term.1), term.0)
}

// Adds, for each listed model, the clause that it alone makes false.
fn add_blocking(
    alloc: Global,
    list: &[Assignment],
    rows: &mut Items<Constraint>,
) -> Result<(), NoMemory>
    ensures { OnOk result (rows.new ≡ rows.old ++ map blocking list.now) }
{
    for model in list {
        rows.push(blocking(alloc, model)?)?;
    }
    Ok(())
}

// The clause that this model alone makes false, among those of its length.
fn blocking(alloc: Global, model: &Assignment) -> Result<Constraint, NoMemory>
    ensures { IfOk result (λ c. c ≡ blocking model.now) }
{
    Ok(Constraint::clause(false_literals(alloc, model.as_slice())?))
}

// The literals that these values make false, that of variable 1 first.
fn false_literals(alloc: Global, values: &[bool]) -> Result<Items<Lit>, NoMemory>
    ensures { IfOk result (λ lits. lits ≡ false_literals 1 values.now) }
{
    let mut lits = Items::with_capacity(alloc, values.len())?;
    let mut var = 0;
    for value in values {
        var += 1;
        lits.push(Lit::new(var, *value))?;
    }
    Ok(lits)
}
