// Models that a relaxation proposes.
ghost use Rattle.std.specs.Prelude.{◌≡◌, ◌↔◌, length, All, IfOk, IfSome, IsTrue, MatchOption};
ghost use Rattle.pb_lin.specs.Constraint.{Holds, UpTo};
ghost use Rattle.pb_lin.specs.Problem.{IsProblemModel};
ghost use Rattle.linear_search.specs.Models.{assigned};

use pb_lin::{Constraint, PbProblem};
use scut_base::{Assignment, Lit, NoMemory};
use std::alloc::Global;

/// The assignment that makes these literals of the problem's variables true, and all other variables false, where it is a
/// model of the problem; `None` where it isn't. Costs a walk over the rows.
pub fn model_of(
    alloc: Global,
    problem: &PbProblem,
    lits: &[Lit],
) -> Result<Option<Assignment>, NoMemory>
    ensures model { IfOk result (λ found. IfSome found (IsProblemModel problem.now)) }
    ensures assigned { IfOk result (λ found. MatchOption found
        (IsProblemModel problem.now (assigned problem.now.vars lits.now) → ⊥)
        (λ model. model ≡ assigned problem.now.vars lits.now)) }
{
    let a = assigned(alloc, problem.vars(), lits)?;
    if all_hold(problem.rows(), &a) {
        return Ok(Some(a));
    }
    Ok(None)
}

// The assignment of so many variables.
fn assigned(alloc: Global, vars: u64, lits: &[Lit]) -> Result<Assignment, NoMemory>
    ensures long { IfOk result (λ a. length a ≡ vars) }
    ensures assigned { IfOk result (λ a. a ≡ assigned vars lits.now) }
{
    let mut a = Assignment::new(alloc, vars)?;
    for lit in lits {
        if lit.var() <= vars {
            a.set(*lit);
        }
    }
    Ok(a)
}

// Whether all rows hold.
fn all_hold(rows: &[Constraint], a: &Assignment) -> bool
    requires { All (UpTo (length a.now)) rows.now }
    ensures { IsTrue result ↔ All (Holds a.now) rows.now }
{
    rows.iter().all(|row| row.holds(a))
}
