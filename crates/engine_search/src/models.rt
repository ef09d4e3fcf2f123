// Models that somebody proposes.
ghost use Rattle.std.specs.Prelude.{◌≡◌, ℕ, true, length, All, Some, IfOk, IfSome, IsTrue};
ghost use Rattle.std.specs.FinMap.{get};
ghost use Rattle.scut_base.specs.Assignment.{lit_true};
ghost use Rattle.pb_lin.specs.Constraint.{ConstraintValue, Holds, UpTo};
ghost use Rattle.pb_lin.specs.Problem.{IsProblem};
ghost use Rattle.proof_laws.specs.State.{Fits};
ghost use Rattle.proof_laws.specs.Refusal.{is_clause};
ghost use Rattle.oracle.specs.Solving.{IsSolution, Reaches};
ghost use Rattle.pb_lin.specs.LineMap.{LinesUpTo};

use clause_engine::Engine;
use pb_lin::{Constraint, Lines, PbProblem};
use proof_rules::{ProofState, Recorder};
use scut_base::{Assignment, Lit, NoMemory};
use std::alloc::Global;

/// The assignment, if it makes the problem's rows, every live clause and the literals true, as an oracle's answer does. Costs a
/// pass over rows and live lines.
pub fn solution_by<R: Recorder>(
    rec: &R,
    problem: &PbProblem,
    lits: &[Lit],
    proposed: Assignment,
) -> Option<Assignment>
    requires { (R.seen rec.now).problem ≡ problem.now }
    ensures { IfSome result (λ x.
        Reaches problem.now (R.seen rec.now).lines (IsSolution problem.now lits.now x)) }
{
    // Tells that the problem is within its limits.
    let _vars = problem.vars();
    if is_solution(problem, rec.state(), lits, &proposed) {
        return Some(proposed);
    }
    None
}

// Whether the assignment makes the problem's rows, every live clause and these literals true.
fn is_solution(problem: &PbProblem, state: &ProofState, lits: &[Lit], a: &Assignment) -> bool
    requires { Fits problem.now state.now }
    ensures { IsTrue result → IsSolution problem.now lits.now a.now state.now }
{
    if a.len() != state.vars() {
        return false;
    }
    rows_hold(problem.rows(), a) && clauses_hold(state.live(), a) && literals_hold(lits, a)
}

// What the engine says of so many variables.
pub(crate) fn proposed(alloc: Global, engine: &Engine, vars: u64) -> Result<Assignment, NoMemory>
    ensures { IfOk result (λ a. length a ≡ vars) }
{
    let mut a = Assignment::new(alloc, vars)?;
    for var in 1..vars.saturating_add(1) {
        if var < 1 << 63 && engine.value(var) {
            a.set(Lit::new(var, false));
        }
    }
    Ok(a)
}

// Whether all rows hold.
fn rows_hold(rows: &[Constraint], a: &Assignment) -> bool
    requires { All (UpTo (length a.now)) rows.now }
    ensures { IsTrue result → All (Holds a.now) rows.now }
{
    rows.iter().all(|row| row.holds(a))
}

// Whether all literals are true.
fn literals_hold(lits: &[Lit], a: &Assignment) -> bool
    ensures { IsTrue result → All (λ l. lit_true a.now l ≡ true) lits.now }
{
    lits.iter().all(|lit| lit.var() <= a.len() && a.value(*lit))
}

// Whether all live clauses hold.
fn clauses_hold(lines: &Lines, a: &Assignment) -> bool
    requires { LinesUpTo (length a.now) lines.now }
    ensures { IsTrue result → (id : ℕ) (c : ConstraintValue) → get lines.now id ≡ Some c
        → is_clause c ≡ true → Holds a.now c }
{
    // The id 0 too may have a line; `next_above` gives the others.
    let mut id = 0;
    loop {
        if !clause_holds(lines, id, a) {
            return false;
        }
        match lines.next_above(id) {
            Some(next) => id = next,
            None => return true,
        }
    }
}

// Whether the line of an id holds, if there is one and it is a clause.
fn clause_holds(lines: &Lines, id: u64, a: &Assignment) -> bool
    requires { LinesUpTo (length a.now) lines.now }
    ensures { IsTrue result → (c : ConstraintValue) → get lines.now id ≡ Some c
        → is_clause c ≡ true → Holds a.now c }
{
    match lines.get(id) {
        Some(line) => !line.is_clause() || line.holds(a),
        None => true,
    }
}
