// Assignments to the problem's variables, with the values that defined variables have then.
ghost use Rattle.std.specs.Prelude.{◌≡◌, length, IfOk};

use pb_lin::{Constraint, PbProblem};
use proof_rules::ProofState;
use scut_base::{Assignment, Lit, NoMemory};
use std::alloc::Global;

// The assignment that makes these literals true, and each variable above the problem's as true as the line asks that defines
// it: a definition's lines are the first that name its variable, which is their last, and speak of those before it. Costs a
// pass over the live lines, and the terms of definitions.
pub(crate) fn extended(
    alloc: Global,
    state: &ProofState,
    problem: &PbProblem,
    lits: &[Lit],
) -> Result<Assignment, NoMemory>
    ensures { IfOk result (λ a. length a ≡ state.now.vars) }
{
    let mut a = assigned(alloc, state.vars(), lits)?;
    let mut defined = problem.vars();
    for id in problem.rows().len() as u64..state.next_id() {
        if let Some(line) = state.live().get(id) {
            defined = define_last(&mut a, line, defined);
        }
    }
    Ok(a)
}

// The assignment of so many variables that makes these literals true, and all others false.
fn assigned(alloc: Global, vars: u64, lits: &[Lit]) -> Result<Assignment, NoMemory>
    ensures { IfOk result (λ a. length a ≡ vars) }
{
    let mut a = Assignment::new(alloc, vars)?;
    for lit in lits {
        if lit.var() <= vars {
            a.set(*lit);
        }
    }
    Ok(a)
}

// Gives the line's last variable its value where it is above those that have one: its literal is true exactly where the line
// needs it. Answers up to which variable all have one.
fn define_last(a: &mut Assignment, line: &Constraint, defined: u64) -> u64
    ensures { length a.new ≡ length a.old }
{
    let Some(lit) = line.literals().last() else {
        return defined;
    };
    let var = lit.var();
    if var <= defined || a.len() < var {
        return defined;
    }
    if holds_without_last(a, line) {
        a.set(lit.not());
    } else {
        a.set(*lit);
    }
    var
}

// Whether the line holds where its last literal is false.
fn holds_without_last(a: &Assignment, line: &Constraint) -> bool {
    let mut sum = 0u128;
    for at in 0..line.len().saturating_sub(1) {
        let (lit, coefficient) = line.term(at);
        if lit.var() <= a.len() && a.value(lit) {
            sum = sum.saturating_add(coefficient);
        }
    }
    line.degree() <= sum
}
