// The decision of a literal, and the assignment that the steps of a trail give.
ghost use Rattle.std.specs.Prelude.{◌≡◌, ◌<◌, ◌≤◌, ◌^◌, None, length, All, IfOk};
ghost use Rattle.scut_base.specs.Assignment.{partial_truth};
ghost use Rattle.pb_lin.specs.Constraint.{UpTo, literals};
ghost use Rattle.clause_prop.specs.Steps.{last_level, partial, with_step};
ghost use Rattle.cdcl_trail.specs.SearchTrail.{IsOfSteps, decision};
ghost use Rattle.cdcl_state.specs.Searching.{IsNotForcedBefore};

use clause_prop::{Step, StoredLine, Trail};
use scut_base::{Assignment, Lit, NoMemory};
use std::alloc::Global;

/// An assignment that makes the steps' literals true. Costs the variables.
pub(crate) fn assignment_of(alloc: Global, trail: &Trail) -> Result<Assignment, NoMemory>
    ensures length { IfOk result (λ a. length a ≡ trail.now.vars) }
    ensures steps { IfOk result (IsOfSteps trail.now) }
{
    let mut a = Assignment::new(alloc, trail.vars())?;
    for place in 0..trail.len() {
        a.set(trail.step_at(place).lit);
    }
    Ok(a)
}

/// Puts the decision of an open literal at the end. Takes no memory.
pub(crate) fn push_decision(trail: &mut Trail, lit: Lit)
    requires within { lit.var ≤ trail.old.vars }
    requires unassigned { partial_truth (partial trail.old) lit ≡ None }
    requires small { last_level trail.old.steps < 2 ^ 63 }
    ensures { trail.new ≡ with_step trail.old (decision trail.old lit) }
{
    let level = trail.level() + 1;
    trail.push(Step {
        lit,
        level,
        reason: 0,
    });
}

/// The place of the first step that the line of this id forced, or the number of steps where it forced none. Costs
/// the line's literals.
pub(crate) fn first_forced(trail: &Trail, line: &StoredLine, id: u64) -> u64
    requires { UpTo trail.now.vars line.now }
    ensures within { result ≤ length trail.now.steps }
    ensures others { All (IsNotForcedBefore trail.now result id) (literals line.now.terms) }
{
    let mut first = trail.len();
    for lit in line.literals() {
        first = earlier(trail, first, *lit, id);
    }
    first
}

// The place of the literal's step, where it is before this one and the line of this id forced it; else this one.
fn earlier(trail: &Trail, place: u64, lit: Lit, id: u64) -> u64
    requires { lit.var ≤ trail.now.vars }
    ensures falls { result ≤ place }
    ensures other { IsNotForcedBefore trail.now result id lit }
{
    // Tells that no two steps are of one variable.
    let _steps = trail.len();
    let Some(at) = trail.place_of(lit) else {
        return place;
    };
    if at >= place || trail.step_at(at).reason != id {
        return place;
    }
    at
}
