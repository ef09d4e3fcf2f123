// What stored lines come to by propagation, where nothing is decided.
ghost use Rattle.std.specs.Prelude.{◌≡◌, ◌<◌, ◌≤◌, ◌^◌, ℕ, [], None, Some, IfOk, IfSome, IfNone};
ghost use Rattle.std.specs.FinMap.{get, insert};
ghost use Rattle.pb_lin.specs.Constraint.{UpTo, negation, size};
ghost use Rattle.clause_prop.specs.Propagating.{Extends, IsClosedFor};
ghost use Rattle.cdcl_trail.specs.Learning.{AreHints};
ghost use Rattle.command_elaborate.specs.Kept.{HasClosed, IsFlat};

use crate::hint_laws::{flat_trail_is_undecided, flat_trail_stays};
use cdcl_state::Search;
use clause_prop::Propagator;
use hint_rup::Hint;
use pb_lin::{Constraint, LinFault};
use scut_base::{Items, NoMemory};
use std::alloc::Global;

/// What proves from the stored lines that nothing satisfies them, or `None` where nothing is left to
/// force. Costs what is forced, and the walk back from a conflict.
pub(crate) fn refutation<P: Propagator + Drop>(
    search: &mut Search<P>,
) -> Result<Option<Items<Hint>>, NoMemory>
    requires flat { IsFlat search.old.trail }
    ensures hints { IfOk result (λ found. IfSome found
        (AreHints search.new.store search.new.trail.vars [])) }
    ensures closed { IfOk result (λ found. IfNone found
        (IsClosedFor search.new.store search.new.trail)) }
    ensures store { search.new.store ≡ search.old.store }
    ensures extends { Extends search.old.store search.old.trail search.new.trail }
    ensures flat { IsFlat search.new.trail }
{
    flat_trail_stays();
    flat_trail_is_undecided();
    let found = search.propagate()?;
    // Tells that the trail is one of a search.
    let _level = search.level();
    match found {
        Some(conflict) => {
            let hints = search.refute(conflict)?;
            Ok(Some(hints))
        }
        None => Ok(None),
    }
}

/// The same with the negation of a goal besides, for which this id is free. Afterwards the lines are as they were, and
/// on the trail are the steps before the first one that the negation forced.
pub(crate) fn refutation_with<P: Propagator + Drop>(
    alloc: Global,
    search: &mut Search<P>,
    id: u64,
    goal: &Constraint,
) -> Result<Option<Items<Hint>>, NoMemory>
    requires flat { IsFlat search.old.trail }
    requires positive { 0 < id }
    requires fresh { get search.old.store id ≡ None }
    requires within { UpTo search.old.trail.vars goal.now }
    requires small { size (negation goal.now) ≤ 2 ^ 100 }
    ensures hints { IfOk result (λ found. IfSome found
        (AreHints (insert search.old.store id (negation goal.now)) search.old.trail.vars [])) }
    ensures closed { IfOk result (λ found. IfNone found
        (HasClosed search.old.trail.vars (insert search.old.store id (negation goal.now)))) }
    ensures store { (i : ℕ) → get search.new.store i ≡ get search.old.store i }
    ensures vars { search.new.trail.vars ≡ search.old.trail.vars }
    ensures flat { IsFlat search.new.trail }
{
    flat_trail_stays();
    flat_trail_is_undecided();
    // Tells that the trail is one of a search.
    let _level = search.level();
    let negated = negation_of(alloc, goal)?;
    search.take(id, &negated)?;
    let found = refutation(search);
    search.forget(id);
    found
}

// The negation of a constraint whose negation isn't too large.
fn negation_of(alloc: Global, goal: &Constraint) -> Result<Constraint, NoMemory>
    requires { size (negation goal.now) ≤ 2 ^ 100 }
    ensures { IfOk result (λ c. c ≡ negation goal.now) }
{
    match goal.negated(alloc) {
        Ok(negated) => Ok(negated),
        Err(LinFault::NoMemory) => Err(NoMemory),
        Err(LinFault::Overflow) => unreachable!(),
    }
}
