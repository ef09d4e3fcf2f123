// Hints for a goal, beside a state.
ghost use Rattle.std.specs.Prelude.{◌≡◌, ◌≤◌, ◌^◌, false, None, Some, IfOk, IfSome, IfNone, OnOk};
ghost use Rattle.pb_lin.specs.Constraint.{UpTo, negation, size};
ghost use Rattle.command_elaborate.specs.Loose.{FollowsLoosely};
ghost use Rattle.command_elaborate.specs.Kept.{IsKept};
ghost use Rattle.command_elaborate.specs.Reasons.{Proves};

use crate::hint_laws::{flat_trail_is_undecided, flat_trail_stays};
use crate::hints::spelled;
use crate::refuting::refutation_with;
use crate::taking::take_lines;
use cdcl_state::Search;
use clause_prop::Propagator;
use hint_rup::Hint;
use pb_lin::Constraint;
use proof_rules::ProofState;
use scut_base::{Items, NoMemory};
use std::alloc::Global;

/// Hints that prove a goal from the live lines, or `None` where it doesn't follow by propagation. Costs what follows from
/// them and the negation of the goal, beyond what follows from the live lines and was found before.
pub(crate) fn hints_in<P: Propagator + Drop>(
    alloc: Global,
    search: &mut Search<P>,
    state: &ProofState,
    next: &mut u64,
    goal: &Constraint,
) -> Result<Option<Items<Hint>>, NoMemory>
    requires kept { IsKept state.now next.old search.old }
    requires within { UpTo state.now.vars goal.now }
    requires small { size (negation goal.now) ≤ 2 ^ 100 }
    ensures kept { IsKept state.now next.new search.new }
    ensures proves { IfOk result (λ found. IfSome found (Proves state.now goal.now)) }
    ensures open { IfOk result
        (λ found. IfNone found (FollowsLoosely state.now goal.now → ⊥)) }
{
    // Tells that it is a state, and the goal in normal form.
    let _vars = state.vars();
    let _terms = goal.len();
    catch_up(search, state, next)?;
    let id = state.next_id();
    let again = propagates_again(goal);
    match refutation_with(alloc, search, id, goal)? {
        Some(hints) => {
            let spelled = spelled(alloc, hints.as_slice(), id, again)?;
            Ok(Some(spelled))
        }
        None => Ok(None),
    }
}

// Has the search hold all live lines, over the state's variables, and what they force. That stays on the trail from one goal
// to the next.
fn catch_up<P: Propagator + Drop>(
    search: &mut Search<P>,
    state: &ProofState,
    next: &mut u64,
) -> Result<(), NoMemory>
    requires kept { IsKept state.now next.old search.old }
    ensures kept { IsKept state.now next.new search.new }
    ensures all { OnOk result (next.new ≡ state.now.next_id) }
    ensures vars { OnOk result (search.new.trail.vars ≡ state.now.vars) }
{
    flat_trail_stays();
    flat_trail_is_undecided();
    // Tells that the trail is one of a search.
    let _level = search.level();
    search.grow(state.vars())?;
    take_lines(search, state, next)?;
    let _conflict = search.propagate()?;
    Ok(())
}

// Whether the negation of a goal may propagate again, after it did at first. Where the goal's degree is 1, as
// a clause's, the negation makes each of its literals true at once.
fn propagates_again(goal: &Constraint) -> bool
    ensures { result ≡ false → goal.now.degree ≡ 1 }
{
    goal.degree() != 1
}
