// Live lines that are taken up for propagation.
ghost use Rattle.std.specs.Prelude.{◌≡◌, ◌<◌, ◌≤◌, ◌+◌, ℕ, OnOk, OnErr};
ghost use Rattle.std.specs.FinMap.{get};
ghost use Rattle.command_elaborate.specs.Kept.{IsFlat, IsTaken};

use crate::hint_laws::flat_trail_is_undecided;
use cdcl_state::Search;
use clause_prop::Propagator;
use proof_rules::ProofState;
use scut_base::NoMemory;

/// Takes up the live lines from an id on, over as many variables. After `NoMemory` those below the id that
/// `next` is then were taken up.
pub(crate) fn take_lines<P: Propagator + Drop>(
    search: &mut Search<P>,
    state: &ProofState,
    next: &mut u64,
) -> Result<(), NoMemory>
    requires flat { IsFlat search.old.trail }
    requires vars { search.old.trail.vars ≡ state.now.vars }
    requires positive { 0 < next.old }
    requires within { next.old ≤ state.now.next_id }
    requires taken { IsTaken state.now.live next.old search.old.store }
    ensures taken { IsTaken state.now.live next.new search.new.store }
    ensures within { next.new ≤ state.now.next_id }
    ensures positive { 0 < next.new }
    ensures all { OnOk result (next.new ≡ state.now.next_id) }
    ensures trail { search.new.trail ≡ search.old.trail }
{
    while *next < state.next_id() {
        take_line(search, state, *next)?;
        *next += 1;
    }
    Ok(())
}

// Takes up the line of an id, if there is one.
fn take_line<P: Propagator + Drop>(
    search: &mut Search<P>,
    state: &ProofState,
    id: u64,
) -> Result<(), NoMemory>
    requires flat { IsFlat search.old.trail }
    requires vars { search.old.trail.vars ≡ state.now.vars }
    requires positive { 0 < id }
    requires taken { IsTaken state.now.live id search.old.store }
    ensures ok { OnOk result (IsTaken state.now.live (id + 1) search.new.store) }
    ensures err { OnErr result (search.new.store ≡ search.old.store) }
    ensures trail { search.new.trail ≡ search.old.trail }
{
    flat_trail_is_undecided();
    // Tells that the trail is one of a search, and no line has a variable above the state's.
    let _level = search.level();
    let _vars = state.vars();
    match state.live().get(id) {
        Some(line) => search.take(id, line),
        None => Ok(()),
    }
}
