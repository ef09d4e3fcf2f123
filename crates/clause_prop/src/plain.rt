// The propagator that goes through all lines.
ghost use Rattle.std.specs.Prelude.{◌≡◌, false, length, Some, IsTrue, IsOk, IfOk, IfSome, IfNone};
ghost use Rattle.std.specs.FinMap.{get};
ghost use Rattle.pb_lin.specs.Constraint.{ConstraintValue};
ghost use Rattle.pb_lin.specs.LineMap.{LinesUpTo};
ghost use Rattle.pb_lin.specs.Propagation.{IsClosedUnder};
ghost use Rattle.clause_prop.specs.Steps.{partial};
ghost use Rattle.clause_prop.specs.Propagating.{Extends, IsConflict, IsClosedFor};

use crate::line::visit;
use crate::{ClauseStore, Propagator, Trail};
use scut_base::NoMemory;

/// Goes through all lines again and again, until a pass over them forces no literal. It keeps nothing, and
/// takes no memory. A call costs two passes over the terms of all lines, again for each pass that forced
/// something: for few lines, or where another propagator is to be compared with it.
#[derive(Clone, Copy, Debug)]
pub struct PlainProp;

impl Propagator for PlainProp {
    ghost in_step = { λ w store trail. Unit {0} };

    /// The same, and it is never `NoMemory`.
    fn propagate(&mut self, store: &ClauseStore, trail: &mut Trail) -> Result<Option<u64>, NoMemory>
        requires { LinesUpTo trail.old.vars store.now }
        ensures whole { IsOk result }
        ensures conflict { IfOk result (λ found. IfSome found (IsConflict store.now trail.new)) }
        ensures closed { IfOk result (λ found. IfNone found (IsClosedFor store.now trail.new)) }
        ensures extends { Extends store.now trail.old trail.new }
    {
        Ok(close(store, trail))
    }

    /// Does nothing, and it is never `NoMemory`.
    fn added(&mut self, _store: &ClauseStore, _trail: &Trail, _id: u64) -> Result<(), NoMemory>
        ensures { IsOk result }
    {
        Ok(())
    }

    fn dropped(&mut self, _store: &ClauseStore, _id: u64) {}

    fn shrinking(&mut self, _store: &ClauseStore, _trail: &Trail, _keep: u64) {}

    fn longer_trail_keeps_step() {}

    fn more_variables_keep_step() {}
}

// Goes through all lines again until a line is violated, whose id it answers, or no step was added.
fn close(store: &ClauseStore, trail: &mut Trail) -> Option<u64>
    requires { LinesUpTo trail.old.vars store.now }
    ensures conflict { IfSome result (IsConflict store.now trail.new) }
    ensures closed { IfNone result (IsClosedFor store.now trail.new) }
    ensures extends { Extends store.now trail.old trail.new }
{
    loop {
        let before = trail.len();
        if let Some(id) = pass(store, trail) {
            return Some(id);
        }
        if trail.len() == before {
            return None;
        }
    }
}

// Goes through all lines once, or up to one that is violated, whose id it answers. With a step more a line
// that was visited before may force something again, so only a pass that adds none tells that all are
// closed.
fn pass(store: &ClauseStore, trail: &mut Trail) -> Option<u64>
    requires { LinesUpTo trail.old.vars store.now }
    ensures conflict { IfSome result (IsConflict store.now trail.new) }
    ensures closed { length trail.new.steps ≡ length trail.old.steps
        → IfNone result (IsClosedFor store.now trail.new) }
    ensures extends { Extends store.now trail.old trail.new }
{
    // The id 0 too may have a line; `next_above` gives the others.
    let mut id = 0;
    loop {
        if visit_id(store, id, trail) {
            return Some(id);
        }
        match store.next_above(id) {
            Some(next) => id = next,
            None => return None,
        }
    }
}

// Visits the line of an id; where there is none, nothing changes. Tells whether the line is violated.
fn visit_id(store: &ClauseStore, id: u64, trail: &mut Trail) -> bool
    requires { LinesUpTo trail.old.vars store.now }
    ensures conflict { IsTrue result → IsConflict store.now trail.new id }
    ensures closed { result ≡ false → (c : ConstraintValue) → get store.now id ≡ Some c
        → IsClosedUnder (partial trail.new) c }
    ensures extends { Extends store.now trail.old trail.new }
{
    match store.get(id) {
        Some(line) => visit(line, id, trail),
        None => false,
    }
}
