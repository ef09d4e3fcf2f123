// Watched literals and slack counters, joined.
ghost use Rattle.std.specs.Prelude.{◌≡◌, ◌≤◌, ℕ, [], Some, length, IsSome, IfOk, IfSome, IfNone, OnOk, OnErr};
ghost use Rattle.std.specs.FinMap.{empty, get, remove};
ghost use Rattle.pb_lin.specs.LineMap.{LineMap, LinesUpTo};
ghost use Rattle.clause_prop.specs.declared.step.Step.{Step};
ghost use Rattle.clause_prop.specs.Steps.{TrailValue, with_step, cut};
ghost use Rattle.clause_prop.specs.Propagating.{Extends, IsConflict, IsClosedFor};
ghost use Rattle.clause_prop.specs.LineKinds.{IsClosedForWatched, IsClosedForCounted};
ghost use Rattle.watch_prop.specs.Joined.{AreInStep};

use crate::counters::{Counters, longer_trail_keeps_counters, more_variables_keep_counters};
use crate::watches::{
    Watches, is_watched, longer_trail_keeps_watches, more_variables_keep_watches,
};
use clause_prop::{ClauseStore, Propagator, Trail};
use scut_base::NoMemory;
use std::alloc::Global;

/// Watches two literals of each clause of two literals or more, and keeps of each other line the sum of the
/// coefficients of the literals that aren't false. A step touches only the lines in which its opposite stands, and of
/// clauses only those that watch it.
#[derive(Debug, Drop)]
pub struct WatchProp {
    watches: Watches,
    counters: Counters,
}

impl WatchProp {
    /// In step with no line. Takes no memory.
    pub fn new(alloc: Global) -> WatchProp
        ensures { (n : ℕ) → AreInStep result empty (record { vars = n; steps = [] }) }
    {
        WatchProp {
            watches: Watches::new(alloc),
            counters: Counters::new(alloc),
        }
    }

    // Extends the trail by what clauses of two literals or more force.
    fn by_clauses(
        &mut self,
        store: &ClauseStore,
        trail: &mut Trail,
    ) -> Result<Option<u64>, NoMemory>
        requires in_step { AreInStep self.old store.now trail.old }
        requires variables { LinesUpTo trail.old.vars store.now }
        ensures in_step { AreInStep self.new store.now trail.new }
        ensures conflict { IfOk result (λ found. IfSome found (IsConflict store.now trail.new)) }
        ensures closed { IfOk result
            (λ found. IfNone found (IsClosedForWatched store.now trail.new)) }
        ensures extends { Extends store.now trail.old trail.new }
    {
        self.watches.propagate(store, trail)
    }

    // Extends the trail by what other lines force.
    fn by_counters(
        &mut self,
        store: &ClauseStore,
        trail: &mut Trail,
    ) -> Result<Option<u64>, NoMemory>
        requires in_step { AreInStep self.old store.now trail.old }
        requires variables { LinesUpTo trail.old.vars store.now }
        ensures in_step { AreInStep self.new store.now trail.new }
        ensures conflict { IfOk result (λ found. IfSome found (IsConflict store.now trail.new)) }
        ensures closed { IfOk result
            (λ found. IfNone found (IsClosedForCounted store.now trail.new)) }
        ensures extends { Extends store.now trail.old trail.new }
    {
        self.counters.propagate(store, trail)
    }
}

impl Propagator for WatchProp {
    ghost in_step = { AreInStep };

    /// Clauses come first, since they are cheaper; then other lines, and clauses again where these forced something.
    fn propagate(
        &mut self,
        store: &ClauseStore,
        trail: &mut Trail,
    ) -> Result<Option<u64>, NoMemory> {
        loop {
            if let Some(id) = self.by_clauses(store, trail)? {
                return Ok(Some(id));
            }
            let before = trail.len();
            if let Some(id) = self.by_counters(store, trail)? {
                return Ok(Some(id));
            }
            if trail.len() == before {
                return Ok(None);
            }
        }
    }

    fn added(&mut self, store: &ClauseStore, trail: &Trail, id: u64) -> Result<(), NoMemory> {
        match store.get(id) {
            Some(line) => {
                if is_watched(line) {
                    self.watches.added(store, trail, id)
                } else {
                    self.counters.added(store, trail, id)
                }
            }
            None => Ok(()),
        }
    }

    fn dropped(&mut self, _store: &ClauseStore, id: u64) {
        self.watches.dropped(id);
        self.counters.dropped(id);
    }

    fn shrinking(&mut self, store: &ClauseStore, trail: &Trail, keep: u64) {
        self.watches.shrinking(trail, keep);
        self.counters.shrinking(store, trail, keep);
    }

    fn longer_trail_keeps_step() {
        longer_trail_keeps_watches();
        longer_trail_keeps_counters();
    }

    fn more_variables_keep_step() {
        more_variables_keep_watches();
        more_variables_keep_counters();
    }
}
