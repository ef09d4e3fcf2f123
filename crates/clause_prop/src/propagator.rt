// What a propagator is.
ghost use Rattle.std.specs.Prelude.{◌≡◌, ◌≤◌, ℕ, None, Some, length, IsSome, IfOk, IfSome, IfNone, OnOk, OnErr};
ghost use Rattle.std.specs.FinMap.{get, remove};
ghost use Rattle.pb_lin.specs.LineMap.{LineMap, LinesUpTo};
ghost use Rattle.clause_prop.specs.declared.step.Step.{Step};
ghost use Rattle.clause_prop.specs.Steps.{TrailValue, with_step, cut};
ghost use Rattle.clause_prop.specs.Propagating.{Extends, IsConflict, IsClosedFor};

use crate::{ClauseStore, Trail};
use scut_base::NoMemory;

/// Finds what stored lines force under a trail. A propagator is in step with a store and a trail; the calls
/// `added`, `dropped` and `shrinking` keep it so where these change. A literal that is pushed needs no
/// call, and neither does a trail that grows.
pub trait Propagator {
    ghost in_step: { Self → LineMap → TrailValue → Type 0 };

    /// Extends the trail by literals that lines force under the steps before them, each at the level of the
    /// step before it and with the id of its line, until a line has a negative slack, whose id is answered,
    /// or the trail is closed. It may be called again after `NoMemory`.
    fn propagate(&mut self, store: &ClauseStore, trail: &mut Trail) -> Result<Option<u64>, NoMemory>
        requires in_step { in_step self.old store.now trail.old }
        requires variables { LinesUpTo trail.old.vars store.now }
        ensures in_step { in_step self.new store.now trail.new }
        ensures conflict { IfOk result (λ found. IfSome found (IsConflict store.now trail.new)) }
        ensures closed { IfOk result (λ found. IfNone found (IsClosedFor store.now trail.new)) }
        ensures extends { Extends store.now trail.old trail.new };

    /// Takes up a line that was stored. After `NoMemory` it is in step with the store without the line.
    fn added(&mut self, store: &ClauseStore, trail: &Trail, id: u64) -> Result<(), NoMemory>
        requires in_step { in_step self.old (remove store.now id) trail.now }
        requires there { IsSome (get store.now id) }
        requires variables { LinesUpTo trail.now.vars store.now }
        ensures ok { OnOk result (in_step self.new store.now trail.now) }
        ensures err { OnErr result (in_step self.new (remove store.now id) trail.now) };

    /// Lets go of a line that was dropped.
    fn dropped(&mut self, store: &ClauseStore, id: u64)
        ensures { (lines : LineMap) (t : TrailValue) → in_step self.old lines t
            → store.now ≡ remove lines id → in_step self.new store.now t };

    /// Makes ready for a cut of the trail to its first steps.
    fn shrinking(&mut self, store: &ClauseStore, trail: &Trail, keep: u64)
        requires in_step { in_step self.old store.now trail.now }
        requires keep { keep ≤ length trail.now.steps }
        ensures { in_step self.new store.now (cut trail.now keep) };

    /// Law: a step more on the trail leaves it in step.
    fn longer_trail_keeps_step()
        ensures { (w : Self) (store : LineMap) (t : TrailValue) (s : Step)
            → in_step w store t → in_step w store (with_step t s) };

    /// Law: more variables leave it in step.
    fn more_variables_keep_step()
        ensures { (w : Self) (store : LineMap) (t : TrailValue) (n : ℕ) → t.vars ≤ n
            → in_step w store t → in_step w store (record { vars = n; steps = t.steps }) };
}
