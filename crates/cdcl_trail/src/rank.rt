// Laws of ranks: why a search returns.
ghost use Rattle.std.specs.Prelude.{◌≡◌, ℕ, ◌+◌, ◌<◌, ◌≤◌, List, length};
ghost use Rattle.scut_base.specs.Literal.{Literal};
ghost use Rattle.pb_lin.specs.LineMap.{LineMap};
ghost use Rattle.clause_prop.specs.Steps.{TrailValue, with_step, cut};
ghost use Rattle.clause_prop.specs.Propagating.{Extends};
ghost use Rattle.clause_prop.specs.declared.step.Step.{Step};
ghost use Rattle.cdcl_trail.specs.SearchTrail.{IsSearchTrail, IsUpTo};
ghost use Rattle.cdcl_trail.specs.Learning.{IsAsserting, asserted};
ghost use Rattle.cdcl_trail.specs.Rank.{rank, rest};

/// Law: each step raises the rank.
pub fn steps_raise_rank()
    ensures one { (t : TrailValue) (s : Step) → rank t < rank (with_step t s) }
    ensures kept { (store : LineMap) (old new : TrailValue)
        → Extends store old new → rank old ≤ rank new }
{}

/// Law: a jump back with the step that a learned clause forces raises it too.
pub fn learning_raises_rank()
    ensures { (store : LineMap) (t : TrailValue) (top level keep id : ℕ) (lits : List Literal)
        (l : Literal) → IsSearchTrail store t → IsAsserting t top level lits l → IsUpTo t level keep
        → rank t < rank (with_step (cut t keep) (asserted l level id)) }
{}

/// Law: a greater rank leaves less to do, and so does a restart, whatever the trail is then.
pub fn rest_falls()
    ensures higher { (store : LineMap) (left : ℕ) (old new : TrailValue)
        → IsSearchTrail store new → new.vars ≡ old.vars → rank old < rank new
        → rest left new < rest left old }
    ensures restarted { (left : ℕ) (old new : TrailValue) → new.vars ≡ old.vars
        → rest left new < rest (left + 1) old }
{}
