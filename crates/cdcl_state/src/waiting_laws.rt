// Laws: who waits, as a trail grows and shrinks.
ghost use Rattle.std.specs.Prelude.{◌≡◌, ◌+◌, ◌<◌, ◌≤◌, ℕ, Some, length, max, slice_get};
ghost use Rattle.clause_prop.specs.declared.step.Step.{Step};
ghost use Rattle.clause_prop.specs.Steps.{AreSteps, TrailValue, cut, with_step};
ghost use Rattle.cdcl_state.specs.Order.{AllOpenWait, IsGrown, OrderValue, OtherOpenWait, WaitsToo};

/// Law: a step more leaves every open variable waiting.
pub fn longer_trail_keeps_waiting()
    ensures { (o : OrderValue) (t : TrailValue) (s : Step)
        → AllOpenWait o t → AllOpenWait o (with_step t s) }
{}

/// Law: where all open variables but one wait, as after `next`, all do once that one has a step.
pub fn decision_keeps_waiting()
    ensures { (o : OrderValue) (t : TrailValue) (s : Step) → 0 < s.lit.var → s.lit.var ≤ t.vars
        → OtherOpenWait o t s.lit.var → AllOpenWait o (with_step t s) }
{}

/// Law: the last step may be cut off once its literal was put back.
pub fn cut_keeps_waiting()
    ensures { (o p : OrderValue) (t : TrailValue) (k : ℕ) (s : Step) → AreSteps t.vars t.steps
        → slice_get t.steps k ≡ Some s → AllOpenWait o (cut t (k + 1))
        → WaitsToo o p s.lit.var → AllOpenWait p (cut t k) }
{}

/// Law: the trail may have more variables once the order has them.
pub fn growth_keeps_waiting()
    ensures { (o p : OrderValue) (t : TrailValue) (n : ℕ) → t.vars ≡ length o.activities
        → IsGrown o p n → AllOpenWait o t
        → AllOpenWait p (record { vars = max n t.vars; steps = t.steps }) }
{}
