// Laws of the trails of a search.
ghost use Rattle.std.specs.Prelude.{◌≡◌, ◌≢◌, ℕ, ◌<◌, ◌≤◌, Bool, List, [], None, Some, length, All};
ghost use Rattle.std.specs.FinMap.{get, insert, remove};
ghost use Rattle.scut_base.specs.Literal.{Literal};
ghost use Rattle.scut_base.specs.Assignment.{partial_truth};
ghost use Rattle.pb_lin.specs.Constraint.{ConstraintValue, Holds};
ghost use Rattle.pb_lin.specs.LineMap.{LineMap};
ghost use Rattle.proof_laws.specs.Steps.{clause};
ghost use Rattle.proof_laws.specs.Earned.{IsUnitUnder};
ghost use Rattle.clause_prop.specs.Steps.{TrailValue, partial, with_step, cut};
ghost use Rattle.clause_prop.specs.Propagating.{Extends, IsClosedFor};
ghost use Rattle.cdcl_trail.specs.SearchTrail.{AreLines, IsSearchTrail, IsUndecided, IsUpTo, IsFull, IsOfSteps, decision};
ghost use Rattle.cdcl_trail.specs.Learning.{IsAsserting, asserted};

/// Law: a trail without steps is one of a search.
pub fn empty_trail_is_search()
    ensures { (store : LineMap) (n : ℕ) → IsSearchTrail store (record { vars = n; steps = [] }) }
{}

/// Law: where no line is violated or forces a literal, any open literal may be decided.
pub fn decision_keeps_search()
    ensures { (store : LineMap) (t : TrailValue) (l : Literal) → IsSearchTrail store t
        → IsClosedFor store t → 0 < l.var → l.var ≤ t.vars → partial_truth (partial t) l ≡ None
        → IsSearchTrail store (with_step t (decision t l)) }
{}

/// Law: what propagation adds leaves a trail one of a search.
pub fn propagation_keeps_search()
    ensures { (store : LineMap) (old new : TrailValue) → AreLines old.vars store
        → IsSearchTrail store old → Extends store old new → IsSearchTrail store new }
{}

/// Law: so do cuts.
pub fn cut_keeps_search()
    ensures { (store : LineMap) (t : TrailValue) (keep : ℕ)
        → IsSearchTrail store t → IsSearchTrail store (cut t keep) }
{}

/// Law: where a jump back ends, the clause that asks for it has one open literal and all others are false, and no line is
/// violated or forces a literal. So the clause is new.
pub fn jump_closes()
    ensures shorter { (t : TrailValue) (top level keep : ℕ) (lits : List Literal) (l : Literal)
        → IsAsserting t top level lits l → IsUpTo t level keep → keep < length t.steps }
    ensures closed { (store : LineMap) (t : TrailValue) (level keep : ℕ) → IsSearchTrail store t
        → IsUpTo t level keep → keep < length t.steps → IsClosedFor store (cut t keep) }
    ensures unit { (store : LineMap) (t : TrailValue) (top level keep : ℕ) (lits : List Literal)
        (l : Literal) → IsSearchTrail store t → IsAsserting t top level lits l
        → IsUpTo t level keep → IsUnitUnder (partial (cut t keep)) (clause lits) }
{}

/// Law: a clause is learned by storing it and jumping back to where it forces its literal.
pub fn learning_keeps_search()
    ensures { (store : LineMap) (t : TrailValue) (top level keep id : ℕ) (lits : List Literal)
        (l : Literal) → AreLines t.vars store → IsSearchTrail store t
        → IsAsserting t top level lits l → IsUpTo t level keep → get store id ≡ None → id ≢ 0
        → IsSearchTrail (insert store id (clause lits))
        (with_step (cut t keep) (asserted l level id)) }
{}

/// Law: where nothing is decided, any line may be stored.
pub fn added_line_keeps_search()
    ensures { (store : LineMap) (t : TrailValue) (id : ℕ) (c : ConstraintValue) → IsUndecided t
        → get store id ≡ None → IsSearchTrail store t → IsSearchTrail (insert store id c) t }
{}

/// Law: a line that is no reason may be dropped.
pub fn dropped_line_keeps_search()
    ensures { (store : LineMap) (t : TrailValue) (id : ℕ) → All (λ s. s.reason ≢ id) t.steps
        → IsSearchTrail store t → IsSearchTrail (remove store id) t }
{}

/// Law: where nothing is decided, there may come variables.
pub fn more_variables_keep_search()
    ensures { (store : LineMap) (t : TrailValue) (n : ℕ) → AreLines t.vars store → t.vars ≤ n
        → IsUndecided t → IsSearchTrail store t
        → IsSearchTrail store (record { vars = n; steps = t.steps }) }
{}

/// Law: where every variable has a step and no line is violated, the steps make every line hold.
pub fn closed_full_trail_is_a_model()
    ensures { (store : LineMap) (t : TrailValue) (a : List Bool) → AreLines t.vars store
        → IsClosedFor store t → IsFull t → IsOfSteps t a
        → (id : ℕ) (c : ConstraintValue) → get store id ≡ Some c → Holds a c }
{}
