// Laws of the lines that a search stores.
ghost use Rattle.std.specs.Prelude.{◌≡◌, ◌⊎◌, ℕ, ◌+◌, ◌<◌, ◌≤◌, Bool, true, false, None, Some, List, [], length, fold, All};
ghost use Rattle.std.specs.FinMap.{empty, get, insert, remove};
ghost use Rattle.scut_base.specs.Literal.{Literal};
ghost use Rattle.scut_base.specs.Assignment.{lit_true};
ghost use Rattle.pb_lin.specs.Constraint.{ConstraintValue, Holds};
ghost use Rattle.pb_lin.specs.Problem.{ProblemValue};
ghost use Rattle.pb_lin.specs.LineMap.{LineMap};
ghost use Rattle.hint_rup.specs.declared.hint.Hint.{Hint};
ghost use Rattle.proof_laws.specs.State.{StateValue, IsState, Fits};
ghost use Rattle.proof_laws.specs.Replay.{IsReplay};
ghost use Rattle.proof_laws.specs.Legal.{IsNext};
ghost use Rattle.proof_laws.specs.Refusal.{is_clause};
ghost use Rattle.proof_laws.specs.declared.line.Line.{Line};
ghost use Rattle.proof_laws.specs.declared.line.Line.TheVariants.{Learn};
ghost use Rattle.oracle.specs.Solving.{IsSolution};
ghost use Rattle.cdcl_trail.specs.SearchTrail.{AreLines};
ghost use Rattle.cdcl_laws.specs.StoredLines.{IsStored, deleted};

/// Law: the state that lines reach fits their problem, whatever the lines are.
pub fn reached_state_fits()
    ensures { (p : ProblemValue) (lines : List Line) (s : StateValue)
        → IsReplay p lines s → Fits p s }
{}

/// Law: at first nothing is stored.
pub fn nothing_is_stored()
    ensures { (p : ProblemValue) (s : StateValue) → IsStored p s 0 empty }
{}

/// Law: stored lines are in normal form, over the state's variables, and none has the id 0.
pub fn stored_lines_are_normal()
    ensures { (p : ProblemValue) (s : StateValue) (next : ℕ) (store : LineMap)
        → IsState s → IsStored p s next store → AreLines s.vars store }
{}

/// Law: the next line is stored where it is a row or a clause.
pub fn line_is_taken()
    ensures stored { (p : ProblemValue) (s : StateValue) (next : ℕ) (store : LineMap)
        (c : ConstraintValue) → IsStored p s next store → get s.live next ≡ Some c
        → next < s.next_id → 0 < next → (next ≤ length p.rows) ⊎ (is_clause c ≡ true)
        → IsStored p s (next + 1) (insert store next c) }
    ensures fresh { (p : ProblemValue) (s : StateValue) (next : ℕ) (store : LineMap)
        → IsStored p s next store → get store next ≡ None }
{}

/// Law: it is passed where there is none, or another one.
pub fn line_is_passed()
    ensures none { (p : ProblemValue) (s : StateValue) (next : ℕ) (store : LineMap)
        → IsStored p s next store → get s.live next ≡ None → next < s.next_id
        → IsStored p s (next + 1) store }
    ensures other { (p : ProblemValue) (s : StateValue) (next : ℕ) (store : LineMap)
        (c : ConstraintValue) → IsStored p s next store → get s.live next ≡ Some c
        → next < s.next_id → length p.rows < next → is_clause c ≡ false
        → IsStored p s (next + 1) store }
{}

/// Law: a line that deletes nothing leaves what is stored right.
pub fn plain_line_keeps_stored()
    ensures { (p : ProblemValue) (s t : StateValue) (line : Line) (next : ℕ) (store : LineMap)
        → IsState s → IsStored p s next store → IsNext p s line t → deleted line ≡ []
        → IsStored p t next store }
{}

/// Law: after a line that deletes, the same ids are to be dropped.
pub fn deleting_line_keeps_stored()
    ensures { (p : ProblemValue) (s t : StateValue) (line : Line) (next : ℕ) (store : LineMap)
        → IsState s → IsStored p s next store → IsNext p s line t
        → IsStored p t next (fold remove store (deleted line)) }
{}

/// Law: where all lines are stored, a clause that is learned is to be stored under its id.
pub fn learned_line_is_stored()
    ensures stored { (p : ProblemValue) (s t : StateValue) (goal : ConstraintValue)
        (hints : List Hint) (store : LineMap) → IsState s → Fits p s → IsStored p s s.next_id store
        → IsNext p s (Learn goal hints) t
        → IsStored p t t.next_id (insert store s.next_id goal) }
    ensures id { (p : ProblemValue) (s t : StateValue) (goal : ConstraintValue) (hints : List Hint)
        → IsNext p s (Learn goal hints) t → t.next_id ≡ s.next_id + 1 }
{}

/// Law: where all lines are stored and hold, the assignment is a solution for the literals that it makes true.
pub fn stored_model_is_solution()
    ensures { (p : ProblemValue) (s : StateValue) (store : LineMap) (a : List Bool)
        (assumptions : List Literal) → Fits p s → IsState s → IsStored p s s.next_id store
        → length a ≡ s.vars
        → ((id : ℕ) (c : ConstraintValue) → get store id ≡ Some c → Holds a c)
        → All (λ l. lit_true a l ≡ true) assumptions → IsSolution p assumptions a s }
{}
