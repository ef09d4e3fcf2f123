// Laws of what a search has earned.
ghost use Rattle.std.specs.Prelude.{◌≡◌, ℕ, ◌+◌, ◌++◌, ◌∷◌, [], List};
ghost use Rattle.std.specs.List.{count_by};
ghost use Rattle.scut_base.specs.Literal.{Literal};
ghost use Rattle.pb_lin.specs.Constraint.{ConstraintValue};
ghost use Rattle.pb_lin.specs.Problem.{ProblemValue};
ghost use Rattle.pb_lin.specs.LineMap.{LineMap};
ghost use Rattle.hint_rup.specs.declared.hint.Hint.{Hint};
ghost use Rattle.proof_laws.specs.State.{StateValue, IsState, Fits};
ghost use Rattle.proof_laws.specs.Steps.{clause};
ghost use Rattle.proof_laws.specs.Replay.{IsReplay};
ghost use Rattle.proof_laws.specs.Legal.{IsNext};
ghost use Rattle.proof_laws.specs.Earned.{IsEarned, IsNewClause, IsReduction, IsUnitUnder, is_learn, is_reduce};
ghost use Rattle.proof_laws.specs.declared.line.Line.{Line};
ghost use Rattle.proof_laws.specs.declared.line.Line.TheVariants.{Learn, Reduce};
ghost use Rattle.clause_prop.specs.Steps.{TrailValue, partial};
ghost use Rattle.clause_prop.specs.Propagating.{IsClosedFor};
ghost use Rattle.cdcl_trail.specs.Learning.{AreHints};
ghost use Rattle.cdcl_laws.specs.StoredLines.{IsStored};

/// Law: where all lines are stored and nothing is left to force, a clause with one open literal and hints is new.
pub fn stored_unit_is_new()
    ensures { (p : ProblemValue) (s : StateValue) (store : LineMap) (t : TrailValue)
        (lits : List Literal) (hints : List Hint) → Fits p s → IsState s
        → IsStored p s s.next_id store → t.vars ≡ s.vars → IsClosedFor store t
        → IsUnitUnder (partial t) (clause lits) → AreHints store s.vars lits hints
        → IsNewClause p s (clause lits) hints }
{}

/// Law: a new clause earns its line.
pub fn learned_line_is_earned()
    ensures { (p : ProblemValue) (lines : List Line) (n : ℕ) (s t : StateValue)
        (goal : ConstraintValue) (hints : List Hint) → IsEarned p lines n → IsReplay p lines s
        → IsNewClause p s goal hints → IsNext p s (Learn goal hints) t
        → IsEarned p (lines ++ Learn goal hints ∷ []) (n + 1) }
{}

/// Law: a reduction at its place keeps what was earned.
pub fn reduction_is_earned()
    ensures { (p : ProblemValue) (lines : List Line) (n : ℕ) (s t : StateValue) (ids : List ℕ)
        → IsEarned p lines n → IsReplay p lines s → IsReduction p lines ids
        → IsNext p s (Reduce ids) t → IsEarned p (lines ++ Reduce ids ∷ []) n }
{}

/// Law: a state counts the learned lines.
pub fn learned_is_counted()
    ensures { (p : ProblemValue) (lines : List Line) (s : StateValue) → IsReplay p lines s
        → s.learned ≡ count_by is_learn lines }
{}

/// Law: a state without lines is that of no lines.
pub fn first_line_is_no_reduction()
    ensures { (p : ProblemValue) (lines : List Line) (s : StateValue) → IsReplay p lines s
        → s.lines ≡ 0 → count_by is_reduce lines ≡ 0 }
{}
