// Laws of the lines that a search adds.
ghost use Rattle.std.specs.Prelude.{◌≡◌, ℕ, ◌<◌, ◌≤◌, ◌^◌, ◌++◌, ◌∷◌, [], false, true, List, All, AllPairs};
ghost use Rattle.scut_base.specs.Literal.{Literal};
ghost use Rattle.pb_lin.specs.Constraint.{ConstraintValue};
ghost use Rattle.pb_lin.specs.Problem.{ProblemValue};
ghost use Rattle.pb_lin.specs.LineMap.{LineMap};
ghost use Rattle.hint_rup.specs.declared.hint.Hint.{Hint};
ghost use Rattle.proof_laws.specs.State.{StateValue, IsState};
ghost use Rattle.proof_laws.specs.Steps.{clause};
ghost use Rattle.proof_laws.specs.Refusal.{is_clause};
ghost use Rattle.proof_laws.specs.Earned.{IsLearnedId};
ghost use Rattle.proof_laws.specs.Replay.{IsReplay};
ghost use Rattle.proof_laws.specs.Legal.{IsLegal, IsNext};
ghost use Rattle.proof_laws.specs.WellFormed.{IsWellFormed};
ghost use Rattle.proof_laws.specs.declared.line.Line.{Line};
ghost use Rattle.proof_laws.specs.declared.line.Line.TheVariants.{Learn, Reduce, Rup};
ghost use Rattle.proof_rules.specs.Recording.{MayBeAdded};
ghost use Rattle.oracle.specs.Solving.{AddsSearchLines};
ghost use Rattle.cdcl_trail.specs.Learning.{AreHints};
ghost use Rattle.cdcl_laws.specs.SearchLines.{AddsLearned};
ghost use Rattle.cdcl_laws.specs.StoredLines.{IsStored};

/// Law: stored hints make a clause legal as a learned and as an implied line, but for the number of lines.
pub fn hints_make_legal()
    ensures formed { (p : ProblemValue) (s : StateValue) (next : ℕ) (store : LineMap)
        (lits : List Literal) (hints : List Hint) → IsState s → IsStored p s next store
        → AllPairs (λ l m. l.var < m.var) lits → All (λ l. (0 < l.var) × (l.var ≤ s.vars)) lits
        → AreHints store s.vars lits hints → IsWellFormed (Learn (clause lits) hints) }
    ensures learned { (p : ProblemValue) (lines : List Line) (s : StateValue) (next : ℕ)
        (store : LineMap) (lits : List Literal) (hints : List Hint) → IsState s → IsReplay p lines s
        → s.ended ≡ false → IsStored p s next store → AllPairs (λ l m. l.var < m.var) lits
        → All (λ l. (0 < l.var) × (l.var ≤ s.vars)) lits → AreHints store s.vars lits hints
        → MayBeAdded p lines (Learn (clause lits) hints) }
    ensures implied { (p : ProblemValue) (lines : List Line) (s : StateValue) (next : ℕ)
        (store : LineMap) (lits : List Literal) (hints : List Hint) → IsState s → IsReplay p lines s
        → s.ended ≡ false → IsStored p s next store → AllPairs (λ l m. l.var < m.var) lits
        → All (λ l. (0 < l.var) × (l.var ≤ s.vars)) lits → AreHints store s.vars lits hints
        → MayBeAdded p lines (Rup (clause lits) hints) }
    ensures unless_long { (p : ProblemValue) (lines : List Line) (s : StateValue) (line : Line)
        → IsReplay p lines s → MayBeAdded p lines line → s.lines < 2 ^ 61 → IsLegal p s line }
{}

/// Law: search lines that follow learned ones and reductions are search lines after the old ones.
pub fn search_lines_join()
    ensures none { (p : ProblemValue) (a : List Line) → AddsLearned p a a }
    ensures learned { (p : ProblemValue) (a : List Line) (goal : ConstraintValue)
        (hints : List Hint) → AddsLearned p a (a ++ Learn goal hints ∷ []) }
    ensures reduced { (p : ProblemValue) (a : List Line) (ids : List ℕ)
        → All (IsLearnedId p a) ids → AddsLearned p a (a ++ Reduce ids ∷ []) }
    ensures implied { (p : ProblemValue) (a : List Line) (goal : ConstraintValue)
        (hints : List Hint) → is_clause goal ≡ true
        → AddsSearchLines p a (a ++ Rup goal hints ∷ []) }
    ensures joined { (p : ProblemValue) (a b c : List Line)
        → AddsLearned p a b → AddsLearned p b c → AddsLearned p a c }
    ensures then_any { (p : ProblemValue) (a b c : List Line)
        → AddsLearned p a b → AddsSearchLines p b c → AddsSearchLines p a c }
{}
