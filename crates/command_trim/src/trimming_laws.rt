// Laws of trimmed proofs.
ghost use Rattle.std.specs.Prelude.{◌≡◌, ℕ, List, [], ◌∷◌, ◌<◌, true, All, length, None, Some, Option, Ok, fold, map};
ghost use Rattle.std.specs.List.{flat_map};
ghost use Rattle.pb_lin.specs.Constraint.{ConstraintValue};
ghost use Rattle.hint_rup.specs.declared.hint.Hint.{Hint};
ghost use Rattle.cutting_planes.specs.declared.token.PolToken.{PolToken};
ghost use Rattle.cutting_planes.specs.Stack.{IsValueOn};
ghost use Rattle.proof_laws.specs.State.{IsState, StateValue};
ghost use Rattle.proof_laws.specs.Refusal.{IsFirstGoalFault, IsGoalFault, IsHintsFault, given_in};
ghost use Rattle.proof_laws.specs.Substituted.{Requirement, dominance, redundance};
ghost use Rattle.proof_laws.specs.declared.goal.Goal.{Goal};
ghost use Rattle.proof_laws.specs.declared.goal.GoalProof.{GoalProof};
ghost use Rattle.proof_laws.specs.Legal.{IsLegal};
ghost use Rattle.proof_laws.specs.declared.line.Line.{Line};
ghost use Rattle.proof_laws.specs.declared.why.Why.{Why};
ghost use Rattle.command_trim.specs.Trimmed.{Renaming, ids_named, is_kept_goal, new_goal, new_hints, new_ids, new_line, new_proofs, new_token, hint_ids, proof_ids, token_ids};
ghost use Rattle.command_trim.specs.Simulation.{AreCarried, Carries, IsRenaming, Simulates, TrimmedReplays};
ghost use Rattle.command_trim.specs.Subsequence.{TrimmedComeOfOld};
ghost use Rattle.std.specs.FinMap.{get, insert, remove};
ghost use Rattle.pb_lin.specs.LineMap.{LineMap};
ghost use Rattle.pb_lin.specs.Problem.{ProblemValue};
ghost use Rattle.pb_lin.specs.Substitution.{Images};

/// Law: hints that lead to a conflict do so under new ids.
pub fn hints_are_simulated()
    ensures { (r : Renaming) (s t : StateValue) (negated : ConstraintValue)
        (denied : Option ConstraintValue) (hints : List Hint) (why other : Why) → t.vars ≡ s.vars
        → AreCarried r s t (flat_map hint_ids hints) → IsHintsFault s negated denied hints why None
        → IsHintsFault t negated denied (new_hints r hints) other None }
{}

/// Law: tokens under new ids make the same constraint.
pub fn tokens_are_simulated()
    ensures { (r : Renaming) (s t : StateValue) (negated denied : Option ConstraintValue)
        (tokens : List PolToken) (c : ConstraintValue) → AreCarried r s t (flat_map token_ids tokens)
        → IsValueOn (given_in s negated denied) [] tokens (Ok c)
        → IsValueOn (given_in t negated denied) [] (map (new_token r) tokens) (Ok c) }
{}

/// Law: lines that both proofs make, or delete, are carried over under new ids.
pub fn lines_are_carried()
    ensures put { (r : Renaming) (n k : ℕ) (old new : LineMap) (c : ConstraintValue)
        → IsRenaming r n k → Carries r old new
        → Carries (record { rows = r.rows; made = (n, k) ∷ r.made }) (insert old n c) (insert new k c) }
    ensures removed { (r : Renaming) (n k : ℕ) (old new : LineMap) (ids : List ℕ)
        → IsRenaming r n k → Carries r old new
        → Carries r (fold remove old ids) (fold remove new (new_ids r ids)) }
{}

/// Law: a goal that was closed or proved is so under new ids.
pub fn goals_are_simulated()
    ensures { (r : Renaming) (n k : ℕ) (s t : StateValue) (c : ConstraintValue)
        (proofs : List (Goal × GoalProof)) (q : Requirement) → IsRenaming r n k → t.vars ≡ s.vars
        → ((id : ℕ) (d : ConstraintValue) → get s.live id ≡ Some d → 0 < id)
        → All (λ x. AreCarried r s t (proof_ids x.1)) proofs → is_kept_goal r q.goal ≡ true
        → IsGoalFault s c proofs q None
        → IsGoalFault t c (new_proofs r proofs)
        (record { goal = new_goal r q.goal; size = q.size; excess = q.excess }) None }
{}

/// Law: what a substitution requires is met under new ids.
pub fn requirements_are_simulated()
    ensures redundance { (r : Renaming) (n k : ℕ) (s t : StateValue) (c : ConstraintValue)
        (proofs : List (Goal × GoalProof)) (w : Images) (p : ProblemValue) → IsRenaming r n k
        → t.vars ≡ s.vars → ((id : ℕ) (d : ConstraintValue) → get s.live id ≡ Some d → 0 < id)
        → All (λ x. AreCarried r s t (proof_ids x.1)) proofs → Carries r s.live t.live
        → IsFirstGoalFault s c proofs (redundance p s w c) None
        → IsFirstGoalFault t c (new_proofs r proofs) (redundance p t w c) None }
    ensures dominance { (r : Renaming) (n k : ℕ) (s t : StateValue) (c : ConstraintValue)
        (proofs : List (Goal × GoalProof)) (w : Images) (p : ProblemValue) → IsRenaming r n k
        → t.vars ≡ s.vars → ((id : ℕ) (d : ConstraintValue) → get s.live id ≡ Some d → 0 < id)
        → All (λ x. AreCarried r s t (proof_ids x.1)) proofs → length p.rows ≡ r.rows
        → IsFirstGoalFault s c proofs (dominance p w) None
        → IsFirstGoalFault t c (new_proofs r proofs) (dominance p w) None }
{}

/// Law: a legal line is legal under new ids, where the live lines that it names are carried.
pub fn legal_lines_are_simulated()
    ensures { (p : ProblemValue) (r : Renaming) (s t : StateValue) (line : Line) → Simulates r s t
        → IsState s → length p.rows ≡ r.rows → AreCarried r s t (ids_named line) → IsLegal p s line
        → IsLegal p t (new_line r line) }
{}

/// Law: the trimmed lines of a proof are one, which has ended where the old one has, and logs no other
/// vectors.
pub fn trimmed_proof_replays()
    ensures { TrimmedReplays }
{}

/// Law: the trimmed lines are some of the old ones, in their order, under new ids.
pub fn trimmed_lines_come_of_old()
    ensures { TrimmedComeOfOld }
{}
