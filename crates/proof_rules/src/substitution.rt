// Substitutions: each requirement is met, or has a proof that it is.
ghost use Rattle.std.specs.Prelude.{◌≡◌, ◌≤◌, ◌∷◌, [], length, option_copied};
ghost use Rattle.std.specs.FinMap.{entries};
ghost use Rattle.pb_lin.specs.Constraint.{UpTo, negation};
ghost use Rattle.proof_laws.specs.State.{Fits, numbered};
ghost use Rattle.proof_laws.specs.Substituted.{holds_after, none_risen, touched_hold, redundance, dominance};
ghost use Rattle.proof_laws.specs.WellFormed.{goal_kind, goal_number};
ghost use Rattle.proof_laws.specs.Refusal.{IsFirstGoalFault, IsGoalFault, proof_of, same_goal};
ghost use Rattle.proof_rules.specs.RowIndex.{HaveTouched};
ghost use Rattle.proof_rules.specs.Verdict.{ImagesUpTo, IsVerdict, IsClosedOrOpen, IsConflictFault, above, line_at};

use crate::StepFault;
use crate::derivation::{judge_hints, judge_tokens, negation_of};
use crate::goals::{has_fallen, not_risen};
use crate::reached::Reached;
use hint_rup::Negated;
use pb_lin::{Constraint, LinFault, PbProblem, Witness};
use proof_laws::{Goal, GoalProof, Why};
use scut_base::Partial;
use std::alloc::Global;

// A line that substitutes: the constraint that it adds, with its negation, the witness, and the proofs of
// the goals. Besides the places of the problem's rows that the witness may touch.
#[derive(Drop)]
pub(crate) struct Substitution<'a> {
    pub(crate) goal: &'a Constraint,
    pub(crate) denied: &'a Constraint,
    pub(crate) witness: &'a Witness,
    pub(crate) proofs: &'a [(Goal, GoalProof)],
    pub(crate) touched: &'a [usize],
}

// What breaks the constraint still satisfies all live lines after the substitution, and costs no more.
// Builds a goal for each line that the witness touches. Goes once through the live lines that are no rows.
pub(crate) fn judge_redundance(
    alloc: Global,
    problem: &PbProblem,
    reached: &Reached,
    scratch: &mut Partial,
    line: &Substitution<'_>,
) -> Result<(), StepFault>
    requires variables { reached.now.vars ≤ length scratch.old }
    requires denied { line.now.denied.now ≡ negation line.now.goal.now }
    requires goal { UpTo reached.now.vars line.now.goal.now }
    requires images { ImagesUpTo reached.now.vars line.now.witness.now }
    requires fits { Fits problem.now reached.now }
    requires touched { HaveTouched line.now.witness.now problem.now.rows line.now.touched.now }
    ensures verdict { IsVerdict
        (IsFirstGoalFault reached.now line.now.goal.now line.now.proofs.now
        (redundance problem.now reached.now line.now.witness.now line.now.goal.now)) result }
    ensures length { length scratch.new ≡ length scratch.old }
{
    // Tells that it is a state.
    let _vars = reached.vars;
    judge_rows(alloc, problem, reached, scratch, line)?;
    let rows = problem.rows().len() as u64;
    judge_lines_above(alloc, reached, scratch, line, rows)?;
    judge_after(alloc, reached, scratch, line, Goal::Itself, line.goal)?;
    judge_objectives(alloc, problem, reached, scratch, line)
}

// What breaks the constraint is a model of the problem after the substitution, and costs less in sum.
pub(crate) fn judge_dominance(
    alloc: Global,
    problem: &PbProblem,
    reached: &Reached,
    scratch: &mut Partial,
    line: &Substitution<'_>,
) -> Result<(), StepFault>
    requires variables { reached.now.vars ≤ length scratch.old }
    requires denied { line.now.denied.now ≡ negation line.now.goal.now }
    requires goal { UpTo reached.now.vars line.now.goal.now }
    requires images { ImagesUpTo reached.now.vars line.now.witness.now }
    requires fits { Fits problem.now reached.now }
    requires touched { HaveTouched line.now.witness.now problem.now.rows line.now.touched.now }
    ensures verdict { IsVerdict
        (IsFirstGoalFault reached.now line.now.goal.now line.now.proofs.now
        (dominance problem.now line.now.witness.now)) result }
    ensures length { length scratch.new ≡ length scratch.old }
{
    judge_rows(alloc, problem, reached, scratch, line)?;
    judge_objectives(alloc, problem, reached, scratch, line)?;
    let fallen = has_fallen(alloc, problem, line.witness)?;
    judge_goal(alloc, reached, scratch, line, Goal::Strict, &fallen)
}

// The live lines with ids above `first` that the witness touches, by rising ids. An empty witness touches
// none, and none is looked at.
fn judge_lines_above(
    alloc: Global,
    reached: &Reached,
    scratch: &mut Partial,
    line: &Substitution<'_>,
    first: u64,
) -> Result<(), StepFault>
    requires variables { reached.now.vars ≤ length scratch.old }
    requires denied { line.now.denied.now ≡ negation line.now.goal.now }
    requires goal { UpTo reached.now.vars line.now.goal.now }
    requires images { ImagesUpTo reached.now.vars line.now.witness.now }
    ensures verdict { IsVerdict
        (IsFirstGoalFault reached.now line.now.goal.now line.now.proofs.now
        (touched_hold line.now.witness.now (above first (entries reached.now.live)))) result }
    ensures length { length scratch.new ≡ length scratch.old }
{
    if line.witness.images().is_empty() {
        return Ok(());
    }
    let mut id = first;
    while let Some(next) = reached.live.next_above(id) {
        judge_live(alloc, reached, scratch, line, next)?;
        id = next;
    }
    Ok(())
}

// The live line of an id, where there is one that the witness touches.
fn judge_live(
    alloc: Global,
    reached: &Reached,
    scratch: &mut Partial,
    line: &Substitution<'_>,
    id: u64,
) -> Result<(), StepFault>
    requires variables { reached.now.vars ≤ length scratch.old }
    requires denied { line.now.denied.now ≡ negation line.now.goal.now }
    requires goal { UpTo reached.now.vars line.now.goal.now }
    requires images { ImagesUpTo reached.now.vars line.now.witness.now }
    ensures verdict { IsVerdict
        (IsFirstGoalFault reached.now line.now.goal.now line.now.proofs.now
        (touched_hold line.now.witness.now (line_at reached.now.live id))) result }
    ensures length { length scratch.new ≡ length scratch.old }
{
    match reached.live.get(id) {
        Some(c) => judge_touched(alloc, reached, scratch, line, id, c),
        None => Ok(()),
    }
}

// The problem's rows that the witness touches, of which the places are given.
fn judge_rows(
    alloc: Global,
    problem: &PbProblem,
    reached: &Reached,
    scratch: &mut Partial,
    line: &Substitution<'_>,
) -> Result<(), StepFault>
    requires variables { reached.now.vars ≤ length scratch.old }
    requires denied { line.now.denied.now ≡ negation line.now.goal.now }
    requires goal { UpTo reached.now.vars line.now.goal.now }
    requires images { ImagesUpTo reached.now.vars line.now.witness.now }
    requires fits { Fits problem.now reached.now }
    requires touched { HaveTouched line.now.witness.now problem.now.rows line.now.touched.now }
    ensures verdict { IsVerdict
        (IsFirstGoalFault reached.now line.now.goal.now line.now.proofs.now
        (touched_hold line.now.witness.now (numbered 1 problem.now.rows))) result }
    ensures length { length scratch.new ≡ length scratch.old }
{
    let _limits = problem.vars();
    let rows = problem.rows();
    for place in line.touched {
        judge_touched(
            alloc,
            reached,
            scratch,
            line,
            *place as u64 + 1,
            &rows[*place],
        )?;
    }
    Ok(())
}

// A line of an id, where the witness touches it.
fn judge_touched(
    alloc: Global,
    reached: &Reached,
    scratch: &mut Partial,
    line: &Substitution<'_>,
    id: u64,
    c: &Constraint,
) -> Result<(), StepFault>
    requires variables { reached.now.vars ≤ length scratch.old }
    requires denied { line.now.denied.now ≡ negation line.now.goal.now }
    requires goal { UpTo reached.now.vars line.now.goal.now }
    requires images { ImagesUpTo reached.now.vars line.now.witness.now }
    requires line { UpTo reached.now.vars c.now }
    ensures verdict { IsVerdict
        (IsFirstGoalFault reached.now line.now.goal.now line.now.proofs.now
        (touched_hold line.now.witness.now ((id, c.now) ∷ []))) result }
    ensures length { length scratch.new ≡ length scratch.old }
{
    if !line.witness.touches(c) {
        return Ok(());
    }
    judge_after(alloc, reached, scratch, line, Goal::Row(id), c)
}

// A constraint holds after the substitution.
fn judge_after(
    alloc: Global,
    reached: &Reached,
    scratch: &mut Partial,
    line: &Substitution<'_>,
    name: Goal,
    c: &Constraint,
) -> Result<(), StepFault>
    requires variables { reached.now.vars ≤ length scratch.old }
    requires denied { line.now.denied.now ≡ negation line.now.goal.now }
    requires goal { UpTo reached.now.vars line.now.goal.now }
    requires images { ImagesUpTo reached.now.vars line.now.witness.now }
    requires line { UpTo reached.now.vars c.now }
    ensures verdict { IsVerdict (IsGoalFault reached.now line.now.goal.now line.now.proofs.now
        (holds_after line.now.witness.now name c.now)) result }
    ensures length { length scratch.new ≡ length scratch.old }
{
    let _normal = c.len();
    match c.under(alloc, line.witness) {
        Ok(goal) => {
            let _normal_goal = goal.len();
            judge_goal(alloc, reached, scratch, line, name, &goal)
        }
        Err(LinFault::Overflow) => Err(StepFault::Refused(Why::Overflow)),
        Err(LinFault::NoMemory) => Err(StepFault::NoMemory),
    }
}

// No objective has risen. An empty witness leaves each as it is, and none is looked at.
fn judge_objectives(
    alloc: Global,
    problem: &PbProblem,
    reached: &Reached,
    scratch: &mut Partial,
    line: &Substitution<'_>,
) -> Result<(), StepFault>
    requires variables { reached.now.vars ≤ length scratch.old }
    requires denied { line.now.denied.now ≡ negation line.now.goal.now }
    requires goal { UpTo reached.now.vars line.now.goal.now }
    requires images { ImagesUpTo reached.now.vars line.now.witness.now }
    requires fits { Fits problem.now reached.now }
    ensures verdict { IsVerdict
        (IsFirstGoalFault reached.now line.now.goal.now line.now.proofs.now
        (none_risen line.now.witness.now 1 problem.now.costs)) result }
    ensures length { length scratch.new ≡ length scratch.old }
{
    if line.witness.images().is_empty() {
        return Ok(());
    }
    let _limits = problem.vars();
    let rows = problem.costs();
    for (at, row) in rows.iter().enumerate() {
        let goal = not_risen(alloc, row, line.witness)?;
        judge_goal(
            alloc,
            reached,
            scratch,
            line,
            Goal::Objective(at as u32 + 1),
            &goal,
        )?;
    }
    Ok(())
}

// A goal in normal form: it is closed, or its proof derives a conflict.
fn judge_goal(
    alloc: Global,
    reached: &Reached,
    scratch: &mut Partial,
    line: &Substitution<'_>,
    name: Goal,
    goal: &Constraint,
) -> Result<(), StepFault>
    requires variables { reached.now.vars ≤ length scratch.old }
    requires denied { line.now.denied.now ≡ negation line.now.goal.now }
    requires goal { UpTo reached.now.vars line.now.goal.now }
    requires open { UpTo reached.now.vars goal.now }
    ensures verdict { IsVerdict
        (IsClosedOrOpen reached.now line.now.goal.now line.now.proofs.now name goal.now) result }
    ensures length { length scratch.new ≡ length scratch.old }
{
    if goal.degree() == 0 {
        return Ok(());
    }
    let Some(proof) = proof_of(name, line.proofs) else {
        return Err(StepFault::Refused(Why::GoalMissing(name)));
    };
    let negated = negation_of(alloc, goal)?;
    judge_proof(alloc, reached, scratch, line, name, &negated, proof)
}

// The proof of a goal, of which the negation is given, derives a conflict.
fn judge_proof(
    alloc: Global,
    reached: &Reached,
    scratch: &mut Partial,
    line: &Substitution<'_>,
    name: Goal,
    negated: &Constraint,
    proof: &GoalProof,
) -> Result<(), StepFault>
    requires variables { reached.now.vars ≤ length scratch.old }
    requires denied { UpTo reached.now.vars line.now.denied.now }
    requires negated { UpTo reached.now.vars negated.now }
    ensures verdict { IsVerdict
        (IsConflictFault reached.now negated.now line.now.denied.now name proof.now) result }
    ensures length { length scratch.new ≡ length scratch.old }
{
    let otherwise = Why::GoalOpen(name);
    match proof {
        GoalProof::Rup(hints) => {
            let (negated, hints) = (Negated::Made(negated), hints.as_slice());
            judge_hints(
                reached,
                scratch,
                negated,
                Some(line.denied),
                hints,
                otherwise,
            )
        }
        GoalProof::Pol(tokens) => {
            let tokens = tokens.as_slice();
            judge_tokens(alloc, reached, negated, line.denied, tokens, otherwise)
        }
    }
}

// The proof of a goal, if there is one.
fn proof_of<'a>(name: Goal, proofs: &'a [(Goal, GoalProof)]) -> Option<&'a GoalProof>
    ensures { option_copied result ≡ proof_of name proofs.now }
{
    for proof in proofs {
        if is_same(name, proof.0) {
            return Some(&proof.1);
        }
    }
    None
}

// Whether two goals are of one kind and number.
fn is_same(one: Goal, other: Goal) -> bool
    ensures { result ≡ same_goal one other }
{
    kind(one) == kind(other) && number(one) == number(other)
}

// The place of a goal's kind among the kinds.
fn kind(goal: Goal) -> u8
    ensures { result ≡ goal_kind goal }
{
    match goal {
        Goal::Row(_) => 0,
        Goal::Itself => 1,
        Goal::Objective(_) => 2,
        Goal::Strict => 3,
    }
}

// The number of a goal among those of its kind.
fn number(goal: Goal) -> u64
    ensures { result ≡ goal_number goal }
{
    match goal {
        Goal::Row(id) => id,
        Goal::Itself => 0,
        Goal::Objective(objective) => u64::from(objective),
        Goal::Strict => 0,
    }
}
