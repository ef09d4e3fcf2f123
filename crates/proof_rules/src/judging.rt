// When a line is legal.
ghost use Rattle.std.specs.Prelude.{◌≡◌, ◌≤◌, None, length, IfOk};
ghost use Rattle.std.specs.FinMap.{get};
ghost use Rattle.pb_lin.specs.Constraint.{UpTo};
ghost use Rattle.proof_laws.specs.State.{IsState, Fits};
ghost use Rattle.proof_laws.specs.Laws.{StandsBefore};
ghost use Rattle.proof_laws.specs.Substituted.{redundance, dominance};
ghost use Rattle.proof_laws.specs.Refusal.{FirstOf, IsRuleFault, IsRupFault, IsSubstitutionFault, deletion_fault, end_fault, fault_unless, is_clause, is_deletable, range_fault, written};
ghost use Rattle.proof_laws.specs.declared.why.Why.{Why};
ghost use Rattle.proof_rules.specs.RowIndex.{HaveTouched, IsIndex, IsRowIndex};
ghost use Rattle.proof_rules.specs.Verdict.{ImagesUpTo, IsVerdict, IsValueFault, IsValueMade, common_fault};

use crate::StepFault;
use crate::definition::judge_definition;
use crate::derivation::{evaluated, judge_rup, negation_of};
use crate::ranges::written_above;
use crate::reached::Reached;
use crate::room::Room;
use crate::row_index::RowIndex;
use crate::solution::judge_solution;
use crate::substitution::{Substitution, judge_dominance, judge_redundance};
use hint_rup::Hint;
use pb_lin::{Constraint, PbProblem, Witness};
use proof_laws::{Goal, GoalProof, Line, Why};
use scut_base::{NoMemory, Partial};
use std::alloc::Global;

// How many lines a proof may have.
const LINE_LIMIT: u64 = 1 << 61;

// The conditions that all lines have: the proof goes on, there is room for one line more, and each
// variable that is written is one of the state's.
pub(crate) fn judge_common(reached: &Reached, line: &Line) -> Result<(), StepFault>
    ensures verdict { IsVerdict (λ f. f ≡ common_fault reached.now line.now) result }
    ensures state { IsState reached.now }
{
    if reached.ended {
        return Err(StepFault::Refused(Why::AfterEnd));
    }
    if reached.lines >= LINE_LIMIT {
        return Err(StepFault::Refused(Why::LogLong));
    }
    match written_above(line, reached.vars) {
        Some(above) => Err(StepFault::Refused(Why::VarRange(above))),
        None => Ok(()),
    }
}

// The constraint that the tokens of a `pol` line make; other lines make none so.
pub(crate) fn value_made(
    alloc: Global,
    reached: &Reached,
    line: &Line,
) -> Result<Option<Constraint>, StepFault>
    ensures verdict { IsVerdict (IsValueFault reached.now line.now) result }
    ensures made { IfOk result (IsValueMade reached.now line.now) }
{
    match line {
        Line::Pol { tokens } => {
            let made = evaluated(alloc, reached, None, None, tokens.as_slice())?;
            Ok(Some(made))
        }
        _ => Ok(None),
    }
}

// The conditions of the line's own rule. The tokens of a `pol` line are known to make a constraint.
pub(crate) fn judge_rule(
    alloc: Global,
    problem: &PbProblem,
    reached: &Reached,
    room: &mut Room,
    line: &Line,
) -> Result<(), StepFault>
    requires before { StandsBefore problem.now reached.now line.now }
    requires variables { reached.now.vars ≤ length room.old.scratch }
    requires written { range_fault reached.now.vars (written line.now) ≡ None }
    requires value { IsValueFault reached.now line.now None }
    requires index { IsIndex room.old.index.count room.old.index.entries reached.now }
    ensures verdict { IsVerdict (IsRuleFault problem.now reached.now line.now) result }
    ensures length { length room.new.scratch ≡ length room.old.scratch }
    ensures index { IsIndex room.new.index.count room.new.index.entries reached.now }
    ensures rows { IsRowIndex room.old.index.count room.old.index.entries problem.now.rows
        → IsRowIndex room.new.index.count room.new.index.entries problem.now.rows }
{
    match line {
        Line::Pol { .. } => Ok(()),
        Line::Rup { goal, hints } => judge_rup(
            alloc,
            reached,
            &mut room.scratch,
            goal,
            hints.as_slice(),
        ),
        Line::Learn { goal, hints } => judge_learn(
            alloc,
            reached,
            &mut room.scratch,
            goal,
            hints.as_slice(),
        ),
        Line::Def { var, sum } => judge_definition(reached, *var, sum),
        Line::Red {
            goal,
            witness,
            proofs,
        } => judge_red(
            alloc,
            problem,
            reached,
            room,
            goal,
            witness,
            proofs.as_slice(),
        ),
        Line::Dom {
            goal,
            witness,
            proofs,
        } => judge_dom(
            alloc,
            problem,
            reached,
            room,
            goal,
            witness,
            proofs.as_slice(),
        ),
        Line::Sol { model, cut, rows } => {
            let (model, cut, rows) = (model.as_slice(), cut.as_slice(), rows.as_slice());
            let _model = judge_solution(alloc, problem, reached, model, cut, rows)?;
            Ok(())
        }
        Line::Del { ids } => judge_deletion(problem, reached, ids.as_slice()),
        Line::Reduce { ids } => judge_deletion(problem, reached, ids.as_slice()),
        Line::End { id } => judge_end(reached, *id),
    }
}

// It is a clause, and follows by propagation.
fn judge_learn(
    alloc: Global,
    reached: &Reached,
    scratch: &mut Partial,
    goal: &Constraint,
    hints: &[Hint],
) -> Result<(), StepFault>
    requires variables { reached.now.vars ≤ length scratch.old }
    requires goal { UpTo reached.now.vars goal.now }
    ensures verdict { IsVerdict
        (FirstOf (fault_unless (is_clause goal.now) Why.NotClause)
        (IsRupFault reached.now goal.now hints.now))
        result }
    ensures length { length scratch.new ≡ length scratch.old }
{
    if !goal.is_clause() {
        return Err(StepFault::Refused(Why::NotClause));
    }
    judge_rup(alloc, reached, scratch, goal, hints)
}

// What breaks the constraint still satisfies all lines after the substitution, and costs no more.
fn judge_red(
    alloc: Global,
    problem: &PbProblem,
    reached: &Reached,
    room: &mut Room,
    goal: &Constraint,
    witness: &Witness,
    proofs: &[(Goal, GoalProof)],
) -> Result<(), StepFault>
    requires variables { reached.now.vars ≤ length room.old.scratch }
    requires goal { UpTo reached.now.vars goal.now }
    requires images { ImagesUpTo reached.now.vars witness.now }
    requires fits { Fits problem.now reached.now }
    requires index { IsIndex room.old.index.count room.old.index.entries reached.now }
    ensures verdict { IsVerdict (IsSubstitutionFault reached.now goal.now proofs.now
        (redundance problem.now reached.now witness.now goal.now)) result }
    ensures length { length room.new.scratch ≡ length room.old.scratch }
    ensures index { IsIndex room.new.index.count room.new.index.entries reached.now }
    ensures rows { IsRowIndex room.old.index.count room.old.index.entries problem.now.rows
        → IsRowIndex room.new.index.count room.new.index.entries problem.now.rows }
{
    let denied = negation_of(alloc, goal)?;
    let touched = touched_rows(alloc, problem, reached, &mut room.index, witness)?;
    let line = Substitution {
        goal,
        denied: &denied,
        witness,
        proofs,
        touched: touched.as_slice(),
    };
    judge_redundance(alloc, problem, reached, &mut room.scratch, &line)
}

// What breaks the constraint is a model of the problem after the substitution, and costs less in sum.
fn judge_dom(
    alloc: Global,
    problem: &PbProblem,
    reached: &Reached,
    room: &mut Room,
    goal: &Constraint,
    witness: &Witness,
    proofs: &[(Goal, GoalProof)],
) -> Result<(), StepFault>
    requires variables { reached.now.vars ≤ length room.old.scratch }
    requires goal { UpTo reached.now.vars goal.now }
    requires images { ImagesUpTo reached.now.vars witness.now }
    requires fits { Fits problem.now reached.now }
    requires index { IsIndex room.old.index.count room.old.index.entries reached.now }
    ensures verdict { IsVerdict (IsSubstitutionFault reached.now goal.now proofs.now
        (dominance problem.now witness.now)) result }
    ensures length { length room.new.scratch ≡ length room.old.scratch }
    ensures index { IsIndex room.new.index.count room.new.index.entries reached.now }
    ensures rows { IsRowIndex room.old.index.count room.old.index.entries problem.now.rows
        → IsRowIndex room.new.index.count room.new.index.entries problem.now.rows }
{
    let denied = negation_of(alloc, goal)?;
    let touched = touched_rows(alloc, problem, reached, &mut room.index, witness)?;
    let line = Substitution {
        goal,
        denied: &denied,
        witness,
        proofs,
        touched: touched.as_slice(),
    };
    judge_dominance(alloc, problem, reached, &mut room.scratch, &line)
}

// The places of the problem's rows that the witness may touch, by the index, which is made anew where it
// has fewer rows. An empty witness touches none, and asks for no index.
fn touched_rows(
    alloc: Global,
    problem: &PbProblem,
    reached: &Reached,
    index: &mut RowIndex,
    witness: &Witness,
) -> Result<Vec<usize>, NoMemory>
    requires fits { Fits problem.now reached.now }
    requires index { IsIndex index.old.count index.old.entries reached.now }
    ensures touched { IfOk result (λ v. HaveTouched witness.now problem.now.rows v.items) }
    ensures index { IsIndex index.new.count index.new.entries reached.now }
    ensures rows { IsRowIndex index.old.count index.old.entries problem.now.rows
        → IsRowIndex index.new.count index.new.entries problem.now.rows }
{
    // Tells that it is a state.
    let _vars = reached.vars;
    if witness.images().is_empty() {
        return Ok(Vec::new(alloc));
    }
    let rows = problem.rows();
    if index.count < rows.len() {
        *index = RowIndex::of_rows(alloc, rows)?;
    }
    index.touched(alloc, witness, rows.len())
}

// Each id is that of a live line that is no row of the problem.
fn judge_deletion(problem: &PbProblem, reached: &Reached, ids: &[u64]) -> Result<(), StepFault>
    ensures { IsVerdict (λ f. f ≡ deletion_fault problem.now reached.now ids.now) result }
{
    for id in ids {
        if !is_deletable(problem, reached, *id) {
            return Err(StepFault::Refused(Why::NoSuchId(*id)));
        }
    }
    Ok(())
}

// Whether an id is that of a live line that is no row of the problem.
fn is_deletable(problem: &PbProblem, reached: &Reached, id: u64) -> bool
    ensures { result ≡ is_deletable problem.now reached.now id }
{
    id > problem.rows().len() as u64 && reached.live.get(id).is_some()
}

// The line of this id is a contradiction.
fn judge_end(reached: &Reached, id: u64) -> Result<(), StepFault>
    ensures { IsVerdict (λ f. f ≡ end_fault (get reached.now.live id) id) result }
{
    let Some(line) = reached.live.get(id) else {
        return Err(StepFault::Refused(Why::NoSuchId(id)));
    };
    if line.len() > 0 || line.degree() == 0 {
        return Err(StepFault::Refused(Why::NotContradiction(id)));
    }
    Ok(())
}
