// Lines of which nothing is known, added as far as they are legal.
ghost use Rattle.std.specs.Prelude.{◌≡◌, ◌<◌, ◌≤◌, length, take, All, IsTrue, MatchBool, IfOk, IfErr, IfSome, OnOk, OnErr};
ghost use Rattle.pb_lin.specs.Problem.{IsProblem};
ghost use Rattle.proof_laws.specs.State.{Fits};
ghost use Rattle.proof_laws.specs.Legal.{IsLegal};
ghost use Rattle.proof_laws.specs.WellFormed.{IsWellFormed};
ghost use Rattle.proof_rules.specs.Recording.{KeepsRecorder};
ghost use Rattle.recording.specs.Recorded.{IsClauseNow, IsReady};
ghost use Rattle.recording.specs.Adding.{Adds, IsFaultAt};
ghost use Rattle.recording.specs.Advice.{AdvisedStaysEarned, EndsAdvised, IsConservative, TakenEndsAdvised, TakesAdvice, TakesFirst, TakesSome};

use crate::formed::is_formed;
use crate::memory::in_memory;
use pb_lin::Constraint;
use proof_laws::Line;
use proof_rules::{Judge, ProofState, RecordFault, Recorder, StepFault};
use scut_base::{Duplicate, NoMemory};
use std::alloc::Global;

/// Judges and records these lines in order, up to the first that a log can't spell, that is neither a derived or
/// implied constraint, a definition nor a redundant constraint, or that isn't legal; answers how many were added.
/// Nothing of the lines has to be believed. A recorder's refusal is handed on, as is a want of memory.
pub fn take_advice<R: Recorder>(
    judge: &mut Judge<'_>,
    rec: &mut R,
    lines: &[Line],
) -> Result<usize, RecordFault>
    requires ready { IsReady (R.seen rec.old) }
    requires same { (R.seen rec.old).problem ≡ judge.old }
    requires problem { IsProblem judge.old }
    ensures taken { IfOk result (TakesFirst (R.seen rec.old) (R.seen rec.new) lines.now) }
    ensures some { TakesSome (R.seen rec.old) (R.seen rec.new) lines.now }
    ensures ready { OnOk result (IsReady (R.seen rec.new)) }
    ensures fault { IfErr result (IsFaultAt (R.seen rec.old) (R.seen rec.new)) }
    ensures judge { judge.new ≡ judge.old }
{
    for at in 0..lines.len() {
        if !take_line(judge, rec, &lines[at])? {
            return Ok(at);
        }
    }
    Ok(lines.len())
}

/// The same of conservative lines: up to the first that is of another kind too.
pub fn take_conservative<R: Recorder>(
    judge: &mut Judge<'_>,
    rec: &mut R,
    lines: &[Line],
) -> Result<usize, RecordFault>
    requires ready { IsReady (R.seen rec.old) }
    requires same { (R.seen rec.old).problem ≡ judge.old }
    requires problem { IsProblem judge.old }
    ensures taken { IfOk result (TakesFirst (R.seen rec.old) (R.seen rec.new) lines.now) }
    ensures conservative { Adds IsConservative (R.seen rec.old) (R.seen rec.new) }
    ensures ready { OnOk result (IsReady (R.seen rec.new)) }
    ensures fault { IfErr result (IsFaultAt (R.seen rec.old) (R.seen rec.new)) }
    ensures judge { judge.new ≡ judge.old }
{
    let count = conservative_run(lines);
    take_advice(judge, rec, &lines[..count])
}

// How many lines at the head are definitions, or say of themselves that they follow from live ones.
fn conservative_run(lines: &[Line]) -> usize
    ensures bound { result ≤ length lines.now }
    ensures conservative { All IsConservative (take result lines.now) }
{
    let mut count = 0;
    while count < lines.len() && is_conservative(&lines[count]) {
        count += 1;
    }
    count
}

// Whether the line is of such a kind.
fn is_conservative(line: &Line) -> bool
    ensures { IsTrue result → IsConservative line.now }
{
    match line {
        Line::Def { .. } => true,
        Line::Pol { .. } => true,
        Line::Rup { .. } => true,
        Line::Red { witness, .. } => witness.images().is_empty(),
        _ => false,
    }
}

// Records the line, where it may be taken; else `false`, and nothing was added.
fn take_line<R: Recorder>(
    judge: &mut Judge<'_>,
    rec: &mut R,
    line: &Line,
) -> Result<bool, RecordFault>
    requires ready { IsReady (R.seen rec.old) }
    requires same { (R.seen rec.old).problem ≡ judge.old }
    requires problem { IsProblem judge.old }
    ensures took { IfOk result (λ took. MatchBool took
        (TakesAdvice (R.seen rec.old) (R.seen rec.new) line.now)
        (R.seen rec.new ≡ R.seen rec.old)) }
    ensures fault { IfErr result (IsFaultAt (R.seen rec.old) (R.seen rec.new)) }
    ensures kept { OnErr result ((R.seen rec.new).lines ≡ (R.seen rec.old).lines) }
    ensures keeps { KeepsRecorder (R.seen rec.old) (R.seen rec.new) }
    ensures judge { judge.new ≡ judge.old }
{
    if !is_formed(line) {
        return Ok(false);
    }
    if !in_memory(is_legal(judge, rec.state(), line))? {
        return Ok(false);
    }
    rec.add_line(line)?;
    // Tells that the lines still reach a state.
    let _state = rec.state();
    Ok(true)
}

// Whether the line is legal on the state.
fn is_legal(judge: &mut Judge<'_>, state: &ProofState, line: &Line) -> Result<bool, NoMemory>
    requires fits { Fits judge.old state.now }
    requires formed { IsWellFormed line.now }
    ensures legal { IfOk result (λ legal. IsTrue legal → IsLegal judge.old state.now line.now) }
    ensures judge { judge.new ≡ judge.old }
{
    match judge.judge(state, line) {
        Ok(()) => Ok(true),
        Err(StepFault::Refused(_)) => Ok(false),
        Err(StepFault::NoMemory) => Err(NoMemory),
    }
}

/// Law: where lines were taken, `last_clause` may be asked.
pub fn taken_ends_advised()
    ensures { TakenEndsAdvised }
{}

/// Law: such lines leave what was earned, and learn nothing.
pub fn advised_stays_earned()
    ensures { AdvisedStaysEarned }
{}

/// A clause that a line states, with its id.
#[derive(Debug, Drop)]
pub struct ClauseLine {
    pub id: u64,
    pub clause: Constraint,
}

/// What the last line has stated, where that is a live clause. Costs a copy of it.
pub fn last_clause<R: Recorder>(alloc: Global, rec: &R) -> Result<Option<ClauseLine>, NoMemory>
    requires last { EndsAdvised (R.seen rec.now) }
    ensures { IfOk result (λ line. IfSome line (λ l. IsClauseNow (R.seen rec.now) l.id l.clause)) }
{
    let state = rec.state();
    // Tells that it is a state.
    let _vars = state.vars();
    let id = state.next_id() - 1;
    let Some(found) = state.live().get(id) else {
        return Ok(None);
    };
    if !found.is_clause() {
        return Ok(None);
    }
    let clause = found.copy(alloc)?;
    Ok(Some(ClauseLine { id, clause }))
}
