// The line that logs a model.
ghost use Rattle.std.specs.Prelude.{◌≡◌, ◌↔◌, ◌<◌, ◌^◌, length, All, IsTrue, MatchBool, IfOk, IfErr, OnOk, OnErr};
ghost use Rattle.pb_lin.specs.Problem.{IsProblem, IsProblemModel};
ghost use Rattle.proof_laws.specs.State.{Fits};
ghost use Rattle.proof_laws.specs.Legal.{IsLegal};
ghost use Rattle.proof_laws.specs.Refusal.{literals_at};
ghost use Rattle.proof_laws.specs.WellFormed.{AreRisingLiterals, IsId, IsWellFormed};
ghost use Rattle.proof_laws.specs.declared.line.Line.TheVariants.{Sol};
ghost use Rattle.proof_rules.specs.Recording.{KeepsRecorder};
ghost use Rattle.sum_outputs.specs.Adding.{IsFaultAt, IsReady};
ghost use Rattle.search_base.specs.Cutting.{AreAlike, AreAnswersAt, IsModelLine, LogsModel, answered_literals};
ghost use Rattle.search_base.specs.Good.{GoesOn};
ghost use Rattle.search_base.specs.Logged.{AddsTakenLines};
ghost use Rattle.search_base.specs.Pending.{AddsLine, LogsByCut, MayNotAdd, MayNotLog};

use crate::cut::{cut_of, lines_of};
use pb_lin::PbProblem;
use proof_laws::Line;
use proof_rules::{Judge, ProofState, RecordFault, Recorder, StepFault};
use scut_base::{Assignment, Items, Lit, NoMemory};
use std::alloc::Global;
use sum_outputs::in_memory;
use totalizer::Bound;

// Logs the model, with the cut of what stands for its costs. Costs a pass over the model, and a sort of the
// cut.
pub(crate) fn log_model<R: Recorder>(
    alloc: Global,
    rec: &mut R,
    model: &Assignment,
    answers: &[Bound],
) -> Result<(), RecordFault>
    requires ready { IsReady (R.seen rec.old) }
    requires problem { IsProblem (R.seen rec.old).problem }
    requires model { IsProblemModel (R.seen rec.old).problem model.now }
    requires answers { AreAnswersAt (R.seen rec.old).problem (R.seen rec.old).lines
        model.now answers.now }
    requires alike { AreAlike (answered_literals answers.now) }
    ensures logged { OnOk result (LogsModel (R.seen rec.old)
        (R.seen rec.new) model.now answers.now) }
    ensures fault { IfErr result (IsFaultAt (R.seen rec.old) (R.seen rec.new)) }
    ensures goes_on { GoesOn (R.seen rec.old) (R.seen rec.new) }
    ensures lines { AddsTakenLines (R.seen rec.old).lines (R.seen rec.new).lines }
{
    // Tells that the lines so far reach a state.
    let _vars = rec.state().vars();
    let line = in_memory(model_line(alloc, model, answers))?;
    rec.add_line(&line)?;
    // And that they still do.
    let _state = rec.state();
    Ok(())
}

// The line that logs the model, with the cut of these answers.
fn model_line(alloc: Global, model: &Assignment, answers: &[Bound]) -> Result<Line, NoMemory>
    requires alike { AreAlike (answered_literals answers.now) }
    requires long { length model.now < 2 ^ 63 }
    ensures { IfOk result (IsModelLine model.now answers.now) }
{
    let cut = cut_of(alloc, answers)?;
    let named = lines_of(alloc, answers)?;
    line_by_cut(alloc, model, cut, named)
}

// Logs the model by this cut and the ids of these lines, where a text can spell that line and it is legal; else
// `false`, and nothing was added. Costs a pass over the model, and what judging the line does.
pub(crate) fn log_by_cut<R: Recorder>(
    alloc: Global,
    rec: &mut R,
    problem: &PbProblem,
    model: &Assignment,
    cut: Items<Lit>,
    rows: Items<u64>,
) -> Result<bool, RecordFault>
    requires ready { IsReady (R.seen rec.old) }
    requires same { (R.seen rec.old).problem ≡ problem.now }
    requires problem { IsProblem problem.now }
    requires model { IsProblemModel problem.now model.now }
    ensures logged { IfOk result (λ logged. MatchBool logged
        (LogsByCut (R.seen rec.old) (R.seen rec.new) model.now cut rows)
        (MayNotLog (R.seen rec.old) model.now cut rows × (R.seen rec.new ≡ R.seen rec.old))) }
    ensures fault { IfErr result (IsFaultAt (R.seen rec.old) (R.seen rec.new)) }
    ensures lines { AddsTakenLines (R.seen rec.old).lines (R.seen rec.new).lines }
    ensures goes_on { GoesOn (R.seen rec.old) (R.seen rec.new) }
{
    // Tells that the lines so far reach a state.
    let _vars = rec.state().vars();
    if !is_spelled(cut.as_slice(), rows.as_slice()) {
        return Ok(false);
    }
    let line = in_memory(line_by_cut(alloc, model, cut, rows))?;
    add_legal(alloc, rec, problem, &line)
}

// Whether a text can spell them: the cut's variables rise, and no id is too high.
fn is_spelled(cut: &[Lit], rows: &[u64]) -> bool
    ensures { IsTrue result ↔ (AreRisingLiterals cut.now × All IsId rows.now) }
{
    variables_rise(cut) && rows.iter().all(|id| *id < 1 << 63)
}

// Whether each literal's variable is above that of the one before it.
fn variables_rise(lits: &[Lit]) -> bool
    ensures { IsTrue result ↔ AreRisingLiterals lits.now }
{
    for at in 0..lits.len() {
        let var = lits[at].var();
        if 0 < at && var <= lits[at - 1].var() {
            return false;
        }
    }
    true
}

// The line that logs the model by this cut and the ids of these lines.
fn line_by_cut(
    alloc: Global,
    model: &Assignment,
    cut: Items<Lit>,
    rows: Items<u64>,
) -> Result<Line, NoMemory>
    requires { length model.now < 2 ^ 63 }
    ensures { IfOk result (λ line. line ≡ Sol (literals_at 1 model.now) cut rows) }
{
    Ok(Line::Sol {
        model: literals_of(alloc, model)?,
        cut,
        rows,
    })
}

// Adds the line, where it is legal; else `false`, and nothing was added. The line is lent, so that none lies across
// the ways out. Costs what judging it does.
fn add_legal<R: Recorder>(
    alloc: Global,
    rec: &mut R,
    problem: &PbProblem,
    line: &Line,
) -> Result<bool, RecordFault>
    requires ready { IsReady (R.seen rec.old) }
    requires same { (R.seen rec.old).problem ≡ problem.now }
    requires problem { IsProblem problem.now }
    requires formed { IsWellFormed line.now }
    ensures added { IfOk result (λ added. MatchBool added
        (AddsLine (R.seen rec.old) (R.seen rec.new) line.now)
        (MayNotAdd (R.seen rec.old) line.now × (R.seen rec.new ≡ R.seen rec.old))) }
    ensures fault { IfErr result (IsFaultAt (R.seen rec.old) (R.seen rec.new)) }
    ensures kept { OnErr result ((R.seen rec.new).lines ≡ (R.seen rec.old).lines) }
    ensures keeps { KeepsRecorder (R.seen rec.old) (R.seen rec.new) }
{
    if !in_memory(is_legal(alloc, problem, rec.state(), line))? {
        return Ok(false);
    }
    rec.add_line(line)?;
    // Tells that the lines still reach a state.
    let _state = rec.state();
    Ok(true)
}

// Whether the line is legal on the state.
fn is_legal(
    alloc: Global,
    problem: &PbProblem,
    state: &ProofState,
    line: &Line,
) -> Result<bool, NoMemory>
    requires fits { Fits problem.now state.now }
    requires formed { IsWellFormed line.now }
    ensures { IfOk result (λ legal. IsTrue legal ↔ IsLegal problem.now state.now line.now) }
{
    let mut judge = Judge::new(alloc, problem)?;
    match judge.judge(state, line) {
        Ok(()) => Ok(true),
        Err(StepFault::Refused(_)) => Ok(false),
        Err(StepFault::NoMemory) => Err(NoMemory),
    }
}

// The true literals, in order of variables.
fn literals_of(alloc: Global, a: &Assignment) -> Result<Items<Lit>, NoMemory>
    requires { length a.now < 2 ^ 63 }
    ensures { IfOk result (λ lits. lits ≡ literals_at 1 a.now) }
{
    let mut lits = Items::new(alloc);
    let mut var = 0;
    for value in a.as_slice() {
        var += 1;
        lits.push(Lit::new(var, !*value))?;
    }
    Ok(lits)
}
