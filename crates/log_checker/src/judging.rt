// Lines of a log, judged one by one.
ghost use Rattle.std.specs.Prelude.{◌≡◌, ◌↔◌, ◌<◌, ◌≤◌, ◌+◌, ◌⊎◌, ℕ, List, length, All, true, IsTrue, IfErr, OnOk, OnErr, Ok, Err};
ghost use Rattle.front_set.specs.Vector.{is_below};
ghost use Rattle.pb_lin.specs.Problem.{ProblemValue};
ghost use Rattle.proof_laws.specs.Legal.{IsNext};
ghost use Rattle.proof_laws.specs.State.{Fits};
ghost use Rattle.proof_laws.specs.WellFormed.{IsWellFormed};
ghost use Rattle.proof_laws.specs.declared.line.Line.{Line};
ghost use Rattle.proof_text.specs.LogText.{HoldsNoFurtherLine};
ghost use Rattle.log_checker.specs.Accepted.{IsCovered};
ghost use Rattle.log_checker.specs.declared.fault.ListWhy.{ListWhy};
ghost use Rattle.log_checker.specs.Judging.{HasEnded, IsLineReason, IsReading, IsUnderway};
ghost use Rattle.log_checker.specs.Judging.{JudgesEnd, JudgesLines, JudgesNext, StandsAt, left};

use crate::CheckFault;
use front_set::CostVec;
use pb_lin::PbProblem;
use proof_laws::{Line, Why};
use proof_rules::{ProofState, StepFault};
use proof_text::{LineReader, TextFault};

// Takes up the whole lines that the reader holds, up to the first that is refused.
pub(crate) fn judge_lines(
    problem: &PbProblem,
    vectors: &[CostVec],
    reader: &mut LineReader,
    state: &mut ProofState,
) -> Result<(), CheckFault>
    requires fits { Fits problem.now state.old }
    requires reading { IsReading reader.old }
    ensures fits { Fits problem.now state.new }
    ensures reading { IsReading reader.new }
    ensures no_list { (k : ℕ) (why : ListWhy) → result ≡ Err (CheckFault.ListRefused k why) → ⊥ }
    ensures judged { (bytes : List ℕ) (lines : List Line)
        → IsUnderway problem.now vectors.now reader.old state.old bytes lines
        → JudgesLines problem.now vectors.now reader.new state.new bytes result }
{
    'lines: while judge_next(problem, vectors, reader, state)? {}
    Ok(())
}

// Whether the bytes end where a log may end, and the proof has ended.
pub(crate) fn judge_end(reader: &LineReader, state: &ProofState) -> Result<(), CheckFault>
    ensures settled { OnOk result (HasEnded reader.now state.now) }
    ensures no_list { (k : ℕ) (why : ListWhy) → result ≡ Err (CheckFault.ListRefused k why) → ⊥ }
    ensures judged { (p : ProblemValue) (vectors : _) (bytes : List ℕ) (lines : List Line)
        → IsUnderway p vectors reader.now state.now bytes lines → HoldsNoFurtherLine bytes lines
        → JudgesEnd p vectors bytes result }
{
    match reader.finish() {
        Ok(()) => {}
        Err(TextFault::Syntax { line }) => return Err(refusal(line, Why::Syntax)),
        Err(TextFault::NoMemory) => return Err(CheckFault::NoMemory),
    }
    if !state.ended() {
        return Err(refusal(next_number(state), Why::NoEnd));
    }
    Ok(())
}

// Takes up the next line, or answers that there is none.
fn judge_next(
    problem: &PbProblem,
    vectors: &[CostVec],
    reader: &mut LineReader,
    state: &mut ProofState,
) -> Result<bool, CheckFault>
    requires fits { Fits problem.now state.old }
    requires reading { IsReading reader.old }
    ensures fits { Fits problem.now state.new }
    ensures reading { IsReading reader.new }
    ensures smaller { result ≡ Ok true → left reader.new < left reader.old }
    ensures no_list { (k : ℕ) (why : ListWhy) → result ≡ Err (CheckFault.ListRefused k why) → ⊥ }
    ensures judged { (bytes : List ℕ) (lines : List Line)
        → IsUnderway problem.now vectors.now reader.old state.old bytes lines
        → JudgesNext problem.now vectors.now reader.new state.new bytes lines result }
{
    let line = match reader.next_line() {
        Ok(Some(line)) => line,
        Ok(None) => return Ok(false),
        Err(TextFault::Syntax { line }) => return Err(refusal(line, Why::Syntax)),
        Err(TextFault::NoMemory) => return Err(CheckFault::NoMemory),
    };
    let number = next_number(state);
    match judge_owned(problem, vectors, state, line) {
        Ok(()) => Ok(true),
        Err(StepFault::Refused(why)) => Err(refusal(number, why)),
        Err(StepFault::NoMemory) => Err(CheckFault::NoMemory),
    }
}

fn refusal(line: u64, why: Why) -> CheckFault
    ensures { result ≡ CheckFault.Refused line why }
{
    CheckFault::Refused { line, why }
}

// The number of the line that comes next: the header is the first.
fn next_number(state: &ProofState) -> u64
    ensures { result ≡ state.now.lines + 2 }
{
    // Tells that there were at most 2^61 lines.
    let _vars = state.vars();
    state.lines() + 2
}

/// Judges one line after a state, and takes it up: `Refused` with the first condition of the rules that it fails,
/// or where it logs a vector that none of these covers, which it has taken up by then; `NoMemory` where memory
/// was refused. Costs the line's step, and the objectives of each vector where it logs one.
pub fn judge_line(
    problem: &PbProblem,
    vectors: &[CostVec],
    state: &mut ProofState,
    line: &Line,
) -> Result<(), StepFault>
    requires fits { Fits problem.now state.old }
    requires formed { IsWellFormed line.now }
    ensures fits { Fits problem.now state.new }
    ensures next { OnOk result (IsNext problem.now state.old line.now state.new) }
    ensures covered { OnOk result (All (IsCovered vectors.now) state.old.sols
        → All (IsCovered vectors.now) state.new.sols) }
    ensures refused { IfErr result (IsLineReason problem.now vectors.now state.old line.now) }
    ensures after { OnErr result ((state.new ≡ state.old)
        ⊎ IsNext problem.now state.old line.now state.new) }
{
    let logged = state.sols().len();
    state.step(problem, line)?;
    judge_logged(vectors, state.sols(), logged)
}

// The same of a line that is handed over.
fn judge_owned(
    problem: &PbProblem,
    vectors: &[CostVec],
    state: &mut ProofState,
    line: Line,
) -> Result<(), StepFault>
    requires fits { Fits problem.now state.old }
    requires formed { IsWellFormed line }
    ensures fits { Fits problem.now state.new }
    ensures next { OnOk result (IsNext problem.now state.old line state.new) }
    ensures covered { OnOk result (All (IsCovered vectors.now) state.old.sols
        → All (IsCovered vectors.now) state.new.sols) }
    ensures refused { IfErr result (IsLineReason problem.now vectors.now state.old line) }
    ensures after { OnErr result ((state.new ≡ state.old)
        ⊎ IsNext problem.now state.old line state.new) }
{
    let logged = state.sols().len();
    state.step_owned(problem, line)?;
    judge_logged(vectors, state.sols(), logged)
}

// Refuses the vector at a place, where there is one and none of these covers it.
fn judge_logged(vectors: &[CostVec], sols: &[CostVec], at: usize) -> Result<(), StepFault>
    ensures covered { OnOk result ((length sols.now ≤ at)
        ⊎ StandsAt (IsCovered vectors.now) sols.now at) }
    ensures refused { IfErr result (λ f. (f ≡ StepFault.Refused (Why.Uncovered (at + 1)))
        × StandsAt (λ sol. IsCovered vectors.now sol → ⊥) sols.now at) }
{
    if let Some(sol) = sols.get(at) {
        if !is_covered(vectors, sol) {
            return Err(StepFault::Refused(Why::Uncovered(at as u64 + 1)));
        }
    }
    Ok(())
}

// Whether some vector is below this one. Costs the objectives of each vector.
fn is_covered(vectors: &[CostVec], sol: &CostVec) -> bool
    ensures { IsTrue result ↔ IsCovered vectors.now sol.now }
{
    vectors.iter().any(|vector| is_below(vector, sol))
}

fn is_below(one: &CostVec, other: &CostVec) -> bool
    ensures { result ≡ is_below one.now other.now }
{
    one.len() == other.len() && one.weakly_dominates(other)
}
