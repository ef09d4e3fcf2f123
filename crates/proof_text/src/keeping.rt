// What each recorder does with a line.
ghost use Rattle.std.specs.Prelude.{List, ◌≡◌, ◌≢◌, ◌^◌, ◌++◌, ◌∷◌, [], length, IfOk, OnOk, OnErr, MatchBool};
ghost use Rattle.proof_laws.specs.declared.line.Line.{Line};
ghost use Rattle.proof_laws.specs.WellFormed.{IsWellFormed};
ghost use Rattle.proof_laws.specs.State.{IsState, Fits, start};
ghost use Rattle.proof_laws.specs.Legal.{IsLegal, IsNext};

use pb_lin::PbProblem;
use proof_laws::Line;
use proof_rules::ProofState;
use scut_base::{Duplicate, Items, NoMemory};
use std::alloc::Global;

// How many lines a proof may have.
pub const MAX_LINES: u64 = 1 << 61;

/// Whether there is no room for a line more. Its second clause tells that it is a state.
pub fn is_full(lines: &Items<Line>, state: &ProofState) -> bool
    ensures full { MatchBool result (length lines.now ≡ 2 ^ 61) (length lines.now ≢ 2 ^ 61) }
    ensures state { IsState state.now }
{
    // Tells that it is a state.
    let _vars = state.vars();
    lines.len() as u64 == MAX_LINES
}

/// A copy of the problem, and the state of a proof over it that has no lines.
pub fn start(alloc: Global, problem: &PbProblem) -> Result<(PbProblem, ProofState), NoMemory>
    ensures problem { IfOk result (λ parts. parts.0 ≡ problem.now) }
    ensures state { IfOk result (λ parts. parts.1 ≡ start problem.now) }
    ensures fits { IfOk result (λ parts. Fits problem.now parts.1) }
{
    Ok((problem.copy(alloc)?, ProofState::new(alloc, problem)?))
}

/// Puts a copy of a line at the end. After `NoMemory` nothing has changed.
pub fn push_copy(alloc: Global, lines: &mut Items<Line>, line: &Line) -> Result<(), NoMemory>
    ensures ok { OnOk result (lines.new ≡ lines.old ++ line.now ∷ []) }
    ensures err { OnErr result (lines.new ≡ lines.old) }
{
    let copy = line.copy(alloc)?;
    lines.push(copy)
}

/// Takes the last line off. In constant time, but for the line's memory.
pub fn pop_last(lines: &mut Items<Line>)
    ensures { (before : List Line) (line : Line)
        → lines.old ≡ before ++ line ∷ [] → lines.new ≡ before }
{
    let _ = lines.pop();
}

/// Takes up a line that is legal, and answers the first id that it makes, if it makes one. After
/// `NoMemory` nothing has changed.
pub fn advance(problem: &PbProblem, state: &mut ProofState, line: &Line) -> Result<u64, NoMemory>
    requires fits { Fits problem.now state.old }
    requires formed { IsWellFormed line.now }
    requires legal { IsLegal problem.now state.old line.now }
    ensures id { IfOk result (λ id. id ≡ state.old.next_id) }
    ensures next { OnOk result (IsNext problem.now state.old line.now state.new) }
    ensures fits { OnOk result (Fits problem.now state.new) }
    ensures same { OnErr result (state.new ≡ state.old) }
{
    let id = state.next_id();
    state.advance(problem, line)?;
    Ok(id)
}
