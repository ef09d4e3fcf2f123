// Lines that are judged on a state that somebody else keeps.
ghost use Rattle.std.specs.Prelude.{◌≡◌, IsOk, IfOk, IfErr};
ghost use Rattle.proof_laws.specs.WellFormed.{IsWellFormed};
ghost use Rattle.proof_laws.specs.State.{Fits};
ghost use Rattle.proof_laws.specs.Legal.{IsLegal};
ghost use Rattle.proof_rules.specs.Verdict.{IsReason, IsValueFault, IsVerdict};

use crate::judging::{judge_common, judge_rule, value_made};
use crate::reached::Reached;
use crate::room::Room;
use crate::row_index::RowIndex;
use crate::{ProofState, StepFault};
use pb_lin::PbProblem;
use proof_laws::Line;
use scut_base::{NoMemory, Partial};
use std::alloc::Global;
use std::marker::Model;

/// Judges lines on states of proofs over one problem, and takes none up: for who makes a line of which
/// nothing is known, and adds it only where it is legal. Besides it keeps a partial assignment and an
/// index of the problem's rows, which contracts don't see.
#[derive(Debug, Drop)]
pub struct Judge<'a> {
    alloc: Global,
    problem: &'a PbProblem,
    room: Room,
}

impl<'a> Model for Judge<'a> {
    ghost use Rattle.pb_lin.specs.Problem.{ProblemValue};
    ghost use Rattle.proof_rules.specs.RowIndex.{IsRowIndex};

    ghost Value = { ProblemValue };

    ghost view = { λ j. j.problem.now };

    ghost invariant = { λ j. IsRowIndex j.room.index.count j.room.index.entries j.problem.now.rows };
}

impl<'a> Judge<'a> {
    /// A judge of lines over the problem. It takes room for a partial assignment as it needs it.
    pub fn new(alloc: Global, problem: &'a PbProblem) -> Result<Judge<'a>, NoMemory>
        ensures { IfOk result (λ j. j ≡ problem.now) }
    {
        Ok(Judge {
            alloc,
            problem,
            room: Room {
                scratch: Partial::new(alloc, 0)?,
                index: RowIndex::new(alloc),
            },
        })
    }

    /// Whether the line is legal on the state. `Refused` with the first condition that fails, in the
    /// order of the rule book; `NoMemory` where memory was refused. It costs what `step` costs but for
    /// taking the line up; the first `red` or `dom` makes the index, which stays for later lines, on
    /// whichever states.
    pub fn judge(&mut self, state: &ProofState, line: &Line) -> Result<(), StepFault>
        requires fits { Fits self.old state.now }
        requires formed { IsWellFormed line.now }
        ensures legal { IsOk result → IsLegal self.old state.now line.now }
        ensures refused { IfErr result (IsReason self.old state.now line.now) }
        ensures same { self.new ≡ self.old }
    {
        // Tells that the problem is within its limits.
        let _vars = self.problem.vars();
        let reached = state.reached();
        self.room.scratch.grow(reached.vars)?;
        judge_common(reached, line)?;
        judge_value(self.alloc, reached, line)?;
        judge_rule(self.alloc, self.problem, reached, &mut self.room, line)
    }
}

// Whether the tokens of a `pol` line make a constraint.
fn judge_value(alloc: Global, reached: &Reached, line: &Line) -> Result<(), StepFault>
    ensures { IsVerdict (IsValueFault reached.now line.now) result }
{
    let _made = value_made(alloc, reached, line)?;
    Ok(())
}
