// States of a proof (DECISIONS, step-owned).
ghost use Rattle.std.specs.Prelude.{◌≡◌, None, IfOk, IfErr, OnOk, OnErr};
ghost use Rattle.proof_laws.specs.WellFormed.{IsWellFormed};
ghost use Rattle.proof_laws.specs.State.{IsState, Fits, start};
ghost use Rattle.proof_laws.specs.Legal.{IsLegal, IsNext};
ghost use Rattle.proof_rules.specs.Verdict.{IsReason, IsValueFault, IsValueMade};

use crate::StepFault;
use crate::judging::{judge_common, judge_rule, value_made};
use crate::reached::Reached;
use crate::room::Room;
use crate::row_index::RowIndex;
use crate::taking_up::{take_up, take_up_owned};
use front_set::CostVec;
use pb_lin::{Constraint, Lines, PbProblem};
use proof_laws::Line;
use scut_base::{NoMemory, Partial};
use std::alloc::Global;
use std::marker::Model;

/// What a proof over a problem has reached: the live constraints, the logged vectors and the counts.
/// Besides it keeps a partial assignment for propagation and an index of the problem's rows, which
/// contracts don't see.
#[derive(Debug, Drop)]
pub struct ProofState {
    alloc: Global,
    reached: Reached,
    room: Room,
}

impl Model for ProofState {
    ghost use Rattle.std.specs.Prelude.{◌≤◌, length};
    ghost use Rattle.proof_laws.specs.State.{StateValue};
    ghost use Rattle.proof_rules.specs.RowIndex.{IsIndex};
    ghost use Rattle.proof_rules.specs.StateCode.{state_code};

    ghost Value = { StateValue };

    ghost coded = { state_code };

    ghost view = { λ s. s.reached };

    ghost invariant = { λ s. (s.reached.vars ≤ length s.room.scratch)
        × IsIndex s.room.index.count s.room.index.entries s.reached };
}

impl ProofState {
    /// The start: the problem's rows are live with ids from 1 on, in order.
    pub fn new(alloc: Global, problem: &PbProblem) -> Result<ProofState, NoMemory>
        ensures start { IfOk result (λ s. s ≡ start problem.now) }
        ensures fits { IfOk result (λ s. Fits problem.now s) }
    {
        Ok(ProofState {
            alloc,
            reached: Reached::new(alloc, problem)?,
            room: Room {
                scratch: Partial::new(alloc, problem.vars())?,
                index: RowIndex::new(alloc),
            },
        })
    }

    /// The number of variables.
    pub fn vars(&self) -> u64
        ensures value { result ≡ self.now.vars }
        ensures state { IsState self.now }
    {
        self.reached.vars
    }

    /// The constraints that may be used, by their ids.
    pub fn live(&self) -> &Lines
        ensures { result.now ≡ self.now.live }
    {
        &self.reached.live
    }

    /// The id that the next constraint gets.
    pub fn next_id(&self) -> u64
        ensures { result ≡ self.now.next_id }
    {
        self.reached.next_id
    }

    /// The costs of the logged models, in order.
    pub fn sols(&self) -> &[CostVec]
        ensures { result.now ≡ self.now.sols }
    {
        self.reached.sols.as_slice()
    }

    /// How many lines there were.
    pub fn lines(&self) -> u64
        ensures { result ≡ self.now.lines }
    {
        self.reached.lines
    }

    /// How many clauses were learned.
    pub fn learned(&self) -> u64
        ensures { result ≡ self.now.learned }
    {
        self.reached.learned
    }

    /// Whether the proof has ended.
    pub fn ended(&self) -> bool
        ensures { result ≡ self.now.ended }
    {
        self.reached.ended
    }

    // The same, as it is kept.
    pub(crate) fn reached(&self) -> &Reached
        ensures { result.now ≡ self.now }
    {
        &self.reached
    }

    /// Takes a line up, where it is legal. `Refused` with the first condition that fails, in the order
    /// of the rule book, where it isn't; `NoMemory` where memory was refused; after either nothing has
    /// changed.
    ///
    /// A `rup` or `learn` line costs its hints' lines and its own; `pol` its evaluation; `dom` its
    /// witness and the goals of the problem's rows that this touches; `red` the same, a walk over the
    /// live lines that are no rows, and the goals of those that its witness touches; `sol` the problem's
    /// rows; `del` its ids. The first `red` or `dom` also makes an index of the problem's rows, which
    /// takes 16 bytes for each literal of theirs, and sorts them; so does one that comes with a problem
    /// of more rows.
    pub fn step(&mut self, problem: &PbProblem, line: &Line) -> Result<(), StepFault>
        requires fits { Fits problem.now self.old }
        requires formed { IsWellFormed line.now }
        ensures next { OnOk result (IsNext problem.now self.old line.now self.new) }
        ensures refused { IfErr result (IsReason problem.now self.old line.now) }
        ensures same { OnErr result (self.new ≡ self.old) }
        ensures fits { OnOk result (Fits problem.now self.new) }
    {
        // Tells that the problem is within its limits.
        let _vars = problem.vars();
        judge_common(&self.reached, line)?;
        let made = value_made(self.alloc, &self.reached, line)?;
        judge_rule(self.alloc, problem, &self.reached, &mut self.room, line)?;
        take_up(
            self.alloc,
            problem,
            &mut self.reached,
            &mut self.room.scratch,
            line,
            made,
        )?;
        Ok(())
    }

    /// The same of a line that is handed over. A constraint that it gives stays without being copied, with the
    /// room that its list has.
    pub fn step_owned(&mut self, problem: &PbProblem, line: Line) -> Result<(), StepFault>
        requires fits { Fits problem.now self.old }
        requires formed { IsWellFormed line }
        ensures next { OnOk result (IsNext problem.now self.old line self.new) }
        ensures refused { IfErr result (IsReason problem.now self.old line) }
        ensures same { OnErr result (self.new ≡ self.old) }
        ensures fits { OnOk result (Fits problem.now self.new) }
    {
        // Tells that the problem is within its limits.
        let _vars = problem.vars();
        judge_common(&self.reached, &line)?;
        let made = value_made(self.alloc, &self.reached, &line)?;
        judge_rule(self.alloc, problem, &self.reached, &mut self.room, &line)?;
        take_up_owned(
            self.alloc,
            problem,
            &mut self.reached,
            &mut self.room.scratch,
            line,
            made,
        )?;
        Ok(())
    }

    /// Takes up a line that is known to be legal, without judging it again. `NoMemory` where memory was
    /// refused, and then nothing has changed. Costs the size of the line, for `pol` its evaluation, and
    /// for `sol` the terms of the objectives.
    pub fn advance(&mut self, problem: &PbProblem, line: &Line) -> Result<(), NoMemory>
        requires fits { Fits problem.now self.old }
        requires formed { IsWellFormed line.now }
        requires legal { IsLegal problem.now self.old line.now }
        ensures next { OnOk result (IsNext problem.now self.old line.now self.new) }
        ensures same { OnErr result (self.new ≡ self.old) }
        ensures fits { OnOk result (Fits problem.now self.new) }
    {
        // Tells that the problem is within its limits.
        let _vars = problem.vars();
        let made = legal_value(self.alloc, &self.reached, line)?;
        take_up(
            self.alloc,
            problem,
            &mut self.reached,
            &mut self.room.scratch,
            line,
            made,
        )
    }
}

// The constraint that the tokens of a `pol` line make, of which it is known that they make one.
fn legal_value(
    alloc: Global,
    reached: &Reached,
    line: &Line,
) -> Result<Option<Constraint>, NoMemory>
    requires { IsValueFault reached.now line.now None }
    ensures made { IfOk result (IsValueMade reached.now line.now) }
    ensures state { IsState reached.now }
{
    // Tells that it is a state.
    let _vars = reached.vars;
    match value_made(alloc, reached, line) {
        Ok(made) => Ok(made),
        Err(StepFault::NoMemory) => Err(NoMemory),
        Err(StepFault::Refused(_)) => unreachable!(),
    }
}
