// A proof in memory, whose calls fail where they are told to.
ghost use Rattle.std.specs.Prelude.{◌≡◌, ◌↔◌, ◌^◌, ◌++◌, ◌∷◌, ◌+◌, [], true, false, length, MatchBool, IfOk, OnOk, OnErr, IsErrOf};
ghost use Rattle.scut_base.specs.Faults.{Rose, one_more};
ghost use Rattle.proof_laws.specs.WellFormed.{IsWellFormed};
ghost use Rattle.proof_laws.specs.Legal.{IsLegal};
ghost use Rattle.proof_rules.specs.Recording.{KeepsRecorder, MayBeAdded, IsNextId};
ghost use Rattle.proof_text.specs.Recorders.{no_lines, memory_seen, IsPlanned, Counts, IsKept};

use crate::keeping::{advance, is_full, pop_last, push_copy, start};
use pb_lin::PbProblem;
use proof_laws::Line;
use proof_rules::{ProofState, RecordFault, Recorder};
use scut_base::{Items, NoMemory};
use std::alloc::Global;
use std::marker::Model;

/// Keeps a proof in memory. It serves tests, and searches whose proof isn't wanted.
#[derive(Drop)]
pub struct MemRecorder {
    alloc: Global,
    problem: PbProblem,
    lines: Items<Line>,
    state: ProofState,
    // How many calls of `add_line` there were, and the number of the one that is to fail.
    calls: u64,
    fail_at: u64,
    faults: u64,
    broken: bool,
}

impl Model for MemRecorder {
    ghost use Rattle.std.specs.Coded.{codes};
    ghost use Rattle.pb_lin.specs.LineCodes.{line_code};
    ghost use Rattle.proof_text.specs.Recorders.{MemoryLog, IsKept};

    ghost Value = { MemoryLog };

    ghost coded = { Prim.hlevel (codes, line_code) };

    ghost view = { λ r. record {
      problem = r.problem;
      lines = r.lines;
      state = r.state;
      calls = r.calls;
      fail_at = r.fail_at;
      faults = r.faults;
      broken = r.broken;
    } };

    ghost invariant = { λ r. IsKept r.problem r.lines r.state };
}

impl MemRecorder {
    /// No lines yet. Call `fail_at` of `add_line`, counted from 1, answers `Failed`; none does where
    /// it is 0. Calls that answer `Full` aren't counted. Copies the problem; `NoMemory` where memory
    /// was refused.
    pub fn new(alloc: Global, problem: &PbProblem, fail_at: u64) -> Result<MemRecorder, NoMemory>
        ensures { IfOk result (λ r. r ≡ no_lines problem.now fail_at) }
    {
        let (problem, state) = start(alloc, problem)?;
        Ok(MemRecorder {
            alloc,
            problem,
            lines: Items::new(alloc),
            state,
            calls: 0,
            fail_at,
            faults: 0,
            broken: false,
        })
    }

    /// The lines so far.
    pub fn lines(&self) -> &[Line]
        ensures { result.now ≡ self.now.lines }
    {
        self.lines.as_slice()
    }

    // Counts a call, and says whether it is to fail.
    fn count_call(&mut self) -> bool
        ensures planned { MatchBool result (IsPlanned self.old) (IsPlanned self.old → ⊥) }
        ensures counted { self.new ≡ record self.old { calls = one_more self.old.calls } }
    {
        let planned = self.calls.checked_add(1) == Some(self.fail_at);
        self.calls = self.calls.saturating_add(1);
        planned
    }

    // Counts a fault.
    fn count_fault(&mut self)
        ensures { self.new ≡ record self.old { faults = one_more self.old.faults; broken = true } }
    {
        self.faults = self.faults.saturating_add(1);
        self.broken = true;
    }
}

// The trait's clauses stand first, and then what the call counts, exactly.
impl Recorder for MemRecorder {
    ghost use Rattle.proof_text.specs.Recorders.{memory_seen};

    ghost seen = { memory_seen };

    fn add_line(&mut self, line: &Line) -> Result<u64, RecordFault>
        requires formed { IsWellFormed line.now }
        requires legal { MayBeAdded self.old.problem self.old.lines line.now }
        requires whole { self.old.broken ≡ false }
        ensures added { OnOk result (self.new.lines ≡ self.old.lines ++ line.now ∷ []) }
        ensures id { IfOk result (IsNextId self.old.problem self.old.lines) }
        ensures whole { OnOk result (self.new.broken ≡ false) }
        ensures kept { OnErr result (self.new.lines ≡ self.old.lines) }
        ensures full { IsErrOf result RecordFault.Full ↔ (length self.old.lines ≡ 2 ^ 61) }
        ensures full_same { IsErrOf result RecordFault.Full → self.new ≡ self.old }
        ensures failed { IsErrOf result RecordFault.Failed → Rose self.old.faults self.new.faults }
        ensures failed_broken { IsErrOf result RecordFault.Failed → self.new.broken ≡ true }
        ensures short_broken { IsErrOf result RecordFault.NoMemory → self.new.broken ≡ true }
        ensures keeps { KeepsRecorder (memory_seen self.old) (memory_seen self.new) }
        ensures counts { Counts self.old result self.new }
        ensures plan { self.new.fail_at ≡ self.old.fail_at }
    {
        if is_full(&self.lines, &self.state) {
            return Err(RecordFault::Full);
        }
        if self.count_call() {
            self.count_fault();
            return Err(RecordFault::Failed);
        }
        match keep_line(
            self.alloc,
            &self.problem,
            &mut self.lines,
            &mut self.state,
            line,
        ) {
            Ok(id) => Ok(id),
            Err(NoMemory) => {
                self.broken = true;
                Err(RecordFault::NoMemory)
            }
        }
    }

    fn state(&self) -> &ProofState {
        &self.state
    }
}

// Keeps a line that is legal. After `NoMemory` nothing has changed.
fn keep_line(
    alloc: Global,
    problem: &PbProblem,
    lines: &mut Items<Line>,
    state: &mut ProofState,
    line: &Line,
) -> Result<u64, NoMemory>
    requires kept { IsKept problem.now lines.old state.old }
    requires formed { IsWellFormed line.now }
    requires legal { IsLegal problem.now state.old line.now }
    ensures added { OnOk result (lines.new ≡ lines.old ++ line.now ∷ []) }
    ensures id { IfOk result (IsNextId problem.now lines.old) }
    ensures kept { IsKept problem.now lines.new state.new }
    ensures lines { OnErr result (lines.new ≡ lines.old) }
    ensures state { OnErr result (state.new ≡ state.old) }
{
    push_copy(alloc, lines, line)?;
    match advance(problem, state, line) {
        Ok(id) => Ok(id),
        Err(NoMemory) => {
            pop_last(lines);
            Err(NoMemory)
        }
    }
}
