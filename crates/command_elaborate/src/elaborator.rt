// Lines with the hints that they need (DECISIONS, elaborate-streams).
ghost use Rattle.std.specs.Prelude.{◌≡◌, false, IfOk, IfErr, OnOk, OnErr};
ghost use Rattle.proof_laws.specs.State.{start};
ghost use Rattle.proof_laws.specs.WellFormed.{IsWellFormed};
ghost use Rattle.command_elaborate.specs.Loose.{is_unhinted, IsLooseNext};
ghost use Rattle.command_elaborate.specs.Reasons.{IsAdded, IsLooseReason};

use crate::adding::add_line;
use crate::fault::ElabFault;
use cdcl_state::Search;
use pb_lin::PbProblem;
use proof_laws::Line;
use proof_rules::ProofState;
use scut_base::{Duplicate, NoMemory};
use std::alloc::Global;
use std::marker::Model;
use watch_prop::WatchProp;

/// A proof that is stepped line by line, with hints found for lines that have none. Contracts see the
/// problem and the state. Besides it keeps the live lines once more, for propagation, with what follows from
/// them alone; a line without hints costs what follows from its negation too.
#[derive(Debug, Drop)]
pub struct Elaborator {
    alloc: Global,
    problem: PbProblem,
    state: ProofState,
    search: Search<WatchProp>,
    // Live lines of lower ids are stored.
    next: u64,
}

impl Model for Elaborator {
    ghost use Rattle.std.specs.Prelude.{◌<◌, ◌≤◌};
    ghost use Rattle.std.specs.Coded.{codes};
    ghost use Rattle.proof_laws.specs.State.{Fits};
    ghost use Rattle.proof_rules.specs.StateCode.{state_code};
    ghost use Rattle.command_elaborate.specs.Kept.{IsKept};
    ghost use Rattle.command_elaborate.specs.Reasons.{Elaboration};

    ghost Value = { Elaboration };

    ghost coded = { Prim.hlevel (codes, state_code) };

    ghost view = { λ e. record { problem = e.problem; state = e.state } };

    ghost invariant = { λ e. Fits e.problem e.state × IsKept e.state e.next e.search };
}

impl Elaborator {
    /// The start of a proof, with a copy of the problem.
    pub fn new(alloc: Global, problem: &PbProblem) -> Result<Elaborator, NoMemory>
        ensures problem { IfOk result (λ e. e.problem ≡ problem.now) }
        ensures state { IfOk result (λ e. e.state ≡ start problem.now) }
    {
        let problem = problem.copy(alloc)?;
        let state = ProofState::new(alloc, &problem)?;
        // Tells that ids count from 1.
        let _vars = state.vars();
        Ok(Elaborator {
            alloc,
            problem,
            state,
            search: Search::new(alloc, WatchProp::new(alloc))?,
            next: 1,
        })
    }

    /// Steps a line, and answers it with hints with which it is legal where it is implied or learned and
    /// has none; any other legal line is answered as it is. `Refused` with the first condition that fails,
    /// where a goal without hints is open if it doesn't follow by propagation; `NoMemory` where memory
    /// was refused; after either nothing has changed.
    pub fn add(&mut self, line: &Line) -> Result<Line, ElabFault>
        requires formed { IsWellFormed line.now }
        ensures added { IfOk result
            (λ new. IsAdded self.old.problem self.old.state line.now new self.new.state) }
        ensures itself { is_unhinted line.now ≡ false → IfOk result (λ new. new ≡ line.now) }
        ensures loosely { OnOk result
            (IsLooseNext self.old.problem self.old.state line.now self.new.state) }
        ensures refused { IfErr result (IsLooseReason self.old.problem self.old.state line.now) }
        ensures same { OnErr result (self.new ≡ self.old) }
        ensures problem { self.new.problem ≡ self.old.problem }
    {
        add_line(
            self.alloc,
            &self.problem,
            &mut self.state,
            &mut self.search,
            &mut self.next,
            line,
        )
    }

    /// The state that the lines so far reach.
    pub fn state(&self) -> &ProofState
        ensures { result.now ≡ self.now.state }
    {
        &self.state
    }
}
