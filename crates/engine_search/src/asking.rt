// Questions to a clause engine.
ghost use Rattle.std.specs.Prelude.{◌≡◌, IfOk, IfSome};
ghost use Rattle.recording.specs.Recorded.{IsReady};
ghost use Rattle.recording.specs.Adding.{IsAdded};
ghost use Rattle.oracle.specs.Solving.{IsAnswer, IsDerived};

use crate::limits::MOST_TICKS;
use crate::models::{proposed, solution_by};
use crate::taking::take_up;
use crate::writing::{core_at, write_needed};
use clause_engine::{Engine, Outcome};
use oracle::Answer;
use pb_lin::PbProblem;
use proof_rules::{Judge, ProofState, RecordFault, Recorder};
use recording::in_memory;
use scut_base::{Lit, NoMemory};
use std::alloc::Global;

/// A clause engine beside a proof of which it knows the lines that it has taken up.
#[derive(Drop)]
pub struct EngineSearch {
    alloc: Global,
    // None until it is asked. In a box, so that whoever owns a search doesn't own all of its parts.
    engine: Option<Box<Engine>>,
    // The first id that isn't taken up, and how many clauses were learned when the engine was made: those may be deleted
    // when more are learned.
    next: u64,
    learned: u64,
    // What questions may still take that stay open. Where that is nothing, none is asked any more.
    ticks: u64,
}

impl EngineSearch {
    /// An engine that knows nothing yet. Takes no memory.
    pub fn new(alloc: Global) -> EngineSearch {
        EngineSearch {
            alloc,
            engine: None,
            next: 1,
            learned: 0,
            ticks: MOST_TICKS,
        }
    }

    /// Whether the assumptions can be true together, as an oracle answers it; `None` where the engine doesn't tell: it has
    /// worked as long as it may, or what it derived isn't legal. A recorder's refusal is handed on, as is a want of memory.
    ///
    /// Costs a pass over the live lines that are new to it, the engine's search, and the lines that its answer needs.
    pub fn ask<R: Recorder>(
        &mut self,
        rec: &mut R,
        problem: &PbProblem,
        assumptions: &[Lit],
    ) -> Result<Option<Answer>, RecordFault>
        requires ready { IsReady (R.seen rec.old) }
        requires problem { (R.seen rec.old).problem ≡ problem.now }
        ensures added { IsAdded IsDerived (R.seen rec.old) (R.seen rec.new) result }
        ensures answer { IfOk result (λ found. IfSome found
            (IsAnswer problem.now (R.seen rec.new).lines assumptions.now)) }
    {
        let Some(mut engine) = in_memory(self.engine_for(rec.state()))? else {
            return Ok(None);
        };
        let told = self.ask_engine(&mut engine, rec, problem, assumptions);
        self.engine = Some(engine);
        told
    }

    // The same of this engine.
    fn ask_engine<R: Recorder>(
        &mut self,
        engine: &mut Engine,
        rec: &mut R,
        problem: &PbProblem,
        assumptions: &[Lit],
    ) -> Result<Option<Answer>, RecordFault>
        requires ready { IsReady (R.seen rec.old) }
        requires problem { (R.seen rec.old).problem ≡ problem.now }
        ensures added { IsAdded IsDerived (R.seen rec.old) (R.seen rec.new) result }
        ensures answer { IfOk result (λ found. IfSome found
            (IsAnswer problem.now (R.seen rec.new).lines assumptions.now)) }
    {
        match in_memory(self.search(engine, rec.state(), problem, assumptions))? {
            Outcome::Model => in_memory(self.model(engine, rec, problem, assumptions)),
            Outcome::Closed => self.close(engine, rec, problem, assumptions),
            Outcome::Unknown => Ok(None),
        }
    }

    // The engine that knows what was taken up, or a new one; none where nothing may be asked any more.
    fn engine_for(&mut self, state: &ProofState) -> Result<Option<Box<Engine>>, NoMemory> {
        if self.ticks == 0 {
            return Ok(None);
        }
        match self.engine.take() {
            Some(engine) if state.learned() == self.learned => Ok(Some(engine)),
            _ => {
                self.next = 1;
                self.learned = state.learned();
                Ok(Some(Box::new(self.alloc, Engine::new(self.alloc))?))
            }
        }
    }

    // Takes up what is new, and searches.
    fn search(
        &mut self,
        engine: &mut Engine,
        state: &ProofState,
        problem: &PbProblem,
        assumptions: &[Lit],
    ) -> Result<Outcome, NoMemory> {
        if !take_up(self.alloc, engine, problem, state, self.next)? {
            self.give_up();
            return Ok(Outcome::Unknown);
        }
        self.next = state.next_id();
        let before = engine.ticks();
        let outcome = engine.solve(assumptions, self.ticks)?;
        if let Outcome::Unknown = outcome {
            let taken = engine.ticks().saturating_sub(before);
            self.ticks = self.ticks.saturating_sub(taken);
        }
        Ok(outcome)
    }

    // Asks nothing any more: there is something that the engine can't take up, or what it answers doesn't hold.
    fn give_up(&mut self) {
        self.ticks = 0;
    }

    // The engine's model, if all holds in it.
    fn model<R: Recorder>(
        &mut self,
        engine: &Engine,
        rec: &R,
        problem: &PbProblem,
        assumptions: &[Lit],
    ) -> Result<Option<Answer>, NoMemory>
        requires { (R.seen rec.now).problem ≡ problem.now }
        ensures { IfOk result (λ found. IfSome found
            (IsAnswer problem.now (R.seen rec.now).lines assumptions.now)) }
    {
        let proposed = proposed(self.alloc, engine, rec.state().vars())?;
        match solution_by(rec, problem, assumptions, proposed) {
            Some(model) => Ok(Some(Answer::Sat(model))),
            None => {
                self.give_up();
                Ok(None)
            }
        }
    }

    // Writes what the engine's answer stands on, and names its core.
    fn close<R: Recorder>(
        &mut self,
        engine: &mut Engine,
        rec: &mut R,
        problem: &PbProblem,
        assumptions: &[Lit],
    ) -> Result<Option<Answer>, RecordFault>
        requires ready { IsReady (R.seen rec.old) }
        requires problem { (R.seen rec.old).problem ≡ problem.now }
        ensures added { IsAdded IsDerived (R.seen rec.old) (R.seen rec.new) result }
        ensures answer { IfOk result (λ found. IfSome found
            (IsAnswer problem.now (R.seen rec.new).lines assumptions.now)) }
    {
        // Tells that the problem is within its limits.
        let _vars = problem.vars();
        let mut judge = in_memory(Judge::new(self.alloc, problem))?;
        if !write_needed(self.alloc, &mut judge, rec, engine)? {
            self.give_up();
            return Ok(None);
        }
        // What was written since is the engine's own, which it knows: taken up, those lines would be clauses that it
        // never gives up, and would name variables that it has eliminated.
        self.next = rec.state().next_id();
        let core = core_at(self.alloc, rec, engine.core_line(), assumptions);
        match in_memory(core)? {
            Some(core) => Ok(Some(Answer::Unsat(core))),
            None => Ok(None),
        }
    }
}
