// What a search learns from a conflict.
ghost use Rattle.std.specs.Prelude.{◌≡◌, ◌<◌, ◌≤◌, ◌^◌, OnOk};
ghost use Rattle.cdcl_trail.specs.Rank.{rank};
ghost use Rattle.cdcl_state.specs.Analysis.{IsLesson};
ghost use Rattle.oracle.specs.declared.fault.OracleFault.TheVariants.{Spent, Full};
ghost use Rattle.cdcl_core.specs.Ledgers.{EndsLearned};
ghost use Rattle.cdcl_core.specs.Work.{Ends, IsWorking, KeepsLed, LearnsAlone, StepsFrom};
ghost use Rattle.cdcl_core.specs.Learnable.{IsForcedBySome, IsLearnable, MayLearn};

use crate::Solver;
use crate::distance::block_distance;
use crate::recording::{learned_goal, record};
use cdcl_state::Lesson;
use clause_prop::Propagator;
use oracle::OracleFault;
use pb_lin::Constraint;
use proof_laws::Line;
use proof_rules::{ProofState, Recorder};
use scut_base::Lit;

impl<R: Recorder + Drop, P: Propagator + Drop> Solver<R, P> {
    // Jumps back to where the clause of a lesson forces its literal, records and stores the clause, and adds the step.
    // `Spent` where no clause may be learned any more; then only the trail was cut.
    pub(crate) fn learn(&mut self, lesson: Lesson) -> Result<(), OracleFault>
        requires working { IsWorking R.seen self.old }
        requires lesson { IsLesson self.old.search.store self.old.search.trail lesson }
        ensures working { OnOk result (IsWorking R.seen self.new) }
        ensures ends { Ends R.seen self.old self.new result }
        ensures steps { StepsFrom R.seen self.old self.new }
        ensures learns { LearnsAlone R.seen self.old self.new }
        ensures rises { OnOk result (rank self.old.search.trail < rank self.new.search.trail) }
        ensures vars { self.new.search.trail.vars ≡ self.old.search.trail.vars }
        ensures led { OnOk result (KeepsLed self.old.search.trail self.new.search.trail) }
        ensures last { OnOk result (EndsLearned (R.seen self.new.recorder).lines) }
        ensures number { self.new.ledger.reductions ≡ self.old.ledger.reductions }
    {
        // Tells that the trail is one of a search.
        let _level = self.search.level();
        let distance = block_distance(self.alloc, &self.search, lesson.lits.as_slice())?;
        let Lesson {
            lits,
            lit,
            level,
            hints,
            met: _,
        } = lesson;
        self.search.back_to(level);
        let line = Line::Learn {
            goal: Constraint::clause(lits),
            hints,
        };
        self.learn_line(&line, lit, level, distance)
    }

    // The same after the jump back. The line is lent, since to own it past more ways out takes long to prove.
    fn learn_line(
        &mut self,
        line: &Line,
        lit: Lit,
        level: u64,
        distance: u64,
    ) -> Result<(), OracleFault>
        requires working { IsWorking R.seen self.old }
        requires learnable { IsLearnable self.old.search level lit line.now }
        ensures working { OnOk result (IsWorking R.seen self.new) }
        ensures ends { Ends R.seen self.old self.new result }
        ensures steps { StepsFrom R.seen self.old self.new }
        ensures learns { LearnsAlone R.seen self.old self.new }
        ensures forced { OnOk result
            (IsForcedBySome self.old.search.trail self.new.search.trail lit level) }
        ensures vars { self.new.search.trail.vars ≡ self.old.search.trail.vars }
        ensures last { OnOk result (EndsLearned (R.seen self.new.recorder).lines) }
        ensures number { self.new.ledger.reductions ≡ self.old.ledger.reductions }
    {
        let state = self.recorder.state();
        let learned = state.learned();
        if self.limit == Some(learned) {
            return Err(spent(state, learned));
        }
        self.add_learned(line, lit, level, distance)
    }

    // Records the line of a learned clause after the jump back, stores the clause, and adds the step that it forces.
    #[tactic(auto, using(crate::proofs::Working::record_stops))]
    fn add_learned(
        &mut self,
        line: &Line,
        lit: Lit,
        level: u64,
        distance: u64,
    ) -> Result<(), OracleFault>
        requires working { IsWorking R.seen self.old }
        requires learnable { IsLearnable self.old.search level lit line.now }
        requires more { MayLearn self.old.limit (R.seen self.old.recorder).problem
            (R.seen self.old.recorder).lines }
        ensures working { OnOk result (IsWorking R.seen self.new) }
        ensures ends { Ends R.seen self.old self.new result }
        ensures steps { StepsFrom R.seen self.old self.new }
        ensures learns { LearnsAlone R.seen self.old self.new }
        ensures forced { OnOk result
            (IsForcedBySome self.old.search.trail self.new.search.trail lit level) }
        ensures vars { self.new.search.trail.vars ≡ self.old.search.trail.vars }
        ensures last { OnOk result (EndsLearned (R.seen self.new.recorder).lines) }
        ensures number { self.new.ledger.reductions ≡ self.old.ledger.reductions }
    {
        let id = record(&mut self.recorder, line)?;
        // Tells that the lines reach a state.
        let _vars = self.recorder.state().vars();
        self.search.learn(id, learned_goal(line), lit, level)?;
        self.next = id + 1;
        self.ledger.push(id, distance)?;
        Ok(())
    }
}

// What is answered where the limit of learned clauses is reached and one more would be learned.
fn spent(state: &ProofState, learned: u64) -> OracleFault
    ensures full { 2 ^ 61 ≤ state.now.lines → result ≡ Full }
    ensures spent { state.now.lines < 2 ^ 61 → result ≡ Spent learned }
{
    if state.lines() >= 1 << 61 {
        return OracleFault::Full;
    }
    OracleFault::Spent { learned }
}
