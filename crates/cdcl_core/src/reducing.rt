// Reductions: a search lets go of most of its learned clauses.
ghost use Rattle.std.specs.Prelude.{◌≡◌, ◌<◌, ◌⊎◌, OnOk, map};
ghost use Rattle.cdcl_core.specs.Ledgers.{EndsLearned, IsDue, IsPart, left};
ghost use Rattle.cdcl_core.specs.Work.{Ends, IsWorking, KeepsLed, LearnsAlone, NamesLearned, Reached, StepsFrom};

use crate::Solver;
use crate::choosing::Choice;
use crate::ledger::LearnedClause;
use crate::recording::record;
use crate::taking::drop_deleted;
use clause_prop::Propagator;
use oracle::OracleFault;
use proof_laws::Line;
use proof_rules::Recorder;
use scut_base::Items;

impl<R: Recorder + Drop, P: Propagator + Drop> Solver<R, P> {
    // Makes the reduction that is due directly after a learned line, if one is. The k-th stands
    // directly after learned line 1000·(2^k − 1) of the run, there are 40 at most, and each names
    // learned lines alone, which nothing but reductions deletes.
    pub(crate) fn reduce_where_due(&mut self) -> Result<(), OracleFault>
        requires working { IsWorking R.seen self.old }
        requires last { EndsLearned (R.seen self.old.recorder).lines }
        ensures working { OnOk result (IsWorking R.seen self.new) }
        ensures ends { Ends R.seen self.old self.new result }
        ensures steps { StepsFrom R.seen self.old self.new }
        ensures learns { LearnsAlone R.seen self.old self.new }
        ensures fewer { OnOk result (((self.new.search.trail ≡ self.old.search.trail)
            × (self.new.ledger.reductions ≡ self.old.ledger.reductions))
            ⊎ (left self.new.ledger.reductions < left self.old.ledger.reductions)) }
        ensures vars { self.new.search.trail.vars ≡ self.old.search.trail.vars }
        ensures led { OnOk result (KeepsLed self.old.search.trail self.new.search.trail) }
    {
        let learned = self.recorder.state().learned();
        if self.ledger.is_due(learned) {
            return self.reduce();
        }
        Ok(())
    }

    // Makes a reduction. A line that names nothing isn't allowed, and without it no later reduction is ever due.
    fn reduce(&mut self) -> Result<(), OracleFault>
        requires working { IsWorking R.seen self.old }
        requires last { EndsLearned (R.seen self.old.recorder).lines }
        requires due { Reached R.seen self.old (λ s. IsDue self.old.ledger.reductions s.learned) }
        ensures working { OnOk result (IsWorking R.seen self.new) }
        ensures ends { Ends R.seen self.old self.new result }
        ensures steps { StepsFrom R.seen self.old self.new }
        ensures learns { LearnsAlone R.seen self.old self.new }
        ensures fewer { OnOk result
            (left self.new.ledger.reductions < left self.old.ledger.reductions) }
        ensures vars { self.new.search.trail.vars ≡ self.old.search.trail.vars }
        ensures led { OnOk result (KeepsLed self.old.search.trail self.new.search.trail) }
    {
        let Choice { named, kept } = self.ledger.choose(self.alloc, &self.search)?;
        if named.is_empty() {
            self.ledger.stop();
            return Ok(());
        }
        self.reduce_by(&Line::Reduce { ids: named }, kept)
    }

    // Records a reduction and drops its lines; nothing stays on the trail, where they may be reasons. The line is lent,
    // since to own it past two ways out takes several times as long to prove.
    #[tactic(auto, using(crate::proofs::Working::record_stops))]
    fn reduce_by(&mut self, line: &Line, kept: Items<LearnedClause>) -> Result<(), OracleFault>
        requires working { IsWorking R.seen self.old }
        requires last { EndsLearned (R.seen self.old.recorder).lines }
        requires due { Reached R.seen self.old (λ s. IsDue self.old.ledger.reductions s.learned) }
        requires names { NamesLearned self.old line.now }
        requires kept { IsPart (map (λ c. c.id) kept) self.old.ledger.ids }
        ensures working { OnOk result (IsWorking R.seen self.new) }
        ensures ends { Ends R.seen self.old self.new result }
        ensures steps { StepsFrom R.seen self.old self.new }
        ensures learns { LearnsAlone R.seen self.old self.new }
        ensures fewer { OnOk result
            (left self.new.ledger.reductions < left self.old.ledger.reductions) }
        ensures vars { self.new.search.trail.vars ≡ self.old.search.trail.vars }
        ensures led { OnOk result (KeepsLed self.old.search.trail self.new.search.trail) }
    {
        record(&mut self.recorder, line)?;
        // Tells that the lines reach a state.
        let _vars = self.recorder.state().vars();
        drop_deleted(&mut self.search, line);
        self.ledger.note(line);
        self.ledger.keep(kept);
        Ok(())
    }
}
