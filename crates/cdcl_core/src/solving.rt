// The search: turns of propagation, learning and decisions.
ghost use Rattle.std.specs.Prelude.{List, IfOk};
ghost use Rattle.scut_base.specs.Literal.{Literal};
ghost use Rattle.clause_prop.specs.Propagating.{IsConflict};
ghost use Rattle.cdcl_trail.specs.SearchTrail.{IsUndecided};
ghost use Rattle.oracle.specs.Solving.{AreAssumptions, IsCoreClause};
ghost use Rattle.cdcl_core.specs.Work.{Answers, Ends, ImpliesOnly, IsAnsweredCore, IsLed, IsProgress, IsWorking, StepsFrom};

use crate::Solver;
use crate::progress::Progress;
use crate::schedule::restart_due;
use clause_prop::Propagator;
use oracle::{Answer, OracleFault};
use proof_rules::Recorder;
use scut_base::Lit;

impl<R: Recorder + Drop, P: Propagator + Drop> Solver<R, P> {
    // Goes on until there is an answer, with restarts (Luby and others 1993 showed that they help; the
    // places are fixed). It ends because the steps of the trail, level by level, are a number that
    // rises between restarts and reductions, of which there are only so many.
    pub(crate) fn run(&mut self, assumptions: &[Lit]) -> Result<Answer, OracleFault>
        requires working { IsWorking R.seen self.old }
        requires undecided { IsUndecided self.old.search.trail }
        requires assumptions { AreAssumptions self.old.search.trail.vars assumptions.now }
        ensures answer { IfOk result (Answers R.seen self.new assumptions.now) }
        ensures ends { Ends R.seen self.old self.new result }
        ensures steps { StepsFrom R.seen self.old self.new }
        ensures implied { ImpliesOnly R.seen self.old self.new (IsCoreClause result) }
    {
        let mut restarts = 0;
        let mut since = 0u64;
        loop {
            if restart_due(since, restarts) {
                restarts += 1;
                since = 0;
                self.search.back_to(0);
                continue;
            }
            match self.turn(assumptions)? {
                Progress::Answered(answer) => return Ok(answer),
                Progress::Learned => since = since.saturating_add(1),
                Progress::Decided => {}
            }
            // Tells that the trail is a search's, whose rank has a limit.
            let _level = self.search.level();
        }
    }

    // Propagates, and then learns from a conflict or decides a literal, or answers.
    fn turn(&mut self, assumptions: &[Lit]) -> Result<Progress, OracleFault>
        requires working { IsWorking R.seen self.old }
        requires led { IsLed assumptions.now self.old.search.trail }
        requires assumptions { AreAssumptions self.old.search.trail.vars assumptions.now }
        ensures progress { IfOk result (IsProgress R.seen assumptions.now self.old self.new) }
        ensures ends { Ends R.seen self.old self.new result }
        ensures steps { StepsFrom R.seen self.old self.new }
        ensures implied { ImpliesOnly R.seen self.old self.new (IsAnsweredCore result) }
    {
        match self.search.propagate()? {
            Some(conflict) => self.learn_from(conflict),
            None => self.decide(assumptions),
        }
    }

    // Learns from a conflict, and makes the reduction that is due directly after that; or answers
    // where nothing is decided.
    fn learn_from(&mut self, conflict: u64) -> Result<Progress, OracleFault>
        requires working { IsWorking R.seen self.old }
        requires conflict { IsConflict self.old.search.store self.old.search.trail conflict }
        ensures progress { (assumptions : List Literal) → IsLed assumptions self.old.search.trail
            → IfOk result (IsProgress R.seen assumptions self.old self.new) }
        ensures ends { Ends R.seen self.old self.new result }
        ensures steps { StepsFrom R.seen self.old self.new }
        ensures implied { ImpliesOnly R.seen self.old self.new (IsAnsweredCore result) }
    {
        if self.search.level() == 0 {
            let core = self.refute(conflict)?;
            return Ok(Progress::Answered(Answer::Unsat(core)));
        }
        let lesson = self.search.lesson(conflict)?;
        self.ledger.use_all(lesson.hints.as_slice());
        self.learn(lesson)?;
        self.reduce_where_due()?;
        Ok(Progress::Learned)
    }
}
