// The solver as an oracle: it answers under assumptions, or with a core of them (Eén and Sörensson 2003).
ghost use Rattle.std.specs.Prelude.{◌≡◌, true, false, IfOk};
ghost use Rattle.oracle.specs.Solving.{AreAssumptions, IsCoreClause, IsOrderly, IsWithin, lesser};
ghost use Rattle.cdcl_core.specs.Work.{Answers, Ends, ImpliesOnly, IsDone, Reached, StepsFrom};

use crate::Solver;
use clause_prop::Propagator;
use oracle::{Answer, Oracle, OracleFault};
use proof_rules::Recorder;
use scut_base::Lit;

impl<R: Recorder + Drop, P: Propagator + Drop> Oracle for Solver<R, P> {
    fn solve(&mut self, assumptions: &[Lit]) -> Result<Answer, OracleFault> {
        // While it works nothing is promised of it.
        self.broken = true;
        let result = self.answer(assumptions);
        self.broken = !is_orderly(&result);
        result
    }

    fn solve_limited(&mut self, assumptions: &[Lit], most: u64) -> Result<Answer, OracleFault> {
        let limit = self.limit;
        self.limit = Some(lesser(limit, most));
        let result = self.solve(assumptions);
        self.limit = limit;
        result
    }
}

// The lesser of the two limits.
fn lesser(limit: Option<u64>, most: u64) -> u64
    ensures { result ≡ lesser limit most }
{
    match limit {
        Some(limit) if limit < most => limit,
        _ => most,
    }
}

impl<R: Recorder + Drop, P: Propagator + Drop> Solver<R, P> {
    // Takes up what was added, and searches.
    fn answer(&mut self, assumptions: &[Lit]) -> Result<Answer, OracleFault>
        requires begun { self.old.broken ≡ true }
        requires done { IsDone R.seen self.old }
        requires unended { Reached R.seen self.old (λ s. s.ended ≡ false) }
        requires assumptions { Reached R.seen self.old
            (λ s. AreAssumptions s.vars assumptions.now) }
        requires within { IsWithin self.old.limit (R.seen self.old.recorder).problem
            (R.seen self.old.recorder).lines }
        ensures answer { IfOk result (Answers R.seen self.new assumptions.now) }
        ensures ends { Ends R.seen self.old self.new result }
        ensures steps { StepsFrom R.seen self.old self.new }
        ensures implied { ImpliesOnly R.seen self.old self.new (IsCoreClause result) }
    {
        self.take_up()?;
        self.run(assumptions)
    }
}

// An answer, or all clauses spent.
fn is_orderly(told: &Result<Answer, OracleFault>) -> bool
    ensures orderly { result ≡ true → IsOrderly told.now }
    ensures other { result ≡ false → IsOrderly told.now → ⊥ }
{
    match told {
        Ok(_) => true,
        Err(OracleFault::Spent { learned: _ }) => true,
        Err(_) => false,
    }
}
