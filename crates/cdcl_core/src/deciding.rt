// What a search does where nothing is left to propagate: it decides a literal, or answers.
ghost use Rattle.std.specs.Prelude.{◌≡◌, ◌≢◌, ◌≤◌, true, false, Some, All, Contains, IfOk, IfSome, IfNone};
ghost use Rattle.scut_base.specs.Assignment.{partial_truth};
ghost use Rattle.clause_prop.specs.Steps.{partial};
ghost use Rattle.clause_prop.specs.Propagating.{IsClosedFor};
ghost use Rattle.oracle.specs.Solving.{AreAssumptions};
ghost use Rattle.cdcl_core.specs.Work.{Ends, ImpliesOnly, IsAnsweredCore, IsLed, IsProgress, IsWorking, StepsFrom};

use crate::Solver;
use crate::progress::Progress;
use cdcl_laws::stored_model_is_solution;
use cdcl_state::Search;
use clause_prop::Propagator;
use oracle::{Answer, OracleFault};
use proof_rules::Recorder;
use scut_base::Lit;

/// The first of the literals that isn't true.
fn first_unmet<P: Propagator + Drop>(search: &Search<P>, lits: &[Lit]) -> Option<Lit>
    requires { All (λ l. l.var ≤ search.now.trail.vars) lits.now }
    ensures unmet { IfSome result (λ l. Contains lits.now l
        × (partial_truth (partial search.now.trail) l ≢ Some true)) }
    ensures met { IfNone result
        (All (λ l. partial_truth (partial search.now.trail) l ≡ Some true) lits.now) }
{
    for lit in lits {
        if !is_true(search, *lit) {
            return Some(*lit);
        }
    }
    None
}

// Whether the literal is true.
fn is_true<P: Propagator + Drop>(search: &Search<P>, lit: Lit) -> bool
    requires { lit.var ≤ search.now.trail.vars }
    ensures met { result ≡ true → partial_truth (partial search.now.trail) lit ≡ Some true }
    ensures unmet { result ≡ false → partial_truth (partial search.now.trail) lit ≢ Some true }
{
    match search.value(lit) {
        Some(value) => value,
        None => false,
    }
}

impl<R: Recorder + Drop, P: Propagator + Drop> Solver<R, P> {
    // Decides the first assumption that is open, or else an open variable; answers where an assumption is false, or all
    // variables have steps.
    pub(crate) fn decide(&mut self, assumptions: &[Lit]) -> Result<Progress, OracleFault>
        requires working { IsWorking R.seen self.old }
        requires led { IsLed assumptions.now self.old.search.trail }
        requires assumptions { AreAssumptions self.old.search.trail.vars assumptions.now }
        requires closed { IsClosedFor self.old.search.store self.old.search.trail }
        ensures progress { IfOk result (IsProgress R.seen assumptions.now self.old self.new) }
        ensures ends { Ends R.seen self.old self.new result }
        ensures steps { StepsFrom R.seen self.old self.new }
        ensures implied { ImpliesOnly R.seen self.old self.new (IsAnsweredCore result) }
    {
        // Tells that the trail is one of a search.
        let _level = self.search.level();
        match first_unmet(&self.search, assumptions) {
            Some(lit) => {
                if self.search.value(lit).is_none() {
                    self.search.decide(lit);
                    return Ok(Progress::Decided);
                }
                let core = self.blame(lit)?;
                Ok(Progress::Answered(Answer::Unsat(core)))
            }
            None => {
                if self.search.choose() {
                    return Ok(Progress::Decided);
                }
                stored_model_is_solution();
                let model = self.search.model(self.alloc)?;
                Ok(Progress::Answered(Answer::Sat(model)))
            }
        }
    }
}
