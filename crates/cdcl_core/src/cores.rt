// Cores: assumptions that can't all be true, and a line that says so (DECISIONS, core-clause).
ghost use Rattle.std.specs.Prelude.{◌≡◌, ◌<◌, ◌≤◌, ◌⊎◌, [], true, Some, All, AllPairs, IfOk, IfSome, IsOkAnd, map};
ghost use Rattle.std.specs.FinMap.{get};
ghost use Rattle.pb_lin.specs.Constraint.{opposite};
ghost use Rattle.proof_laws.specs.Steps.{clause};
ghost use Rattle.clause_prop.specs.Propagating.{IsConflict};
ghost use Rattle.cdcl_trail.specs.SearchTrail.{IsUndecided};
ghost use Rattle.cdcl_trail.specs.Learning.{AreHints};
ghost use Rattle.cdcl_state.specs.Analysis.{IsDecided, IsForcedFalse};
ghost use Rattle.oracle.specs.Solving.{IsCore};
ghost use Rattle.cdcl_core.specs.Work.{Ends, ImpliesOnly, IsOfCore, IsWorking, Reached, StepsFrom};

use crate::Solver;
use crate::recording::record_made;
use cdcl_state::{Blame, Search};
use clause_prop::Propagator;
use hint_rup::Hint;
use oracle::{Core, OracleFault};
use pb_lin::Constraint;
use proof_laws::Line;
use proof_rules::Recorder;
use scut_base::{Items, Lit, NoMemory};
use std::alloc::Global;

/// The opposite of each literal.
fn opposites(alloc: Global, lits: &[Lit]) -> Result<Items<Lit>, NoMemory>
    ensures { IfOk result (λ r. r ≡ map opposite lits.now) }
{
    let mut result = Items::with_capacity(alloc, lits.len())?;
    for lit in lits {
        result.push(lit.not())?;
    }
    Ok(result)
}

/// The id of a hinted line that is the clause of these literals.
fn hinted_clause<P: Propagator + Drop>(
    search: &Search<P>,
    lits: &[Lit],
    hints: &[Hint],
) -> Option<u64>
    ensures { IfSome result (λ id. get search.now.store id ≡ Some (clause lits.now)) }
{
    for hint in hints {
        if let Some(id) = clause_id(search, lits, *hint) {
            return Some(id);
        }
    }
    None
}

// The hint's id where its line is the clause of these literals.
fn clause_id<P: Propagator + Drop>(search: &Search<P>, lits: &[Lit], hint: Hint) -> Option<u64>
    ensures { IfSome result (λ id. get search.now.store id ≡ Some (clause lits.now)) }
{
    let Hint::Id(id) = hint else {
        return None;
    };
    match search.line(id) {
        Some(line) => {
            if line.is_clause() && line.literals() == lits {
                return Some(id);
            }
            None
        }
        None => None,
    }
}

impl<R: Recorder + Drop, P: Propagator + Drop> Solver<R, P> {
    // Names a live line that is the clause of these literals: a hinted one, or one that is recorded now.
    #[tactic(auto, using(crate::proofs::Working::record_stops))]
    fn name_clause(&mut self, lits: Items<Lit>, hints: Items<Hint>) -> Result<u64, OracleFault>
        requires working { IsWorking R.seen self.old }
        requires rising { AllPairs (λ l m. l.var < m.var) lits }
        requires within { All (λ l. (0 < l.var) × (l.var ≤ self.old.search.trail.vars)) lits }
        requires hints { AreHints self.old.search.store self.old.search.trail.vars lits hints }
        ensures named { IfOk result
            (λ id. Reached R.seen self.new (λ s. get s.live id ≡ Some (clause lits))) }
        ensures ends { Ends R.seen self.old self.new result }
        ensures steps { StepsFrom R.seen self.old self.new }
        ensures implied { ImpliesOnly R.seen self.old self.new
            (λ goal. IsOkAnd result (λ _. goal ≡ clause lits)) }
    {
        if let Some(id) = hinted_clause(&self.search, lits.as_slice(), hints.as_slice()) {
            return Ok(id);
        }
        let goal = Constraint::clause(lits);
        let id = record_made(&mut self.recorder, Line::Rup { goal, hints })?;
        // Tells that the lines reach a state.
        let _vars = self.recorder.state().vars();
        Ok(id)
    }

    // Answers that the assumptions can't all be true, where one is false by a step that a line forces.
    pub(crate) fn blame(&mut self, lit: Lit) -> Result<Core, OracleFault>
        requires working { IsWorking R.seen self.old }
        requires falsified { IsForcedFalse self.old.search.trail lit }
        ensures core { IfOk result
            (λ core. Reached R.seen self.new (IsCore core.lits core.lits core.id)) }
        ensures among { IfOk result
            (λ core. All (λ m. (m ≡ lit) ⊎ IsDecided self.old.search.trail m) core.lits) }
        ensures ends { Ends R.seen self.old self.new result }
        ensures steps { StepsFrom R.seen self.old self.new }
        ensures implied { ImpliesOnly R.seen self.old self.new (IsOfCore result) }
    {
        // Tells that the trail is one of a search.
        let _level = self.search.level();
        let Blame { lits, hints } = self.search.blame(lit)?;
        let clause = opposites(self.alloc, lits.as_slice())?;
        let id = self.name_clause(clause, hints)?;
        Ok(Core { lits, id })
    }

    // Answers that nothing satisfies the lines, where one is violated and nothing is decided.
    pub(crate) fn refute(&mut self, conflict: u64) -> Result<Core, OracleFault>
        requires working { IsWorking R.seen self.old }
        requires conflict { IsConflict self.old.search.store self.old.search.trail conflict }
        requires undecided { IsUndecided self.old.search.trail }
        ensures core { IfOk result (λ core. Reached R.seen self.new (IsCore [] core.lits core.id)) }
        ensures none { IfOk result (λ core. core.lits ≡ []) }
        ensures ends { Ends R.seen self.old self.new result }
        ensures steps { StepsFrom R.seen self.old self.new }
        ensures implied { ImpliesOnly R.seen self.old self.new (IsOfCore result) }
    {
        let hints = self.search.refute(conflict)?;
        let id = self.name_clause(Items::new(self.alloc), hints)?;
        Ok(Core {
            lits: Items::new(self.alloc),
            id,
        })
    }
}
