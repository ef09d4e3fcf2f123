// Literals that stand for "this objective's cost is at least a value".
ghost use Rattle.std.specs.Prelude.{◌≡◌, ◌↔◌, ◌<◌, true, length, slice_index_or, All, IfOk, MatchOption, OnOk};
ghost use Rattle.pb_lin.specs.CostRow.{CostRowValue};
ghost use Rattle.proof_rules.specs.Recording.{Snapshot};
ghost use Rattle.sum_outputs.specs.Adding.{IsReady, IsRecorded};
ghost use Rattle.sum_outputs.specs.Totals.{AreWeights};
ghost use Rattle.search_base.specs.CostBounds.{AddsBound, AreReforms, FitBounds, FitSome, HasLiteral, IsAnswerFor, IsCostBound, IsNextUnmade, IsNextValue, KeepsOthers, reforms_of};
ghost use Rattle.search_base.specs.Pending.{AreOwnTerms};
ghost use Rattle.search_base.specs.Outputs.{IsMadeAt, IsUnmadeAt};
ghost use Rattle.search_base.specs.declared.objective_bound.ObjectiveBound.{ObjectiveBound};

use crate::ObjectiveBound;
use proof_rules::{RecordFault, Recorder};
use scut_base::NoMemory;
use std::alloc::Global;
use std::marker::Model;
use sum_outputs::SumOutput;
use totalizer::{Bound, Reform, fitting_stays, own_lines_stay, reform_stays};

/// The bounds of all objectives of a problem, in order.
#[derive(Drop)]
pub struct Bounds {
    alloc: Global,
    bounds: Vec<ObjectiveBound>,
}

impl Model for Bounds {
    ghost use Rattle.std.specs.Prelude.{List};
    ghost use Rattle.search_base.specs.declared.objective_bound.ObjectiveBound.{ObjectiveBound};

    ghost Value = { List ObjectiveBound };

    ghost view = { λ b. b.bounds.items };
}

impl Bounds {
    /// The bounds of objectives in other terms, of which nothing has been asked. The k-th is that of the
    /// problem's k-th objective. Costs a totalizer for each.
    pub fn new(alloc: Global, reforms: Vec<Reform>) -> Result<Bounds, NoMemory>
        requires { All (λ r. AreWeights r.terms) reforms.items }
        ensures reforms { IfOk result (λ b. reforms_of b ≡ reforms.items) }
        ensures fits { IfOk result (λ b. (a : Snapshot) → AreReforms a reforms.items
            → FitBounds a b) }
    {
        let mut bounds = Vec::new(alloc);
        for reform in reforms {
            bounds.push(ObjectiveBound::new(alloc, reform)?)?;
        }
        Ok(Bounds { alloc, bounds })
    }

    /// What stands for "the objective's cost is at least `value`": `Always` exactly where the value is at most
    /// the offset of the objective's reform, and `Never` exactly where it exceeds all that the reform can be.
    /// The literal of `At` is that of the reform's only term, or a positive one of a variable that is in no
    /// term of a reform. Objectives are counted from 0.
    ///
    /// Costs a look-up where it was asked for before. Else it costs what `Totalizer::output` does, and a line
    /// where the reform has a line and more than one term.
    pub fn at_least<R: Recorder>(
        &mut self,
        rec: &mut R,
        objective: usize,
        value: i64,
    ) -> Result<Bound, RecordFault>
        requires ready { IsReady (R.seen rec.old) }
        requires fits { FitBounds (R.seen rec.old) self.old }
        requires there { objective < length (R.seen rec.old).problem.costs }
        ensures recorded { IsRecorded (R.seen rec.old) (R.seen rec.new) result }
        ensures bound { IfOk result (λ bound. (d : CostRowValue)
            → IsCostBound (R.seen rec.new).problem (R.seen rec.new).lines
            (slice_index_or (R.seen rec.old).problem.costs objective d) value bound) }
        ensures answer { IfOk result (λ bound. (e : ObjectiveBound)
            → IsAnswerFor (slice_index_or self.old objective e).reform value bound) }
        ensures literal { IfOk result (λ bound. (e : ObjectiveBound)
            → HasLiteral (reforms_of self.old) (slice_index_or self.old objective e).reform bound) }
        ensures added { IfOk result (λ bound. (e : ObjectiveBound)
            → AddsBound (R.seen rec.old) (R.seen rec.new) value
            (slice_index_or self.old objective e) (slice_index_or self.new objective e) bound) }
        ensures others { KeepsOthers objective self.old self.new }
        ensures fits { OnOk result (FitBounds (R.seen rec.new) self.new) }
    {
        fitting_stays();
        reform_stays();
        own_lines_stay();
        let bound = &mut self.bounds[objective];
        bound.at_least(self.alloc, rec, value)
    }

    /// The output that stands for "the objective's cost is at least `value`", where it has been made: the literal that
    /// `at_least` answers, the reform's least sum that reaches the value, and the ids of the output's own two lines, which
    /// speak of that sum. `None` only where none was made. Objectives are counted from 0. Costs a binary search.
    pub fn made_for(&self, objective: usize, value: i64) -> Option<&SumOutput>
        requires there { objective < length self.now }
        requires fits { FitSome self.now }
        ensures { (e : ObjectiveBound) → MatchOption result
            (IsUnmadeAt (slice_index_or self.now objective e) value)
            (λ o. IsMadeAt (slice_index_or self.now objective e) value o.now) }
    {
        self.bounds[objective].made_for(value)
    }

    /// Whether no objective's reform has a line: then each is in terms of its own row.
    pub fn are_own_terms(&self) -> bool
        ensures { result ≡ true ↔ AreOwnTerms self.now }
    {
        self.bounds.iter().all(|bound| bound.reform.lower_line == 0)
    }

    /// The upper line of the objective's reform. Objectives are counted from 0.
    pub fn reform_line(&self, objective: usize) -> u64
        requires there { objective < length self.now }
        ensures { (e : ObjectiveBound)
            → result ≡ (slice_index_or self.now objective e).reform.upper_line }
    {
        self.bounds[objective].reform.upper_line
    }

    /// The least value above `value` that the objective's reform can have, where that is known: its offset,
    /// or what an output that was made stands for. Objectives are counted from 0. Costs a binary search.
    pub fn next_value(&self, objective: usize, value: i64) -> Option<i64>
        requires there { objective < length self.now }
        requires fits { FitSome self.now }
        ensures { (e : ObjectiveBound) → MatchOption result
            (IsNextUnmade (slice_index_or self.now objective e) value)
            (IsNextValue (slice_index_or self.now objective e).reform value) }
    {
        self.bounds[objective].next_value(value)
    }
}
