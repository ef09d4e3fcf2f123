// Models that are logged by cuts of which nothing is known, and what makes the state good again.
ghost use Rattle.std.specs.Prelude.{◌≡◌, ◌++◌, ◌∷◌, [], false, take, Bool, List, IfErr, IfOk, MatchBool, OnOk};
ghost use Rattle.instance_normal.specs.Tightened.{tightened};
ghost use Rattle.pb_lin.specs.Problem.{IsProblemModel};
ghost use Rattle.sum_outputs.specs.Adding.{IsFaultAt};
ghost use Rattle.search_base.specs.CostBounds.{reforms_of};
ghost use Rattle.search_base.specs.Good.{GoesOn, IsGood, KeepsBoard};
ghost use Rattle.search_base.specs.Logged.{AddsTakenLines};
ghost use Rattle.search_base.specs.Pending.{AreOwnTerms, IsGoodBut, MayNotLog, TakesPending};

use crate::asking::answers_at;
use crate::costs::costs_at;
use crate::laws::adding_stays_good_but;
use crate::logging::{log_by_cut, log_model};
use crate::naming::named_answers;
use crate::{Board, Bounds};
use instance_normal::tighten;
use proof_rules::{RecordFault, Recorder};
use scut_base::{Assignment, Items, Lit};
use sum_outputs::in_memory;
use totalizer::{fitting_stays, own_lines_stay, reform_stays};

impl<'a> Board<'a> {
    /// Takes a model of the problem, as `take` does, but by this cut and the ids of these lines, of which nothing is
    /// known: where the line that logs it is legal, it is added, and the tightened model joins those that are pending;
    /// else `false`, and nothing has changed. After an `Err` the board isn't used again. Costs a walk over the
    /// instance, and what judging the line does.
    pub fn take_by_cut<R: Recorder>(
        &mut self,
        rec: &mut R,
        bounds: &Bounds,
        pending: &mut Items<Assignment>,
        a: &Assignment,
        cut: Items<Lit>,
        rows: Items<u64>,
    ) -> Result<bool, RecordFault>
        requires good { IsGoodBut (R.seen rec.old) bounds.now self.old pending.old }
        requires model { IsProblemModel (R.seen rec.old).problem a.now }
        ensures good { OnOk result (IsGoodBut (R.seen rec.new) bounds.now self.new pending.new) }
        ensures taken { IfOk result (λ taken. MatchBool taken
            (TakesPending (R.seen rec.old) (R.seen rec.new) self.old.instance a.now
            pending.old pending.new)
            (MayNotLog (R.seen rec.old) (tightened self.old.instance
            (take self.old.instance.vars a.now)) cut rows × (R.seen rec.new ≡ R.seen rec.old))) }
        ensures refused { IfOk result (λ taken. taken ≡ false
            → (self.new ≡ self.old) × (pending.new ≡ pending.old)) }
        ensures fault { IfErr result (IsFaultAt (R.seen rec.old) (R.seen rec.new)) }
        ensures lines { AddsTakenLines (R.seen rec.old).lines (R.seen rec.new).lines }
        ensures goes_on { GoesOn (R.seen rec.old) (R.seen rec.new) }
        ensures board { KeepsBoard self.old self.new }
    {
        // Tells the limits of the problem and of the instance, and that the lines reach a state.
        let _problem = self.problem.vars();
        let _instance = self.instance.vars();
        let _state = rec.state();
        own_lines_stay();
        fitting_stays();
        reform_stays();
        let b = in_memory(tighten(self.alloc, self.problem, self.instance, a))?;
        let costs = in_memory(costs_at(self.alloc, self.problem, &b))?;
        if !log_by_cut(self.alloc, rec, self.problem, &b, cut, rows)? {
            return Ok(false);
        }
        in_memory(self.put(costs, &b))?;
        in_memory(pending.push(b))?;
        Ok(true)
    }

    /// Logs the pending models once more, each with the cut of what stands for its costs, so that the state is good.
    /// The objectives are in their own terms. After an `Err` the board isn't used again. Costs what the bounds at the
    /// models' costs do.
    pub fn settle<R: Recorder>(
        &mut self,
        rec: &mut R,
        bounds: &mut Bounds,
        pending: &mut Items<Assignment>,
    ) -> Result<(), RecordFault>
        requires good { IsGoodBut (R.seen rec.old) bounds.old self.old pending.old }
        requires own { AreOwnTerms bounds.old }
        ensures good { OnOk result (IsGood (R.seen rec.new) bounds.new self.new) }
        ensures none { OnOk result (pending.new ≡ []) }
        ensures fault { IfErr result (IsFaultAt (R.seen rec.old) (R.seen rec.new)) }
        ensures lines { AddsTakenLines (R.seen rec.old).lines (R.seen rec.new).lines }
        ensures goes_on { GoesOn (R.seen rec.old) (R.seen rec.new) }
        ensures board { KeepsBoard self.old self.new }
    {
        while let Some(model) = pending.pop() {
            self.settle_one(rec, bounds, &model)?;
        }
        Ok(())
    }

    // Logs the last of the pending models once more.
    fn settle_one<R: Recorder>(
        &mut self,
        rec: &mut R,
        bounds: &mut Bounds,
        model: &Assignment,
    ) -> Result<(), RecordFault>
        requires good { (pending : List (List Bool)) × IsGoodBut (R.seen rec.old) bounds.old
            self.old (pending ++ model.now ∷ []) }
        requires own { AreOwnTerms bounds.old }
        ensures good { OnOk result ((pending : List (List Bool)) → IsGoodBut (R.seen rec.old)
            bounds.old self.old (pending ++ model.now ∷ [])
            → IsGoodBut (R.seen rec.new) bounds.new self.new pending) }
        ensures own { OnOk result (reforms_of bounds.new ≡ reforms_of bounds.old) }
        ensures fault { IfErr result (IsFaultAt (R.seen rec.old) (R.seen rec.new)) }
        ensures lines { AddsTakenLines (R.seen rec.old).lines (R.seen rec.new).lines }
        ensures goes_on { GoesOn (R.seen rec.old) (R.seen rec.new) }
        ensures board { KeepsBoard self.old self.new }
    {
        // Tells the limits of the problem, and that the lines reach a state.
        let _problem = self.problem.vars();
        let _state = rec.state();
        own_lines_stay();
        fitting_stays();
        reform_stays();
        adding_stays_good_but();
        let costs = in_memory(costs_at(self.alloc, self.problem, model))?;
        let answers = answers_at(self.alloc, rec, bounds, &costs)?;
        let named = in_memory(named_answers(self.alloc, self.problem, &costs, answers.as_slice()))?;
        log_model(self.alloc, rec, model, named.as_slice())?;
        in_memory(self.put(costs, model))
    }
}
