// The board that searches share: the front so far.
ghost use Rattle.std.specs.Prelude.{◌≡◌, ◌≤◌, ◌<◌, ◌^◌, [], length, take, IfOk, IfErr, OnOk, option_copied};
ghost use Rattle.instance_normal.specs.NormalForm.{IsNormalFormOf};
ghost use Rattle.sum_outputs.specs.Adding.{IsFaultAt};
ghost use Rattle.search_base.specs.Boards.{IsBoard};
ghost use Rattle.search_base.specs.Cutting.{IsPut};
ghost use Rattle.search_base.specs.Good.{GoesOn, IsGood, KeepsBoard};
ghost use Rattle.search_base.specs.Logged.{AddsTakenLines};
ghost use Rattle.search_base.specs.Turns.{IsTakable, IsTaken};

use crate::Bounds;
use crate::asking::answers_at;
use crate::costs::costs_at;
use crate::laws::bounding_stays_good;
use crate::logging::log_model;
use crate::naming::named_answers;
use front_set::{CostVec, FrontSet};
use instance::Instance;
use instance_normal::tighten;
use pb_lin::PbProblem;
use proof_rules::{RecordFault, Recorder};
use scut_base::{Assignment, Duplicate, Lit, NoMemory};
use std::alloc::Global;
use std::marker::Model;
use sum_outputs::in_memory;
use totalizer::{fitting_stays, own_lines_stay, reform_stays};

/// The one front of an instance that searches write: pairs of a cost vector, as the problem has it, and a
/// model of the instance. None weakly dominates another.
#[derive(Drop)]
pub struct Board<'a> {
    pub(crate) alloc: Global,
    pub(crate) problem: &'a PbProblem,
    pub(crate) instance: &'a Instance,
    front: FrontSet,
    last: Option<CostVec>,
}

impl<'a> Model for Board<'a> {
    ghost use Rattle.search_base.specs.Boards.{BoardValue};

    ghost Value = { BoardValue };

    ghost view = { λ b. record { instance = b.instance.now; problem = b.problem.now; entries = b.front; last = b.last } };
}

impl<'a> Board<'a> {
    /// A board without entries. The problem is the instance's normal form. Takes no memory yet.
    pub fn new(alloc: Global, problem: &'a PbProblem, instance: &'a Instance) -> Board<'a>
        requires { IsNormalFormOf instance.now problem.now }
        ensures board { IsBoard result [] }
        ensures problem { result.problem ≡ problem.now }
        ensures instance { result.instance ≡ instance.now }
    {
        Board {
            alloc,
            problem,
            instance,
            front: FrontSet::new(alloc),
            last: None,
        }
    }

    /// The pairs so far.
    pub fn front(&self) -> &FrontSet
        ensures { result.now ≡ self.now.entries }
    {
        &self.front
    }

    /// The instance's normal form.
    pub fn problem(&self) -> &PbProblem
        ensures { result.now ≡ self.now.problem }
    {
        self.problem
    }

    /// The vector that was logged last.
    pub fn last(&self) -> Option<&CostVec>
        ensures { option_copied result ≡ self.now.last }
    {
        self.last.as_ref()
    }

    /// Takes a model: tightens it, logs it with its costs in the instance, and puts it onto the board. After an `Err` the
    /// board isn't used again. Costs a walk over the instance, and what the bounds at these costs do.
    pub fn take<R: Recorder>(
        &mut self,
        rec: &mut R,
        bounds: &mut Bounds,
        a: &Assignment,
    ) -> Result<(), RecordFault>
        requires good { IsGood (R.seen rec.old) bounds.old self.old }
        requires model { IsTakable (R.seen rec.old) a.now }
        ensures good { OnOk result (IsGood (R.seen rec.new) bounds.new self.new) }
        ensures taken { OnOk result (IsTaken (R.seen rec.old) (R.seen rec.new) self.old a.now) }
        ensures fault { IfErr result (IsFaultAt (R.seen rec.old) (R.seen rec.new)) }
        ensures lines { AddsTakenLines (R.seen rec.old).lines (R.seen rec.new).lines }
        ensures goes_on { GoesOn (R.seen rec.old) (R.seen rec.new) }
        ensures board { KeepsBoard self.old self.new }
    {
        // Tells the limits of the problem and of the instance, and that the lines reach a state.
        let _problem = self.problem.vars();
        let _instance = self.instance.vars();
        let _state = rec.state();
        own_lines_stay();
        fitting_stays();
        reform_stays();
        bounding_stays_good();
        let b = in_memory(tighten(self.alloc, self.problem, self.instance, a))?;
        let costs = in_memory(costs_at(self.alloc, self.problem, &b))?;
        let answers = answers_at(self.alloc, rec, bounds, &costs)?;
        let named = in_memory(named_answers(self.alloc, self.problem, &costs, answers.as_slice()))?;
        log_model(self.alloc, rec, &b, named.as_slice())?;
        in_memory(self.put(costs, &b))
    }

    // Puts the part of the assignment that is the instance's onto the board, with its costs.
    pub(crate) fn put(&mut self, costs: CostVec, a: &Assignment) -> Result<(), NoMemory>
        requires { self.old.instance.vars ≤ length a.now }
        ensures put { OnOk result (IsPut self.old self.new costs a.now) }
        ensures board { KeepsBoard self.old self.new }
    {
        let model = first_values(self.alloc, a, self.instance.vars())?;
        self.last = Some(costs.copy(self.alloc)?);
        self.front.insert(costs, model)?;
        Ok(())
    }
}

// The values of the variables up to one.
fn first_values(alloc: Global, a: &Assignment, vars: u64) -> Result<Assignment, NoMemory>
    requires within { vars ≤ length a.now }
    requires small { vars < 2 ^ 63 }
    ensures { IfOk result (λ first. first ≡ take vars a.now) }
{
    let values = &a.as_slice()[..vars as usize];
    let mut first = Assignment::new(alloc, vars)?;
    let mut var = 0;
    for value in values {
        var += 1;
        first.set(Lit::new(var, !*value));
    }
    Ok(first)
}
