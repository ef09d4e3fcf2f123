// Searches over the linear relaxation of a problem, and what they may spend.
ghost use Rattle.std.specs.Prelude.{◌≡◌, ◌+◌, ◌-◌, ◌/◌, ◌^◌, ◌≤◌, length, min, IfOk};
ghost use Rattle.linear_search.specs.Relaxations.{IsPaid};
ghost use Rattle.linear_search.specs.Replies.{IsKeptWhereFound};

use crate::limits::{FIRST_STAKE, MOST_STAKE};
use branch_and_bound::{BranchAndBound, Found, LiveLines, Question, Target};
use pb_lin::PbProblem;
use proof_rules::ProofState;
use scut_base::NoMemory;
use std::alloc::Global;
use std::marker::Model;

/// The relaxation of a problem, with what may be spent on it.
#[derive(Debug, Drop)]
pub struct LinearSearch {
    pub(crate) alloc: Global,
    pub(crate) search: BranchAndBound,
    columns: usize,
    constraints: usize,
    // What may be lost on questions that stay open, in numbers touched.
    purse: u64,
    // How many quarters of the purse the next question may spend.
    stake: u64,
}

impl Model for LinearSearch {
    ghost use Rattle.linear_search.specs.Relaxations.{Relaxation};

    ghost Value = { Relaxation };

    ghost view = { λ s. record {
      columns = s.columns;
      constraints = s.constraints;
      purse = s.purse;
    } };
}

impl LinearSearch {
    /// The relaxation of a problem, with a purse of so much work, counted in numbers touched. Takes some 40 bytes for each
    /// number of the rows; where they have too many, all questions stay open.
    pub fn new(alloc: Global, problem: &PbProblem, purse: u64) -> Result<LinearSearch, NoMemory>
        ensures { IfOk result (λ s. s ≡ record {
          columns = problem.now.vars;
          constraints = length problem.now.rows;
          purse = purse;
        }) }
    {
        Ok(LinearSearch {
            alloc,
            search: BranchAndBound::new(alloc, problem)?,
            columns: problem.vars() as usize,
            constraints: problem.rows().len(),
            purse,
            stake: FIRST_STAKE,
        })
    }

    /// Takes up the live lines above the problem's rows that speak of its variables alone, with small coefficients, as rows.
    pub fn take_up(&mut self, state: &ProofState) -> Result<(), NoMemory>
        ensures { self.new ≡ self.old }
    {
        self.search.take_up(&live_lines(state))
    }

    /// Forgets all lines above the problem's rows, and passes by those below this id from now on: `take_up_held` takes them up.
    pub fn leave_out(&mut self, problem: &PbProblem, end: u64) -> Result<(), NoMemory>
        ensures { self.new ≡ self.old }
    {
        self.search.leave_out(problem, end)
    }

    /// Takes up the lines that it left alone, as `take_up` does.
    pub fn take_up_held(&mut self, state: &ProofState) -> Result<(), NoMemory>
        ensures { self.new ≡ self.old }
    {
        self.search.take_up_held(&live_lines(state))
    }

    /// Changes the purse to this.
    pub fn set_purse(&mut self, purse: u64)
        ensures { self.new ≡ record self.old { purse = purse } }
    {
        self.purse = purse;
    }

    /// Adds to the purse, which ends at 2^64 - 1.
    pub fn earn(&mut self, work: u64)
        ensures { self.new ≡ record self.old { purse = min (self.old.purse + work) (2 ^ 64 - 1) } }
    {
        self.purse = self.purse.saturating_add(work);
    }

    /// What may still be lost on questions that stay open, in numbers touched.
    pub fn purse(&self) -> u64
        ensures { result ≡ self.now.purse }
    {
        self.purse
    }

    /// The work that was done so far, in numbers touched.
    pub fn work(&self) -> u64 {
        self.search.work()
    }

    /// Solves the relaxation for the least sum, and answers what that took, in numbers touched.
    pub fn root_work(&mut self) -> Result<u64, NoMemory>
        ensures { self.new ≡ self.old }
    {
        self.search.root_work()
    }

    /// Whether no question can be answered now: the purse has nothing left for a question, or the relaxation is too large.
    pub fn is_spent(&self) -> bool {
        !self.search.is_whole() || self.purse < self.search.least_stake()
    }

    // Searches for the best values within the limits where the assumptions are true, in a new tree or in that of the last
    // question. What it spends is lost only where it finds nothing, and then at most a quarter of the purse.
    pub(crate) fn explore(
        &mut self,
        state: &ProofState,
        question: &Question<'_>,
        target: Option<Target>,
    ) -> Result<Found, NoMemory>
        ensures paid { IsPaid self.old self.new }
        ensures kept { IfOk result (IsKeptWhereFound self.old self.new) }
    {
        if self.is_spent() {
            return Ok(Found::Nothing);
        }
        let before = self.search.work();
        let most = before.saturating_add(self.stake.saturating_mul(self.purse / 4));
        let live = live_lines(state);
        let found = self.search.explore(&live, question, target, most)?;
        let spent = self.search.work().saturating_sub(before);
        self.settle(&found, spent);
        Ok(found)
    }

    // Pays for a question that stays open, and halves what the next may spend, as does one whose model a walk met, since that says
    // nothing of trees; one that was answered otherwise doubles it.
    fn settle(&mut self, found: &Found, spent: u64)
        ensures paid { IsPaid self.old self.new }
        ensures kept { IsKeptWhereFound self.old self.new found.now }
    {
        if let Found::Nothing = found {
            self.purse = purse_after(self.purse, spent);
            self.stake = (self.stake / 2).max(1);
        } else if self.search.is_met() {
            self.stake = (self.stake / 2).max(1);
        } else {
            self.stake = (self.stake.saturating_mul(2)).min(MOST_STAKE);
        }
    }
}

// The lines that a search stands on.
fn live_lines(state: &ProofState) -> LiveLines<'_> {
    LiveLines {
        vars: state.vars(),
        lines: state.live(),
        next_id: state.next_id(),
    }
}

// What is left of a purse after so much work, which costs at most a quarter of it.
fn purse_after(purse: u64, work: u64) -> u64
    ensures most { result ≤ purse }
    ensures quarter { purse ≤ result + purse / 4 }
{
    purse - work.min(purse / 4)
}
