// The order in which a search decides variables (DECISIONS, pinned-choice).
ghost use Rattle.std.specs.Prelude.{◌≡◌, ℕ, ◌+◌, ◌-◌, ◌/◌, ◌<◌, ◌≤◌, [], max, not, length, slice_set, MatchOption, IfSome, IfNone, OnOk, OnErr};
ghost use Rattle.clause_prop.specs.Steps.{TrailValue};
ghost use Rattle.cdcl_state.specs.Order.{AllOpenWait, IsGrown, IsNextChoice, IsTakenChoice, NoneOpen, NoneWaits, OtherOpenWait, OrderValue, SameOrder, SameWait, WaitsToo, after_conflict, bumped, weights};

use crate::heap::{VariableHeap, push_copies};
use clause_prop::Trail;
use scut_base::{Lit, NoMemory};
use std::alloc::Global;
use std::marker::Model;

// What a bump adds at first.
const FIRST_STEP: u64 = 1024;

// What activities and the step stay below.
const LIMIT: u64 = 1 << 40;

/// The variables that wait to be decided, by activity: the variable state independent decaying sum
/// of Moskewicz and others (2001), in whole numbers, over a heap that knows the place of each
/// variable, as in MiniSat (Eén and Sörensson 2003). A variable is decided in its last phase
/// (Pipatsrisawat and Darwiche 2007), and false where it had none.
#[derive(Debug, Drop)]
pub struct VariableOrder {
    heap: VariableHeap,
    phases: Vec<bool>,
    step: u64,
}

impl Model for VariableOrder {
    ghost use Rattle.std.specs.Prelude.{min, take, vec_capacity};
    ghost use Rattle.cdcl_state.specs.Order.{OrderValue};
    ghost use Rattle.cdcl_state.specs.Heap.{IsOrder};

    ghost Value = { OrderValue };

    ghost view = { λ o. record {
      activities = o.heap.activities;
      phases = o.phases.items;
      waiting = take o.heap.count o.heap.vars;
      step = o.step;
      room = min o.heap.room (vec_capacity o.phases);
    } };

    ghost invariant = { λ o. IsOrder o.heap o.phases.items o.step };
}

impl VariableOrder {
    /// No variable. Takes no memory.
    pub fn new(alloc: Global) -> VariableOrder
        ensures { result ≡ record {
          activities = [];
          phases = [];
          waiting = [];
          step = 1024;
          room = 0;
        } }
    {
        VariableOrder {
            heap: VariableHeap::new(alloc),
            phases: Vec::new(alloc),
            step: FIRST_STEP,
        }
    }

    /// Makes room for so many variables, so that `grow` takes no memory. Does nothing where there
    /// is room; else it costs at most the number of variables. After `NoMemory` nothing has
    /// changed, but there may be more room.
    pub fn reserve(&mut self, vars: u64) -> Result<(), NoMemory>
        ensures same { SameOrder self.old self.new }
        ensures room { OnOk result (vars ≤ self.new.room) }
    {
        let vars = vars as usize;
        self.phases.reserve(vars.saturating_sub(self.phases.len()))?;
        self.heap.reserve(vars)
    }

    /// Puts new variables up to `vars` among those that wait, with activity 0 and the phase false.
    /// Does nothing where there are as many. Takes no memory. Costs the number of new variables.
    pub fn grow(&mut self, vars: u64)
        requires room { vars ≤ self.old.room }
        ensures grown { IsGrown self.old self.new vars }
        ensures vars { length self.new.activities ≡ max vars (length self.old.activities) }
    {
        let vars = vars as usize;
        let more = vars.saturating_sub(self.phases.len());
        self.heap.grow(vars);
        push_copies(&mut self.phases, false, more);
    }

    /// Adds the step to a variable's activity; where that reaches the limit, all are halved. Takes
    /// no memory. Costs the logarithm of the number that wait, and seldom the number of variables.
    pub fn bump(&mut self, var: u64)
        requires positive { 0 < var }
        requires within { var ≤ length self.old.activities }
        ensures weights { weights self.new ≡ bumped (weights self.old) var }
        ensures vars { length self.new.activities ≡ length self.old.activities }
        ensures phases { self.new.phases ≡ self.old.phases }
        ensures waiting { SameWait self.old self.new }
    {
        if self.heap.raise(var, self.step) >= LIMIT {
            self.heap.halve();
            self.step = half_step(self.step);
        }
    }

    /// Lets later bumps count more than those so far. Takes no memory, and constant time, but seldom
    /// that of the number of variables.
    pub fn end_conflict(&mut self)
        ensures weights { weights self.new ≡ after_conflict (weights self.old) }
        ensures vars { length self.new.activities ≡ length self.old.activities }
        ensures phases { self.new.phases ≡ self.old.phases }
        ensures waiting { SameWait self.old self.new }
    {
        self.step += (self.step / 16).max(1);
        if self.step >= LIMIT {
            self.heap.halve();
            self.step = half_step(self.step);
        }
    }

    /// Puts the variable of a literal whose step was taken off the trail among those that wait, and
    /// notes the literal's sign as its phase. Takes no memory. Costs the logarithm of the number
    /// that wait.
    pub fn put_back(&mut self, lit: Lit)
        requires { lit.var ≤ length self.old.activities }
        ensures weights { weights self.new ≡ weights self.old }
        ensures phases { self.new.phases ≡ slice_set self.old.phases (lit.var - 1) (not lit.neg) }
        ensures waiting { WaitsToo self.old self.new lit.var }
    {
        let var = lit.var();
        self.phases[(var - 1) as usize] = !lit.is_neg();
        self.heap.wait(var);
    }

    /// An open variable of greatest activity, in its last phase, or `None` where no variable is
    /// open. That variable and those that come before it and aren't open no longer wait. Takes no
    /// memory. Costs the logarithm of the number that wait for each of them.
    pub fn next(&mut self, trail: &Trail) -> Option<Lit>
        requires vars { trail.now.vars ≡ length self.old.activities }
        requires waiting { AllOpenWait self.old trail.now }
        ensures chosen { IfSome result (λ l. IsNextChoice self.old trail.now l) }
        ensures others { IfSome result (λ l. OtherOpenWait self.new trail.now l.var) }
        ensures none { IfNone result (NoneOpen trail.now) }
        ensures weights { weights self.new ≡ weights self.old }
        ensures phases { self.new.phases ≡ self.old.phases }
    {
        while let Some(lit) = self.take_greatest() {
            if trail.value(lit).is_none() {
                return Some(lit);
            }
        }
        None
    }

    // Takes a variable of greatest activity away from those that wait, and answers its literal in
    // its last phase.
    fn take_greatest(&mut self) -> Option<Lit>
        ensures taken { MatchOption result (NoneWaits self.old)
            (λ l. IsTakenChoice self.old self.new l) }
        ensures weights { weights self.new ≡ weights self.old }
        ensures phases { self.new.phases ≡ self.old.phases }
    {
        let var = self.heap.take_greatest()?;
        let phase = self.phases[(var - 1) as usize];
        Some(Lit::new(var, !phase))
    }
}

// Half of a step, and at least 1.
fn half_step(step: u64) -> u64
    ensures { result ≡ max 1 (step / 2) }
{
    (step / 2).max(1)
}
