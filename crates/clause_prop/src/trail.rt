// The trail of a search: its steps in order, and tables by variables.
ghost use Rattle.std.specs.Prelude.{◌≡◌, ℕ, ◌<◌, ◌≤◌, ◌-◌, ◌++◌, max, [], None, Some, length, replicate, slice_get, MatchOption, IfOk, IfSome, IfNone, OnOk, OnErr, All};
ghost use Rattle.scut_base.specs.Assignment.{partial_truth};
ghost use Rattle.clause_prop.specs.declared.step.Step.{Step};
ghost use Rattle.clause_prop.specs.Steps.{AreSteps, IsPlaceOf, with_step, cut, partial, last_level};
ghost use Rattle.clause_prop.specs.Tables.{AreTables};

use crate::truth::{Truth, codes_upto, set_truths};
use crate::{Step, literal_code};
use scut_base::{Lit, NoMemory};
use std::alloc::Global;
use std::marker::Model;

/// The steps of a search, of distinct variables from 1 to `vars`. Contracts see it as the list of its steps.
/// Each call takes constant time, but for those that make room, and `cut`, which costs the steps that go.
/// The step of a variable, with its level and the line that forced it, is `step_at` of `place_of`.
#[derive(Debug, Drop)]
pub struct Trail {
    values: Vec<Option<bool>>,
    // By the code of a literal, so that a look at a literal is one load.
    truths: Vec<Truth>,
    // By variable the place of its step, where it has one.
    places: Vec<u64>,
    // Its first `count` are the trail; there is room for a step of each variable.
    steps: Vec<Step>,
    count: usize,
}

impl Model for Trail {
    ghost use Rattle.std.specs.Prelude.{length, take};
    ghost use Rattle.clause_prop.specs.Steps.{TrailValue};
    ghost use Rattle.clause_prop.specs.Tables.{AreTables};
    ghost use Rattle.clause_prop.specs.Truths.{AreTruths};

    ghost Value = { TrailValue };

    ghost view = { λ t. record { vars = length t.values.items; steps = take t.count t.steps.items } };

    ghost invariant = { λ t. AreTables t.values.items t.places.items t.steps.items t.count
        × AreTruths t.values.items t.truths.items };
}

impl Trail {
    /// No step, over so many variables. Takes room for a step of each.
    pub fn new(alloc: Global, vars: u64) -> Result<Trail, NoMemory>
        ensures { IfOk result (λ t. t ≡ record { vars = vars; steps = [] }) }
    {
        let codes = codes_upto(vars as usize)?;
        Ok(Trail {
            values: vec![in alloc; None; vars as usize]?,
            truths: vec![in alloc; Truth::Open; codes]?,
            places: vec![in alloc; 0; vars as usize]?,
            steps: vec![in alloc; no_step(); vars as usize]?,
            count: 0,
        })
    }

    /// Makes room for variables up to `vars`; the steps stay. Does nothing where there are as many. After
    /// `NoMemory` nothing has changed.
    pub fn grow(&mut self, vars: u64) -> Result<(), NoMemory>
        ensures ok { OnOk result
            (self.new ≡ record { vars = max vars self.old.vars; steps = self.old.steps }) }
        ensures err { OnErr result (self.new ≡ self.old) }
    {
        let vars = vars as usize;
        if self.values.len() < vars {
            let codes = codes_upto(vars)?;
            lengthen(&mut self.steps, vars, no_step())?;
            lengthen(&mut self.places, vars, 0)?;
            lengthen(&mut self.truths, codes, Truth::Open)?;
            lengthen(&mut self.values, vars, None)?;
        }
        Ok(())
    }

    /// The number of variables.
    pub fn vars(&self) -> u64
        ensures { result ≡ self.now.vars }
    {
        self.values.len() as u64
    }

    /// The number of steps, which is at most that of variables.
    pub fn len(&self) -> u64
        ensures value { result ≡ length self.now.steps }
        ensures within { length self.now.steps ≤ self.now.vars }
        ensures steps { AreSteps self.now.vars self.now.steps }
    {
        self.count as u64
    }

    /// The step at a place below the length.
    pub fn step_at(&self, place: u64) -> Step
        requires { place < length self.now.steps }
        ensures value { slice_get self.now.steps place ≡ Some result }
        ensures steps { AreSteps self.now.vars self.now.steps }
    {
        self.steps[place as usize]
    }

    /// Whether the literal is true, or `None` where its variable is open.
    pub fn value(&self, lit: Lit) -> Option<bool>
        requires { lit.var ≤ self.now.vars }
        ensures value { result ≡ partial_truth (partial self.now) lit }
        ensures steps { AreSteps self.now.vars self.now.steps }
    {
        // Tells that variables count from 1.
        let _from_one = lit.var();
        match self.truths[literal_code(lit)] {
            Truth::Open => None,
            Truth::True => Some(true),
            Truth::False => Some(false),
        }
    }

    /// The place of the step of the literal's variable, where it has one.
    pub fn place_of(&self, lit: Lit) -> Option<u64>
        requires { lit.var ≤ self.now.vars }
        ensures { MatchOption result (partial_truth (partial self.now) lit ≡ None)
            (λ k. IsPlaceOf self.now.steps lit.var k) }
    {
        let at = (lit.var() - 1) as usize;
        match self.values[at] {
            Some(_) => Some(self.places[at]),
            None => None,
        }
    }

    /// The level of the last step, or 0 where there is none.
    pub fn level(&self) -> u64
        ensures { result ≡ last_level self.now.steps }
    {
        if self.count == 0 {
            return 0;
        }
        self.steps[self.count - 1].level
    }

    /// Puts a step of an open variable at the end. Takes no memory.
    pub fn push(&mut self, step: Step)
        requires within { step.lit.var ≤ self.old.vars }
        requires open { partial_truth (partial self.old) step.lit ≡ None }
        ensures { self.new ≡ with_step self.old step }
    {
        let at = (step.lit.var() - 1) as usize;
        self.values[at] = Some(!step.lit.is_neg());
        set_truths(&mut self.truths, step.lit, Truth::True, Truth::False);
        self.places[at] = self.count as u64;
        self.steps[self.count] = step;
        self.count += 1;
    }

    /// Leaves the first `keep` steps. Costs the steps that go, and takes no memory.
    pub fn cut(&mut self, keep: u64)
        ensures { self.new ≡ cut self.old keep }
    {
        while self.count as u64 > keep {
            self.pop();
        }
    }

    // Takes the last step away.
    fn pop(&mut self)
        requires { 0 < length self.old.steps }
        ensures { self.new ≡ cut self.old (length self.old.steps - 1) }
    {
        self.count -= 1;
        let lit = self.steps[self.count].lit;
        self.values[(lit.var() - 1) as usize] = None;
        set_truths(&mut self.truths, lit, Truth::Open, Truth::Open);
    }
}

// Makes the list at least so long; what it has stays.
fn lengthen<T: Copy>(list: &mut Vec<T>, len: usize, item: T) -> Result<(), NoMemory>
    ensures ok { OnOk result
        (list.new.items ≡ list.old.items ++ replicate (len - length list.old.items) item) }
    ensures err { OnErr result (list.new.items ≡ list.old.items) }
{
    if list.len() < len {
        list.resize(len, item)?;
    }
    Ok(())
}

// What fills the room for steps.
fn no_step() -> Step {
    Step {
        lit: Lit::new(1, false),
        level: 0,
        reason: 0,
    }
}
