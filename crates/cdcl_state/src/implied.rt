// Which steps the marked ones imply.
ghost use Rattle.std.specs.Prelude.{◌≡◌, ℕ, ◌<◌, ◌≤◌, [], All, IfOk, OnOk, length};
ghost use Rattle.pb_lin.specs.Constraint.{UpTo};
ghost use Rattle.cdcl_trail.specs.SearchTrail.{AreLines};
ghost use Rattle.cdcl_state.specs.Minimising.{IsBusy, IsIdle, IsVerdict, effort};

use crate::marks::Marks;
use clause_prop::{ClauseStore, Step, StoredLine, Trail};
use scut_base::{Items, Lit, NoMemory};
use std::alloc::Global;

// A search for the steps that marked ones imply (Sörensson and Biere 2009), with a memo of those that are implied and
// those that aren't. Nothing rests on its answers: it chooses the steps whose marks `drop_steps` takes off.
#[derive(Debug, Drop)]
pub(crate) struct Implied {
    // By place of the trail whether its step is implied, where that is known.
    pub(crate) memo: Vec<Option<bool>>,
    // The places of which it is.
    pub(crate) judged: Items<u64>,
    // The steps whose lines are being read, each for the sake of the one before it.
    pub(crate) stack: Items<Visit>,
    // The places of the steps that are implied, each after those that it rests on.
    pub(crate) places: Items<u64>,
}

// A step whose line is being read.
#[derive(Clone, Copy, Debug)]
pub(crate) struct Visit {
    // Its place.
    pub(crate) place: u64,
    // So many of its line's literals are read.
    pub(crate) done: usize,
}

// What a literal says of the step that its line forces.
#[derive(Clone, Copy, Debug)]
pub(crate) enum Verdict {
    // Nothing against it: no earlier step makes the literal false, or one that is marked or implied.
    Implied,
    // That it isn't implied.
    Free,
    // What the step at this place says, which makes the literal false.
    Unknown(u64),
}

impl Implied {
    // No room.
    pub(crate) fn new(alloc: Global) -> Implied
        ensures room { result.memo.items ≡ [] }
        ensures idle { IsIdle result }
    {
        Implied {
            memo: Vec::new(alloc),
            judged: Items::new(alloc),
            stack: Items::new(alloc),
            places: Items::new(alloc),
        }
    }

    // Makes room for so many places, of which nothing is known.
    pub(crate) fn grow(&mut self, places: u64) -> Result<(), NoMemory>
        requires { IsIdle self.old }
        ensures idle { IsIdle self.new }
        ensures kept { length self.old.memo.items ≤ length self.new.memo.items }
        ensures room { OnOk result (places ≤ length self.new.memo.items) }
    {
        let places = places as usize;
        if self.memo.len() < places {
            self.memo.resize(places, None)?;
        }
        Ok(())
    }

    // Forgets all.
    pub(crate) fn clear(&mut self)
        requires { (n : ℕ) × IsBusy n self.old }
        ensures idle { IsIdle self.new }
        ensures room { length self.new.memo.items ≡ length self.old.memo.items }
    {
        while let Some(place) = self.judged.pop() {
            self.memo[place as usize] = None;
        }
        self.stack.truncate(0);
        self.places.truncate(0);
    }

    // The verdict of a literal of the line that forces the step at the place `end`. Steps of other levels than these
    // aren't asked.
    fn verdict(&self, trail: &Trail, marks: &Marks, levels: u64, end: u64, lit: Lit) -> Verdict
        requires busy { IsBusy (length trail.now.steps) self.now }
        requires long { length trail.now.steps ≤ length marks.now.on.items }
        requires upto { lit.var ≤ trail.now.vars }
        ensures { IsVerdict (length trail.now.steps) result }
    {
        let Some(place) = trail.place_of(lit) else {
            return Verdict::Implied;
        };
        if place >= end || marks.on[place as usize] {
            return Verdict::Implied;
        }
        match self.memo[place as usize] {
            Some(true) => Verdict::Implied,
            Some(false) => Verdict::Free,
            None => first_verdict(&trail.step_at(place), lit, levels, place),
        }
    }

    // Reads the line on, up to a literal of which more has to be known.
    fn read(
        &self,
        trail: &Trail,
        marks: &Marks,
        levels: u64,
        visit: Visit,
        line: &StoredLine,
    ) -> (Verdict, Visit)
        requires busy { IsBusy (length trail.now.steps) self.now }
        requires long { length trail.now.steps ≤ length marks.now.on.items }
        requires upto { UpTo trail.now.vars line.now }
        ensures verdict { IsVerdict (length trail.now.steps) result.0 }
        ensures place { result.1.place ≡ visit.place }
    {
        let lits = line.literals();
        let mut done = visit.done;
        let mut verdict = Verdict::Implied;
        while done < lits.len() && matches!(verdict, Verdict::Implied) {
            verdict = self.verdict(trail, marks, levels, visit.place, lits[done]);
            done += 1;
        }
        let done = done.saturating_sub(1);
        (
            verdict,
            Visit {
                place: visit.place,
                done,
            },
        )
    }

    // Reads the line that forces the step on.
    fn look(
        &self,
        store: &ClauseStore,
        trail: &Trail,
        marks: &Marks,
        levels: u64,
        visit: Visit,
    ) -> (Verdict, Visit)
        requires busy { IsBusy (length trail.now.steps) self.now }
        requires long { length trail.now.steps ≤ length marks.now.on.items }
        requires lines { AreLines trail.now.vars store.now }
        requires place { visit.place < length trail.now.steps }
        ensures verdict { IsVerdict (length trail.now.steps) result.0 }
        ensures place { result.1.place ≡ visit.place }
    {
        let reason = trail.step_at(visit.place).reason;
        match store.get(reason) {
            Some(line) => self.read(trail, marks, levels, visit, line),
            None => (Verdict::Free, visit),
        }
    }

    // Notes whether a step is implied.
    fn judge(&mut self, place: u64, implied: bool) -> Result<(), NoMemory>
        requires place { place < length self.old.memo.items }
        ensures busy { (n : ℕ) → IsBusy n self.old → place < n → IsBusy n self.new }
        ensures room { length self.new.memo.items ≡ length self.old.memo.items }
        ensures stack { self.new.stack ≡ self.old.stack }
    {
        self.judged.push(place)?;
        self.memo[place as usize] = Some(implied);
        if implied {
            self.places.push(place)?;
        }
        Ok(())
    }

    // Goes on by a verdict.
    fn follow(&mut self, visit: Visit, verdict: Verdict, left: u64) -> Result<u64, NoMemory>
        requires place { visit.place < length self.old.memo.items }
        ensures busy { (n : ℕ) → IsBusy n self.old → visit.place < n → IsVerdict n verdict
            → IsBusy n self.new }
        ensures room { length self.new.memo.items ≡ length self.old.memo.items }
        ensures falls { IfOk result (λ left_over. effort left_over self.new ≤ effort left self.old) }
    {
        match verdict {
            Verdict::Implied => self.judge(visit.place, true)?,
            Verdict::Free => self.judge(visit.place, false)?,
            Verdict::Unknown(place) => {
                if left > 0 {
                    self.stack.push(visit)?;
                    self.stack.push(Visit { place, done: 0 })?;
                    return Ok(left - 1);
                }
                self.judge(visit.place, false)?;
            }
        }
        Ok(left)
    }

    // One visit.
    fn advance(
        &mut self,
        store: &ClauseStore,
        trail: &Trail,
        marks: &Marks,
        levels: u64,
        left: u64,
    ) -> Result<u64, NoMemory>
        requires busy { IsBusy (length trail.now.steps) self.old }
        requires long { length trail.now.steps ≤ length marks.now.on.items }
        requires lines { AreLines trail.now.vars store.now }
        requires stack { 0 < length self.old.stack }
        ensures busy { IsBusy (length trail.now.steps) self.new }
        ensures room { length self.new.memo.items ≡ length self.old.memo.items }
        ensures falls { IfOk result (λ left_over. effort left_over self.new < effort left self.old) }
    {
        let Some(visit) = self.stack.pop() else {
            return Ok(left);
        };
        let (verdict, visit) = self.look(store, trail, marks, levels, visit);
        self.follow(visit, verdict, left)
    }

    // Finds out whether the step at the place is implied.
    fn explore(
        &mut self,
        store: &ClauseStore,
        trail: &Trail,
        marks: &Marks,
        levels: u64,
        place: u64,
    ) -> Result<(), NoMemory>
        requires busy { IsBusy (length trail.now.steps) self.old }
        requires long { length trail.now.steps ≤ length marks.now.on.items }
        requires lines { AreLines trail.now.vars store.now }
        requires place { place < length trail.now.steps }
        ensures busy { IsBusy (length trail.now.steps) self.new }
        ensures room { length self.new.memo.items ≡ length self.old.memo.items }
    {
        self.stack.push(Visit { place, done: 0 })?;
        let mut left = trail.len();
        while !self.stack.is_empty() {
            left = self.advance(store, trail, marks, levels, left)?;
        }
        Ok(())
    }

    // Finds out which of the marked steps below the level `top` the others imply.
    pub(crate) fn find(
        &mut self,
        store: &ClauseStore,
        trail: &Trail,
        marks: &Marks,
        top: u64,
    ) -> Result<(), NoMemory>
        requires busy { IsBusy (length trail.now.steps) self.old }
        requires long { length trail.now.steps ≤ length marks.now.on.items }
        requires lines { AreLines trail.now.vars store.now }
        requires places { All (λ p. p < length trail.now.steps) marks.now.places }
        ensures busy { IsBusy (length trail.now.steps) self.new }
        ensures room { length self.new.memo.items ≡ length self.old.memo.items }
    {
        let levels = levels_of(trail, marks.places.as_slice(), top);
        for place in marks.places.as_slice() {
            let step = trail.step_at(*place);
            if step.level != top && step.reason != 0 && self.memo[*place as usize].is_none() {
                self.explore(store, trail, marks, levels, *place)?;
            }
        }
        Ok(())
    }
}

// The verdict of a literal by the step of its variable, where nothing is known of that.
fn first_verdict(step: &Step, lit: Lit, levels: u64, place: u64) -> Verdict
    ensures { (n : ℕ) → place < n → IsVerdict n result }
{
    if step.lit.is_neg() == lit.is_neg() {
        Verdict::Implied
    } else if step.reason != 0 && levels & level_bit(step.level) != 0 {
        Verdict::Unknown(place)
    } else {
        Verdict::Free
    }
}

// Level 0 and the levels of the steps but `top`, as a set of their remainders by 64.
fn levels_of(trail: &Trail, places: &[u64], top: u64) -> u64
    requires { All (λ p. p < length trail.now.steps) places.now }
{
    let mut levels = level_bit(0);
    for place in places {
        let level = trail.step_at(*place).level;
        if level != top {
            levels |= level_bit(level);
        }
    }
    levels
}

// The set of one level.
fn level_bit(level: u64) -> u64 {
    1 << (level % 64)
}
