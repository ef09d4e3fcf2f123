// What a walk back found: literals, in rising order of variables, and levels.
ghost use Rattle.std.specs.Prelude.{◌≡◌, ◌≢◌, ℕ, ◌+◌, ◌<◌, ◌≤◌, ◌⊎◌, [], true, false, IfOk, length};
ghost use Rattle.clause_prop.specs.declared.step.Step.{Step};
ghost use Rattle.clause_prop.specs.Propagating.{IsConflict};
ghost use Rattle.clause_prop.specs.Steps.{last_level};
ghost use Rattle.cdcl_trail.specs.SearchTrail.{AreLines, IsSearchTrail, IsStepAt};
ghost use Rattle.cdcl_state.specs.Analysis.{IsBlame, IsForcedFalse, IsLesson};
ghost use Rattle.cdcl_state.specs.Minimising.{IsBusy};
ghost use Rattle.cdcl_state.specs.Walking.{AreAside, AreVariables, HasSeen, IsClosing, IsHighest, IsMarking, IsOutcome, IsUnmarked, is_marked, is_resolved, spare};

use crate::implied::Implied;
use crate::marks::Marks;
use crate::reach::Reach;
use crate::{Blame, Lesson};
use clause_prop::{ClauseStore, Trail};
use hint_rup::Hint;
use scut_base::{Items, Lit, NoMemory};
use std::alloc::Global;

impl Marks {
    // Whether the step at the place is marked, and the walk doesn't resolve it.
    fn is_aside(&self, trail: &Trail, reach: Reach, place: u64) -> bool
        requires long { length trail.now.steps ≤ length self.now.on.items }
        requires within { place < length trail.now.steps }
        ensures on { result ≡ true → is_marked self.now.on.items place ≡ true }
        ensures free { (s : Step) → IsStepAt trail.now place s → result ≡ true
            → is_resolved reach s ≡ false }
        ensures other { (s : Step) → IsStepAt trail.now place s → result ≡ false
            → is_marked self.now.on.items place ≡ true → is_resolved reach s ≡ true }
    {
        if !self.on[place as usize] {
            return false;
        }
        !reach.resolves(&trail.step_at(place))
    }

    // What the outcome says of the marked steps that the walk doesn't resolve.
    fn aside(&self, alloc: Global, trail: &Trail, reach: Reach) -> Result<Vec<Lit>, NoMemory>
        requires { HasSeen (length trail.now.steps) self.now }
        ensures { IfOk result (λ lits. AreAside trail.now reach self.now.on.items self.now.places
            lits.items) }
    {
        let mut lits = Vec::new(alloc);
        for place in self.places.as_slice() {
            let step = trail.step_at(*place);
            if self.is_aside(trail, reach, *place) {
                lits.push(reach.said(step.lit))?;
            }
        }
        Ok(lits)
    }

    // The same with one literal more, in rising order of variables.
    fn outcome(
        &self,
        alloc: Global,
        trail: &Trail,
        reach: Reach,
        more: Lit,
    ) -> Result<Items<Lit>, NoMemory>
        requires marks { HasSeen (length trail.now.steps) self.now }
        requires apart { (p : ℕ) (s : Step) → IsStepAt trail.now p s → is_resolved reach s ≡ false
            → s.lit.var ≢ more.var }
        ensures { IfOk result (IsOutcome trail.now reach self.now.on.items self.now.places more) }
    {
        let mut lits = self.aside(alloc, trail, reach)?;
        lits.push(more)?;
        lits.sort_unstable_by_key(|lit| lit.var());
        Ok(Items::from_vec(lits))
    }

    // The highest level of the marked steps that aren't of the level `top`, or 0.
    fn highest(&self, trail: &Trail, top: u64) -> u64
        requires { HasSeen (length trail.now.steps) self.now }
        ensures { IsHighest trail.now self.now.on.items self.now.places top result }
    {
        let mut best = 0;
        for place in self.places.as_slice() {
            if self.on[*place as usize] {
                let level = trail.step_at(*place).level;
                best = raised(best, level, top);
            }
        }
        best
    }

    // The literals of the marked steps.
    fn met(&self, alloc: Global, trail: &Trail) -> Result<Items<Lit>, NoMemory>
        requires { HasSeen (length trail.now.steps) self.now }
        ensures { IfOk result (AreVariables trail.now.vars) }
    {
        let mut met = Items::with_capacity(alloc, self.places.len())?;
        for place in self.places.as_slice() {
            let step = trail.step_at(*place);
            if step.level > 0 {
                met.push(step.lit)?;
            }
        }
        Ok(met)
    }

    // What a conflict teaches. The marks stay.
    pub(crate) fn lesson(
        &mut self,
        alloc: Global,
        implied: &mut Implied,
        store: &ClauseStore,
        trail: &Trail,
        conflict: u64,
    ) -> Result<Lesson, NoMemory>
        requires unmarked { IsUnmarked self.old }
        requires long { length trail.now.steps ≤ length self.old.on.items }
        requires lines { AreLines trail.now.vars store.now }
        requires search { IsSearchTrail store.now trail.now }
        requires conflict { IsConflict store.now trail.now conflict }
        requires above { 0 < last_level trail.now.steps }
        requires busy { IsBusy (length trail.now.steps) implied.old }
        ensures busy { IsBusy (length trail.now.steps) implied.new }
        ensures memo { length implied.new.memo.items ≡ length implied.old.memo.items }
        ensures marks { HasSeen (length trail.now.steps) self.new }
        ensures room { length self.new.on.items ≡ length self.old.on.items }
        ensures lesson { IfOk result (IsLesson store.now trail.now) }
    {
        let top = trail.level();
        let reach = Reach::Level(top);
        let mut hints = self.trace(alloc, store, trail, reach, conflict)?;
        let met = self.met(alloc, trail)?;
        self.minimise(implied, store, trail, top, &mut hints)?;
        hints.reverse();
        let hints = Items::from_vec(hints);
        let lit = trail.step_at(self.least).lit.not();
        let lits = self.outcome(alloc, trail, reach, lit)?;
        Ok(Lesson {
            lits,
            lit,
            level: self.highest(trail, top),
            hints,
            met,
        })
    }

    // What proves from a conflict, where nothing is decided, that nothing satisfies the lines. The marks
    // stay.
    pub(crate) fn refutation(
        &mut self,
        alloc: Global,
        store: &ClauseStore,
        trail: &Trail,
        conflict: u64,
    ) -> Result<Items<Hint>, NoMemory>
        requires unmarked { IsUnmarked self.old }
        requires long { length trail.now.steps ≤ length self.old.on.items }
        requires lines { AreLines trail.now.vars store.now }
        requires search { IsSearchTrail store.now trail.now }
        requires conflict { IsConflict store.now trail.now conflict }
        ensures walk { IsMarking trail.now Reach.Decisions self.new }
        ensures room { length self.new.on.items ≡ length self.old.on.items }
        ensures closing { IfOk result (IsClosing store.now trail.now Reach.Decisions
            self.new.on.items (self.new.least + spare Reach.Decisions) []) }
    {
        let mut hints = self.trace(alloc, store, trail, Reach::Decisions, conflict)?;
        hints.reverse();
        Ok(Items::from_vec(hints))
    }

    // Who is to blame for a literal that is false. The marks stay.
    pub(crate) fn blame(
        &mut self,
        alloc: Global,
        store: &ClauseStore,
        trail: &Trail,
        lit: Lit,
    ) -> Result<Blame, NoMemory>
        requires unmarked { IsUnmarked self.old }
        requires long { length trail.now.steps ≤ length self.old.on.items }
        requires lines { AreLines trail.now.vars store.now }
        requires search { IsSearchTrail store.now trail.now }
        requires falsified { IsForcedFalse trail.now lit }
        ensures marks { HasSeen (length trail.now.steps) self.new }
        ensures room { length self.new.on.items ≡ length self.old.on.items }
        ensures blame { IfOk result (IsBlame store.now trail.now lit) }
    {
        let Some(place) = trail.place_of(lit) else {
            unreachable!()
        };
        let hints = self.explain(alloc, store, trail, place)?;
        let lits = self.outcome(alloc, trail, Reach::Decisions, lit)?;
        Ok(Blame { lits, hints })
    }
}

// The higher of two levels, unless the second is that of the top.
fn raised(best: u64, level: u64, top: u64) -> u64
    ensures kept { best ≤ result }
    ensures reached { level ≢ top → level ≤ result }
    ensures one_of { (result ≡ best) ⊎ ((result ≡ level) × (level ≢ top)) }
{
    if level != top && best < level {
        level
    } else {
        best
    }
}
