// Taking marks off steps that the other marked ones imply (DECISIONS, first-uip).
ghost use Rattle.std.specs.Prelude.{◌≡◌, ◌≢◌, ℕ, ◌<◌, ◌≤◌, [], true, All, OnOk, length, reverse};
ghost use Rattle.clause_prop.specs.Steps.{last_level};
ghost use Rattle.cdcl_trail.specs.SearchTrail.{AreLines, IsSearchTrail};
ghost use Rattle.cdcl_state.specs.declared.reach.Reach.TheVariants.{Level};
ghost use Rattle.cdcl_state.specs.Minimising.{IsBusy};
ghost use Rattle.cdcl_state.specs.Walking.{IsClosing, IsMarking};

use crate::implied::Implied;
use crate::marks::Marks;
use crate::reach::Reach;
use clause_prop::{ClauseStore, Step, Trail};
use hint_rup::Hint;
use scut_base::NoMemory;

impl Marks {
    // Takes the mark off a step below the level `top` that a line forces: marks what made its line
    // force it, and puts the line to the hints.
    fn drop_step(
        &mut self,
        store: &ClauseStore,
        trail: &Trail,
        top: u64,
        place: u64,
        hints: &mut Vec<Hint>,
    ) -> Result<(), NoMemory>
        requires walk { IsMarking trail.now (Level top) self.old }
        requires lines { AreLines trail.now.vars store.now }
        requires search { IsSearchTrail store.now trail.now }
        requires top { top ≡ last_level trail.now.steps }
        requires within { place < length trail.now.steps }
        ensures walk { IsMarking trail.now (Level top) self.new }
        ensures room { length self.new.on.items ≡ length self.old.on.items }
        ensures least { self.new.least ≡ self.old.least }
        ensures closing { OnOk result ((end : ℕ)
            → IsClosing store.now trail.now (Level top) self.old.on.items end []
            (reverse hints.old.items)
            → IsClosing store.now trail.now (Level top) self.new.on.items end []
            (reverse hints.new.items)) }
    {
        if !self.on[place as usize] {
            return Ok(());
        }
        let step = trail.step_at(place);
        if !is_forced_below(&step, top) {
            return Ok(());
        }
        let Some(line) = store.get(step.reason) else {
            unreachable!()
        };
        self.mark_all(trail, Reach::Level(top), place, line)?;
        self.on[place as usize] = false;
        hints.push(Hint::Id(step.reason))?;
        Ok(())
    }

    // Takes the marks off the steps at these places.
    pub(crate) fn drop_steps(
        &mut self,
        store: &ClauseStore,
        trail: &Trail,
        top: u64,
        places: &[u64],
        hints: &mut Vec<Hint>,
    ) -> Result<(), NoMemory>
        requires walk { IsMarking trail.now (Level top) self.old }
        requires lines { AreLines trail.now.vars store.now }
        requires search { IsSearchTrail store.now trail.now }
        requires top { top ≡ last_level trail.now.steps }
        requires within { All (λ p. p < length trail.now.steps) places.now }
        ensures walk { IsMarking trail.now (Level top) self.new }
        ensures room { length self.new.on.items ≡ length self.old.on.items }
        ensures least { self.new.least ≡ self.old.least }
        ensures closing { OnOk result ((end : ℕ)
            → IsClosing store.now trail.now (Level top) self.old.on.items end []
            (reverse hints.old.items)
            → IsClosing store.now trail.now (Level top) self.new.on.items end []
            (reverse hints.new.items)) }
    {
        let mut left = places.len();
        'down: while left > 0 {
            left -= 1;
            let place = places[left];
            self.drop_step(store, trail, top, place, hints)?;
        }
        Ok(())
    }

    // Takes the marks off steps below the level `top` that the other marked ones imply, and puts what
    // proves that to the hints.
    pub(crate) fn minimise(
        &mut self,
        implied: &mut Implied,
        store: &ClauseStore,
        trail: &Trail,
        top: u64,
        hints: &mut Vec<Hint>,
    ) -> Result<(), NoMemory>
        requires walk { IsMarking trail.now (Level top) self.old }
        requires lines { AreLines trail.now.vars store.now }
        requires search { IsSearchTrail store.now trail.now }
        requires top { top ≡ last_level trail.now.steps }
        requires busy { IsBusy (length trail.now.steps) implied.old }
        ensures busy { IsBusy (length trail.now.steps) implied.new }
        ensures memo { length implied.new.memo.items ≡ length implied.old.memo.items }
        ensures walk { IsMarking trail.now (Level top) self.new }
        ensures room { length self.new.on.items ≡ length self.old.on.items }
        ensures least { self.new.least ≡ self.old.least }
        ensures closing { OnOk result ((end : ℕ)
            → IsClosing store.now trail.now (Level top) self.old.on.items end []
            (reverse hints.old.items)
            → IsClosing store.now trail.now (Level top) self.new.on.items end []
            (reverse hints.new.items)) }
    {
        implied.find(store, trail, self, top)?;
        self.drop_steps(store, trail, top, implied.places.as_slice(), hints)
    }
}

// Whether a line forces the step, and it is of another level than the highest one, `top`.
fn is_forced_below(step: &Step, top: u64) -> bool
    ensures { result ≡ true → (step.now.level ≢ top) × (step.now.reason ≢ 0) }
{
    step.level != top && step.reason != 0
}
