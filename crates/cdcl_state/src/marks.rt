// Marks on the steps of a trail, and the walk back that makes them.
ghost use Rattle.std.specs.Prelude.{◌≡◌, ◌≢◌, ◌∷◌, ℕ, ◌+◌, ◌<◌, ◌≤◌, ◌⊎◌, true, [], max, List, All, OnOk, OnErr, IfOk, length, reverse};
ghost use Rattle.std.specs.FinMap.{get};
ghost use Rattle.scut_base.specs.Literal.{Literal};
ghost use Rattle.pb_lin.specs.Constraint.{UpTo, literals, opposite};
ghost use Rattle.clause_prop.specs.declared.step.Step.{Step};
ghost use Rattle.clause_prop.specs.Propagating.{IsConflict};
ghost use Rattle.cdcl_trail.specs.SearchTrail.{AreLines, IsSearchTrail, IsStepAt};
ghost use Rattle.cdcl_state.specs.Walking.{AreMarks, AreUnresolved, HasSeen, IsAbove, IsClosing, IsLonger, IsMarkedBefore, IsMarking, IsMore, IsUnmarked, MayWalkBack, WalksBack, is_marked, is_resolved, spare};

use crate::reach::Reach;
use clause_prop::{ClauseStore, Step, StoredLine, Trail};
use hint_rup::Hint;
use scut_base::{Items, Lit, NoMemory};
use std::alloc::Global;

// Marks on the steps of a trail.
#[derive(Debug, Drop)]
pub(crate) struct Marks {
    // By place of the trail.
    pub(crate) on: Vec<bool>,
    // By place of the trail whether it was marked, even where the mark was taken off.
    pub(crate) seen: Vec<bool>,
    // The places that were marked.
    pub(crate) places: Items<u64>,
    // No marked place of a step that the walk resolves is before it.
    pub(crate) least: u64,
}

impl Marks {
    // No room.
    pub(crate) fn new(alloc: Global) -> Marks
        ensures room { result.on.items ≡ [] }
        ensures unmarked { IsUnmarked result }
    {
        Marks {
            on: Vec::new(alloc),
            seen: Vec::new(alloc),
            places: Items::new(alloc),
            least: 0,
        }
    }

    // Makes room for so many places, which are not marked.
    pub(crate) fn grow(&mut self, places: u64) -> Result<(), NoMemory>
        requires unmarked { IsUnmarked self.old }
        ensures unmarked { IsUnmarked self.new }
        ensures ok { OnOk result
            (length self.new.on.items ≡ max places (length self.old.on.items)) }
        ensures err { OnErr result (length self.new.on.items ≡ length self.old.on.items) }
    {
        let places = places as usize;
        if self.seen.len() < places {
            self.seen.resize(places, false)?;
        }
        if self.on.len() < places {
            self.on.resize(places, false)?;
        }
        Ok(())
    }

    // Takes all marks away.
    pub(crate) fn clear(&mut self)
        requires { (n : ℕ) × HasSeen n self.old }
        ensures unmarked { IsUnmarked self.new }
        ensures room { length self.new.on.items ≡ length self.old.on.items }
    {
        while let Some(place) = self.places.pop() {
            self.on[place as usize] = false;
            self.seen[place as usize] = false;
        }
    }

    // Lists a place, where it isn't listed yet.
    fn list(&mut self, place: u64) -> Result<(), NoMemory>
        requires { place < length self.old.seen.items }
        ensures are { (n : ℕ) → AreMarks n self.old.seen.items self.old.places
            → n ≤ length self.old.seen.items → place < n
            → AreMarks n self.new.seen.items self.new.places }
        ensures longer { IsLonger self.old.places self.new.places }
        ensures more { IsMore self.old.seen.items self.new.seen.items }
        ensures room { length self.new.seen.items ≡ length self.old.seen.items }
        ensures seen { OnOk result (is_marked self.new.seen.items place ≡ true) }
        ensures on { self.new.on.items ≡ self.old.on.items }
        ensures least { self.new.least ≡ self.old.least }
    {
        if !self.seen[place as usize] {
            self.places.push(place)?;
            self.seen[place as usize] = true;
        }
        Ok(())
    }

    // Marks the step that makes the literal false, where it stands before the place `end`.
    fn mark(&mut self, trail: &Trail, reach: Reach, end: u64, lit: Lit) -> Result<(), NoMemory>
        requires walk { IsMarking trail.now reach self.old }
        requires from_one { 0 < lit.var }
        requires upto { lit.var ≤ trail.now.vars }
        ensures walk { IsMarking trail.now reach self.new }
        ensures longer { IsLonger self.old.places self.new.places }
        ensures more { IsMore self.old.on.items self.new.on.items }
        ensures room { length self.new.on.items ≡ length self.old.on.items }
        ensures falls { self.new.least ≤ self.old.least }
        ensures stays { AreUnresolved trail.now reach end → self.new.least ≡ self.old.least }
        ensures marked { OnOk result (IsMarkedBefore trail.now self.new.on.items end lit) }
    {
        // Tells that no other step is of the literal's variable.
        let _steps = trail.len();
        let Some(place) = trail.place_of(lit) else {
            return Ok(());
        };
        if place >= end || self.on[place as usize] {
            return Ok(());
        }
        let step = trail.step_at(place);
        if step.lit.is_neg() == lit.is_neg() {
            return Ok(());
        }
        self.list(place)?;
        self.on[place as usize] = true;
        self.least = lowered(self.least, reach, &step, place);
        Ok(())
    }

    // Marks the steps before the place `end` that make literals of the line false.
    pub(crate) fn mark_all(
        &mut self,
        trail: &Trail,
        reach: Reach,
        end: u64,
        line: &StoredLine,
    ) -> Result<(), NoMemory>
        requires walk { IsMarking trail.now reach self.old }
        requires upto { UpTo trail.now.vars line.now }
        ensures walk { IsMarking trail.now reach self.new }
        ensures longer { IsLonger self.old.places self.new.places }
        ensures more { IsMore self.old.on.items self.new.on.items }
        ensures room { length self.new.on.items ≡ length self.old.on.items }
        ensures falls { self.new.least ≤ self.old.least }
        ensures stays { AreUnresolved trail.now reach end → self.new.least ≡ self.old.least }
        ensures marked { OnOk result
            (All (IsMarkedBefore trail.now self.new.on.items end) (literals line.now.terms)) }
    {
        for lit in line.literals() {
            self.mark(trail, reach, end, *lit)?;
        }
        Ok(())
    }

    // Resolves the step at the place, where it is marked and the walk resolves such steps: marks what
    // made its line force it, and puts the line to the hints.
    pub(crate) fn step_back(
        &mut self,
        store: &ClauseStore,
        trail: &Trail,
        reach: Reach,
        place: u64,
        hints: &mut Vec<Hint>,
    ) -> Result<(), NoMemory>
        requires walk { IsMarking trail.now reach self.old }
        requires lines { AreLines trail.now.vars store.now }
        requires search { IsSearchTrail store.now trail.now }
        requires after { self.old.least + spare reach ≤ place }
        requires within { place < length trail.now.steps }
        ensures walk { IsMarking trail.now reach self.new }
        ensures room { length self.new.on.items ≡ length self.old.on.items }
        ensures longer { IsLonger self.old.places self.new.places }
        ensures falls { self.new.least ≤ self.old.least }
        ensures closing { OnOk result ((given : List Literal)
            → IsClosing store.now trail.now reach self.old.on.items (place + 1) given
            (reverse hints.old.items)
            → IsClosing store.now trail.now reach self.new.on.items place given
            (reverse hints.new.items)) }
    {
        if !self.on[place as usize] {
            return Ok(());
        }
        let step = trail.step_at(place);
        if !reach.resolves(&step) {
            return Ok(());
        }
        let Some(line) = store.get(step.reason) else {
            unreachable!()
        };
        self.mark_all(trail, reach, place, line)?;
        hints.push(Hint::Id(step.reason))?;
        Ok(())
    }

    // Resolves the marked steps before the place `end`, back to the least of them, or before it.
    fn walk_back(
        &mut self,
        alloc: Global,
        store: &ClauseStore,
        trail: &Trail,
        reach: Reach,
        end: u64,
        hints: &mut Vec<Hint>,
    ) -> Result<(), NoMemory>
        requires { MayWalkBack store.now trail.now reach end self.old }
        ensures { WalksBack store.now trail.now reach end self.old self.new hints.old.items
            hints.new.items result }
    {
        match reach {
            Reach::Level(_) => self.scan_back(store, trail, reach, end, hints),
            Reach::Decisions => self.resolve_marked(alloc, store, trail, end, hints),
        }
    }

    // The same, step by step: costs all steps from the least of them on.
    fn scan_back(
        &mut self,
        store: &ClauseStore,
        trail: &Trail,
        reach: Reach,
        end: u64,
        hints: &mut Vec<Hint>,
    ) -> Result<(), NoMemory>
        requires { MayWalkBack store.now trail.now reach end self.old }
        ensures { WalksBack store.now trail.now reach end self.old self.new hints.old.items
            hints.new.items result }
    {
        let spare = reach.spare();
        let mut place = end;
        'back: while self.least + spare < place {
            place -= 1;
            self.step_back(store, trail, reach, place, hints)?;
        }
        Ok(())
    }

    // Walks back from a conflict. The conflict is the first of the hints, and the others are from
    // behind in the order of the trail.
    pub(crate) fn trace(
        &mut self,
        alloc: Global,
        store: &ClauseStore,
        trail: &Trail,
        reach: Reach,
        conflict: u64,
    ) -> Result<Vec<Hint>, NoMemory>
        requires unmarked { IsUnmarked self.old }
        requires long { length trail.now.steps ≤ length self.old.on.items }
        requires lines { AreLines trail.now.vars store.now }
        requires search { IsSearchTrail store.now trail.now }
        requires conflict { IsConflict store.now trail.now conflict }
        requires above { IsAbove trail.now reach }
        ensures walk { IsMarking trail.now reach self.new }
        ensures room { length self.new.on.items ≡ length self.old.on.items }
        ensures within { IfOk result
            (λ hints. self.new.least + spare reach ≤ length trail.now.steps) }
        ensures closing { IfOk result
            (λ hints. IsClosing store.now trail.now reach self.new.on.items
            (self.new.least + spare reach) [] (reverse hints.items)) }
    {
        self.least = trail.len();
        let Some(line) = store.get(conflict) else {
            unreachable!()
        };
        self.mark_all(trail, reach, trail.len(), line)?;
        let mut hints = Vec::new(alloc);
        hints.push(Hint::Id(conflict))?;
        self.walk_back(alloc, store, trail, reach, trail.len(), &mut hints)?;
        Ok(hints)
    }

    // Walks back from a step that a line forces, to the decisions. The hints are in the order of the
    // trail, and the step's line is the last.
    pub(crate) fn explain(
        &mut self,
        alloc: Global,
        store: &ClauseStore,
        trail: &Trail,
        place: u64,
    ) -> Result<Items<Hint>, NoMemory>
        requires unmarked { IsUnmarked self.old }
        requires long { length trail.now.steps ≤ length self.old.on.items }
        requires lines { AreLines trail.now.vars store.now }
        requires search { IsSearchTrail store.now trail.now }
        requires within { place < length trail.now.steps }
        requires forced { (s : Step) → IsStepAt trail.now place s → s.reason ≢ 0 }
        ensures walk { IsMarking trail.now Reach.Decisions self.new }
        ensures room { length self.new.on.items ≡ length self.old.on.items }
        ensures closing { IfOk result (λ hints. (l : Literal) (s : Step)
            → IsStepAt trail.now place s → s.lit ≡ opposite l
            → IsClosing store.now trail.now Reach.Decisions self.new.on.items self.new.least
            (l ∷ []) hints) }
    {
        let reach = Reach::Decisions;
        let id = trail.step_at(place).reason;
        let Some(line) = store.get(id) else {
            unreachable!()
        };
        self.least = place;
        let mut hints = Vec::new(alloc);
        hints.push(Hint::Id(id))?;
        self.mark_all(trail, reach, place, line)?;
        self.walk_back(alloc, store, trail, reach, place, &mut hints)?;
        hints.reverse();
        Ok(Items::from_vec(hints))
    }
}

// The least place of a marked step that the walk resolves, with one place more that is marked.
fn lowered(least: u64, reach: Reach, step: &Step, place: u64) -> u64
    ensures falls { result ≤ least }
    ensures reached { is_resolved reach step.now ≡ true → result ≤ place }
    ensures one_of { (result ≡ least) ⊎ ((result ≡ place) × (is_resolved reach step.now ≡ true)) }
{
    if place < least && reach.resolves(step) {
        place
    } else {
        least
    }
}
