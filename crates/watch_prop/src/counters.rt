// Lines that are no clauses: of each the sum of what isn't false is kept (DECISIONS, counters).
ghost use Rattle.std.specs.Prelude.{◌≡◌, ℕ, ◌+◌, ◌-◌, ◌<◌, ◌≤◌, [], true, false, Some, None, length, IfOk, OnOk, OnErr, IfSome, IfNone, slice_index_or};
ghost use Rattle.std.specs.FinMap.{empty, get, insert, remove};
ghost use Rattle.pb_lin.specs.Constraint.{ConstraintValue, UpTo};
ghost use Rattle.pb_lin.specs.LineMap.{LineMap, LinesUpTo};
ghost use Rattle.watch_prop.specs.declared.counters.Counters.{Counters};
ghost use Rattle.clause_prop.specs.declared.step.Step.{Step};
ghost use Rattle.clause_prop.specs.Steps.{TrailValue, cut, with_step};
ghost use Rattle.clause_prop.specs.Propagating.{Extends, IsConflict};
ghost use Rattle.clause_prop.specs.LineKinds.{IsClosedForCounted, is_watched};
ghost use Rattle.watch_prop.specs.Counting.{fresh_at, no_line};
ghost use Rattle.watch_prop.specs.Counted.{AreCounters, IsGoneStep, IsNewSlot, IsOnlyCounted, IsQuietStep};

use crate::counter_lines::{
    CounterLine, Fresh, add, falsified, greatest, list_terms, subtract, visit_line, visit_list,
};
use crate::occurrence_lists::OccurrenceLists;
use clause_prop::{ClauseStore, StoredLine, Trail, possible};
use scut_base::NoMemory;
use std::alloc::Global;
use std::collections::HashMap;

/// Keeps of each line the sum of the coefficients of the literals that aren't false, and reads a line only
/// where the sum falls so low that it may force a literal. A step costs the occurrences of its opposite.
/// (Counter propagation of pseudo-Boolean constraints, as in Galena: Chai and Kuehlmann 2003.) The sum is kept
/// and not the slack, since it is a natural number that needs no degree.
#[derive(Debug, Drop)]
pub struct Counters {
    alloc: Global,
    lines: Vec<CounterLine>,
    // By literals.
    lists: OccurrenceLists,
    // By ids.
    slots: HashMap<u64, usize>,
    // How many steps of the trail the sums count.
    counted: u64,
    // For each step that was looked at the trail's length when that was done.
    ends: Vec<u32>,
    // The slots of lines that weren't there when the first steps were looked at. Of the first `done` the lines
    // were gone through.
    fresh: Vec<Fresh>,
    done: usize,
    // How many lines were let go since the lists were gone through.
    dead: usize,
}

#[tactic(auto, unfolding(crate::specs::Counted::AreCounters))]
impl Counters {
    /// No line yet. Takes no memory.
    pub fn new(alloc: Global) -> Counters
        ensures { (n : ℕ) → AreCounters result empty (record { vars = n; steps = [] }) }
    {
        Counters {
            alloc,
            lines: Vec::new(alloc),
            lists: OccurrenceLists::new(alloc),
            slots: HashMap::new(alloc),
            counted: 0,
            ends: Vec::new(alloc),
            fresh: Vec::new(alloc),
            done: 0,
            dead: 0,
        }
    }

    /// Extends the trail by literals that counted lines force, until one has a negative slack, whose id is
    /// answered, or the trail is closed for them. After `NoMemory` it may be called again.
    pub fn propagate(
        &mut self,
        store: &ClauseStore,
        trail: &mut Trail,
    ) -> Result<Option<u64>, NoMemory>
        requires in_step { AreCounters self.old store.now trail.old }
        requires variables { LinesUpTo trail.old.vars store.now }
        ensures in_step { AreCounters self.new store.now trail.new }
        ensures conflict { IfOk result (λ found. IfSome found (IsConflict store.now trail.new)) }
        ensures closed { IfOk result
            (λ found. IfNone found (IsClosedForCounted store.now trail.new)) }
        ensures extends { Extends store.now trail.old trail.new }
    {
        if let Some(id) = self.settle(store, trail) {
            return Ok(Some(id));
        }
        self.look_at_all(store, trail)
    }

    // Goes through the new lines that weren't gone through, up to one that is violated.
    fn settle(&mut self, store: &ClauseStore, trail: &mut Trail) -> Option<u64>
        requires in_step { AreCounters self.old store.now trail.old }
        requires variables { LinesUpTo trail.old.vars store.now }
        ensures in_step { AreCounters self.new store.now trail.new }
        ensures conflict { IfSome result (IsConflict store.now trail.new) }
        ensures done { IfNone result (self.new.done ≡ length self.new.fresh.items) }
        ensures extends { Extends store.now trail.old trail.new }
    {
        while self.done < self.fresh.len() {
            let slot = self.fresh[self.done].slot;
            // No variable has two steps, so the sums are at least what isn't false.
            let _steps = trail.len();
            if let Some(id) = visit_line(&self.lines[slot], store, trail) {
                return Some(id);
            }
            self.fresh[self.done] = Fresh {
                slot,
                end: trail.len(),
            };
            self.done += 1;
        }
        None
    }

    // Looks at the steps that weren't looked at, until none is left or a line is violated.
    fn look_at_all(
        &mut self,
        store: &ClauseStore,
        trail: &mut Trail,
    ) -> Result<Option<u64>, NoMemory>
        requires in_step { AreCounters self.old store.now trail.old }
        requires done { self.old.done ≡ length self.old.fresh.items }
        requires variables { LinesUpTo trail.old.vars store.now }
        ensures in_step { AreCounters self.new store.now trail.new }
        ensures conflict { IfOk result (λ found. IfSome found (IsConflict store.now trail.new)) }
        ensures closed { IfOk result
            (λ found. IfNone found (IsClosedForCounted store.now trail.new)) }
        ensures extends { Extends store.now trail.old trail.new }
    {
        while (self.ends.len() as u64) < trail.len() {
            if let Some(id) = self.look(store, trail)? {
                return Ok(Some(id));
            }
        }
        Ok(None)
    }

    // Looks at the first step that wasn't looked at.
    fn look(&mut self, store: &ClauseStore, trail: &mut Trail) -> Result<Option<u64>, NoMemory>
        requires in_step { AreCounters self.old store.now trail.old }
        requires more { length self.old.ends.items < length trail.old.steps }
        requires variables { LinesUpTo trail.old.vars store.now }
        ensures in_step { AreCounters self.new store.now trail.new }
        ensures conflict { IfOk result (λ found. IfSome found (IsConflict store.now trail.new)) }
        ensures one { IfOk result (λ found. IfNone found
            (length self.new.ends.items ≡ length self.old.ends.items + 1)) }
        ensures done { self.old.done ≡ length self.old.fresh.items
            → self.new.done ≡ length self.new.fresh.items }
        ensures extends { Extends store.now trail.old trail.new }
    {
        let place = self.ends.len() as u64;
        let low = self.count_next(trail, place);
        if let Some(id) = self.visit_step(store, trail, place, low) {
            return Ok(Some(id));
        }
        let end = short_end(trail.len())?;
        self.ends.push(end)?;
        Ok(None)
    }

    // Goes through the lines that have the opposite of a counted step, where a sum may be below its limit.
    fn visit_step(
        &self,
        store: &ClauseStore,
        trail: &mut Trail,
        place: u64,
        low: bool,
    ) -> Option<u64>
        requires in_step { AreCounters self.now store.now trail.old }
        requires short { place < length trail.old.steps }
        requires quiet { low ≡ false → IsQuietStep self.now trail.old.steps place }
        requires variables { LinesUpTo trail.old.vars store.now }
        ensures conflict { IfSome result (IsConflict store.now trail.new) }
        ensures gone { IfNone result (IsGoneStep self.now store.now trail.new place) }
        ensures extends { Extends store.now trail.old trail.new }
    {
        if !low {
            return None;
        }
        let list = falsified(&self.lists, trail.step_at(place));
        visit_list(self.lines.as_slice(), list, store, trail)
    }

    // Counts a step that may be the next one to be counted; whether a line that it takes from may be below
    // its limit then. Where it is counted already, that isn't known.
    fn count_next(&mut self, trail: &Trail, place: u64) -> bool
        requires in_step { (store : LineMap) × AreCounters self.old store trail.now }
        requires short { place < length trail.now.steps }
        requires next { place ≤ self.old.counted }
        ensures in_step { (store : LineMap) → AreCounters self.old store trail.now
            → AreCounters self.new store trail.now }
        ensures counted { place < self.new.counted }
        ensures others { IsOnlyCounted self.old self.new }
        ensures quiet { result ≡ false → IsQuietStep self.new trail.now.steps place }
    {
        if place < self.counted {
            return true;
        }
        self.count(trail)
    }

    // Counts the first step that wasn't counted; whether a line that it takes from may be below its limit
    // then.
    fn count(&mut self, trail: &Trail) -> bool
        requires in_step { (store : LineMap) × AreCounters self.old store trail.now }
        requires more { self.old.counted < length trail.now.steps }
        ensures in_step { (store : LineMap) → AreCounters self.old store trail.now
            → AreCounters self.new store trail.now }
        ensures counted { self.new.counted ≡ self.old.counted + 1 }
        ensures others { IsOnlyCounted self.old self.new }
        ensures quiet { result ≡ false
            → IsQuietStep self.new trail.now.steps self.old.counted }
    {
        // The length is a u64, and so is a count that is at most it.
        let _fits = trail.len();
        let step = trail.step_at(self.counted);
        let low = subtract(&mut self.lines, falsified(&self.lists, step));
        self.counted += 1;
        low
    }

    // Takes the last step that was counted out of the sums.
    fn uncount(&mut self, trail: &Trail)
        requires in_step { (store : LineMap) × AreCounters self.old store trail.now }
        requires more { length self.old.ends.items < self.old.counted }
        ensures in_step { (store : LineMap) → AreCounters self.old store trail.now
            → AreCounters self.new store trail.now }
        ensures counted { self.new.counted + 1 ≡ self.old.counted }
        ensures others { IsOnlyCounted self.old self.new }
    {
        self.counted -= 1;
        let step = trail.step_at(self.counted);
        add(&mut self.lines, falsified(&self.lists, step));
    }

    // Counts the first `count` steps, where they aren't counted.
    fn count_to(&mut self, trail: &Trail, count: u64)
        requires in_step { (store : LineMap) × AreCounters self.old store trail.now }
        requires short { count ≤ length trail.now.steps }
        ensures in_step { (store : LineMap) → AreCounters self.old store trail.now
            → AreCounters self.new store trail.now }
        ensures counted { count ≤ self.new.counted }
        ensures others { IsOnlyCounted self.old self.new }
    {
        while self.counted < count {
            self.count(trail);
        }
    }

    /// Takes up a line that was stored, which waits to be gone through. Costs its literals, and the steps that
    /// weren't counted. After `NoMemory` the counters are in step with the store without the line.
    pub fn added(&mut self, store: &ClauseStore, trail: &Trail, id: u64) -> Result<(), NoMemory>
        requires in_step { AreCounters self.old (remove store.now id) trail.now }
        requires there { (c : ConstraintValue)
            × (get store.now id ≡ Some c) × (is_watched c ≡ false) }
        requires variables { LinesUpTo trail.now.vars store.now }
        ensures ok { OnOk result (AreCounters self.new store.now trail.now) }
        ensures err { OnErr result (AreCounters self.new (remove store.now id) trail.now) }
    {
        self.count_to(trail, trail.len());
        match store.get(id) {
            Some(line) => self.take_up(store, trail, line, id),
            None => Ok(()),
        }
    }

    // Takes up a line where all steps are counted.
    fn take_up(
        &mut self,
        store: &ClauseStore,
        trail: &Trail,
        line: &StoredLine,
        id: u64,
    ) -> Result<(), NoMemory>
        requires in_step { AreCounters self.old (remove store.now id) trail.now }
        requires counted { self.old.counted ≡ length trail.now.steps }
        requires there { get store.now id ≡ Some line.now }
        requires kind { is_watched line.now ≡ false }
        requires within { UpTo trail.now.vars line.now }
        ensures ok { OnOk result (AreCounters self.new store.now trail.now) }
        ensures err { OnErr result (AreCounters self.new (remove store.now id) trail.now) }
    {
        let kept = CounterLine {
            id,
            live: true,
            possible: possible(line, trail),
            limit: greatest(line) + line.degree(),
        };
        let slot = self.new_slot(line)?;
        self.slots.insert(id, slot)?;
        self.lines[slot] = kept;
        Ok(())
    }

    // A slot that isn't in use, with the line's literals listed as its occurrences. After `NoMemory` some may
    // be listed: of a slot that isn't in use they mean nothing.
    fn new_slot(&mut self, line: &StoredLine) -> Result<usize, NoMemory>
        requires { (store : LineMap) × (t : TrailValue) × AreCounters self.old store t }
        ensures in_step { (store : LineMap) (t : TrailValue) → AreCounters self.old store t
            → AreCounters self.new store t }
        ensures slot { IfOk result (IsNewSlot self.new line.now) }
        ensures slots { self.new.slots ≡ self.old.slots }
        ensures counted { self.new.counted ≡ self.old.counted }
    {
        let slot = self.lines.len();
        self.lines.push(dead_line())?;
        list_terms(self.alloc, &mut self.lists, line, slot)?;
        self.fresh.push(Fresh { slot, end: 0 })?;
        Ok(slot)
    }

    /// Lets go of the line of an id; where there is none, nothing changes. Takes no memory. Its occurrences
    /// stay behind until more lines were let go than there are, and enough to pay for it; then all lists are
    /// gone through.
    pub fn dropped(&mut self, id: u64)
        ensures { (lines : LineMap) (t : TrailValue) → AreCounters self.old lines t
            → AreCounters self.new (remove lines id) t }
    {
        self.let_go(id);
        if self.dead > self.slots.len() + self.lists.len() / 64 {
            self.lists.sweep(self.lines.as_slice());
            self.dead = 0;
        }
    }

    // The same, and all occurrences stay.
    fn let_go(&mut self, id: u64)
        ensures { (lines : LineMap) (t : TrailValue) → AreCounters self.old lines t
            → AreCounters self.new (remove lines id) t }
    {
        if let Some(slot) = self.slots.remove(&id) {
            if slot < self.lines.len() {
                self.lines[slot] = dead_line();
                self.dead = self.dead.saturating_add(1);
            }
        }
    }

    /// Makes ready for a cut of the trail to its first steps. Costs the occurrences of the opposites of the
    /// steps that go, and takes no memory.
    pub fn shrinking(&mut self, store: &ClauseStore, trail: &Trail, keep: u64)
        requires in_step { AreCounters self.old store.now trail.now }
        requires keep { keep ≤ length trail.now.steps }
        ensures { AreCounters self.new store.now (cut trail.now keep) }
    {
        self.forget(store, trail, keep);
        while self.counted > keep {
            self.uncount(trail);
        }
    }

    // Forgets what was looked at with more than `keep` steps.
    fn forget(&mut self, store: &ClauseStore, trail: &Trail, keep: u64)
        requires in_step { AreCounters self.old store.now trail.now }
        ensures in_step { AreCounters self.new store.now trail.now }
        ensures ends { (k : ℕ) → k < length self.new.ends.items
            → slice_index_or self.new.ends.items k 0 ≤ keep }
        ensures late { (k : ℕ) → k < self.new.done → (fresh_at self.new.fresh.items k).end ≤ keep }
    {
        let count = ends_within(self.ends.as_slice(), keep);
        self.ends.truncate(count);
        self.done = fresh_within(self.fresh.as_slice(), self.done, keep);
    }
}

// The line of a slot that isn't in use.
fn dead_line() -> CounterLine
    ensures { result ≡ no_line }
{
    CounterLine {
        id: 0,
        live: false,
        possible: 0,
        limit: 0,
    }
}

// The end in half the room; nothing that memory holds has a longer trail.
fn short_end(end: u64) -> Result<u32, NoMemory>
    ensures { IfOk result (λ short. short ≡ end) }
{
    if end > u64::from(u32::MAX) {
        return Err(NoMemory);
    }
    Ok(end as u32)
}

// How many of rising ends are at most `keep`.
fn ends_within(ends: &[u32], keep: u64) -> usize
    requires { (p q : ℕ) → p ≤ q → q < length ends.now
        → slice_index_or ends.now p 0 ≤ slice_index_or ends.now q 0 }
    ensures short { result ≤ length ends.now }
    ensures within { (k : ℕ) → k < result → slice_index_or ends.now k 0 ≤ keep }
{
    let mut count = ends.len();
    while count > 0 {
        if u64::from(ends[count - 1]) <= keep {
            return count;
        }
        count -= 1;
    }
    0
}

// How many of the first `done`, whose ends rise, were gone through with at most `keep` steps.
fn fresh_within(fresh: &[Fresh], done: usize, keep: u64) -> usize
    requires short { done ≤ length fresh.now }
    requires rising { (i k : ℕ) → i ≤ k → k < done
        → (fresh_at fresh.now i).end ≤ (fresh_at fresh.now k).end }
    ensures short { result ≤ done }
    ensures within { (k : ℕ) → k < result → (fresh_at fresh.now k).end ≤ keep }
{
    let mut count = done;
    while count > 0 {
        if fresh[count - 1].end <= keep {
            return count;
        }
        count -= 1;
    }
    0
}

/// Law: a step more on the trail leaves the counters in step.
pub fn longer_trail_keeps_counters()
    ensures { (w : Counters) (store : LineMap) (t : TrailValue) (s : Step)
        → AreCounters w store t → AreCounters w store (with_step t s) }
{}

/// Law: more variables leave them in step.
pub fn more_variables_keep_counters()
    ensures { (w : Counters) (store : LineMap) (t : TrailValue) (n : ℕ) → t.vars ≤ n
        → AreCounters w store t → AreCounters w store (record { vars = n; steps = t.steps }) }
{}

/// Law: a clause of two literals or more that is stored leaves them in step.
pub fn watched_line_keeps_counters()
    ensures { (w : Counters) (store : LineMap) (t : TrailValue) (id : ℕ) (c : ConstraintValue)
        → get store id ≡ Some c → is_watched c ≡ true
        → AreCounters w (remove store id) t → AreCounters w store t }
{}

/// Law: such a clause that is dropped leaves them in step.
pub fn dropped_watched_line_keeps_counters()
    ensures { (w : Counters) (store : LineMap) (t : TrailValue) (id : ℕ) (c : ConstraintValue)
        → get store id ≡ Some c → is_watched c ≡ true
        → AreCounters w store t → AreCounters w (remove store id) t }
{}
