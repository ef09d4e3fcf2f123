// The marked steps of a trail, from behind, without those between (DECISIONS, marked-heap).
ghost use Rattle.std.specs.Prelude.{◌≡◌, ◌+◌, ◌<◌, ◌≤◌, ℕ, List, All, Contains, OnOk, IfSome, IfNone, length, reverse};
ghost use Rattle.std.specs.Ordering.{nat_cmp};
ghost use Rattle.std.specs.BinaryHeap.{IsHeap, heap_items};
ghost use Rattle.scut_base.specs.Literal.{Literal};
ghost use Rattle.cdcl_trail.specs.SearchTrail.{AreLines, IsSearchTrail};
ghost use Rattle.cdcl_state.specs.declared.reach.Reach.TheVariants.{Decisions};
ghost use Rattle.cdcl_state.specs.Walking.{IsClosing, IsMarking, IsNextPlace, spare};

use crate::marks::Marks;
use crate::reach::Reach;
use clause_prop::{ClauseStore, Trail};
use hint_rup::Hint;
use scut_base::NoMemory;
use std::alloc::Global;
use std::collections::BinaryHeap;

impl Marks {
    // Resolves the marked steps before the place `end` that lines force. Costs their lines, and not the steps between.
    pub(crate) fn resolve_marked(
        &mut self,
        alloc: Global,
        store: &ClauseStore,
        trail: &Trail,
        end: u64,
        hints: &mut Vec<Hint>,
    ) -> Result<(), NoMemory>
        requires walk { IsMarking trail.now Decisions self.old }
        requires lines { AreLines trail.now.vars store.now }
        requires search { IsSearchTrail store.now trail.now }
        requires within { end ≤ length trail.now.steps }
        ensures walk { IsMarking trail.now Decisions self.new }
        ensures room { length self.new.on.items ≡ length self.old.on.items }
        ensures falls { self.new.least ≤ self.old.least }
        ensures closing { OnOk result ((given : List Literal)
            → IsClosing store.now trail.now Decisions self.old.on.items end given
            (reverse hints.old.items)
            → IsClosing store.now trail.now Decisions self.new.on.items
            (self.new.least + spare Decisions) given (reverse hints.new.items)) }
    {
        let mut waiting = BinaryHeap::new(alloc);
        gather(&mut waiting, self.places.as_slice())?;
        let mut before = end;
        'back: while let Some(place) = next_before(&mut waiting, before) {
            if place < self.least {
                return Ok(());
            }
            let known = self.places.len();
            self.step_back(store, trail, Reach::Decisions, place, hints)?;
            gather(&mut waiting, &self.places.as_slice()[known..])?;
            before = place;
        }
        Ok(())
    }
}

// Puts places into the heap.
fn gather(waiting: &mut BinaryHeap<u64>, places: &[u64]) -> Result<(), NoMemory>
    requires heap { IsHeap nat_cmp (heap_items waiting.old) }
    ensures heap { IsHeap nat_cmp (heap_items waiting.new) }
    ensures kept { (p : ℕ) → Contains (heap_items waiting.old) p
        → Contains (heap_items waiting.new) p }
    ensures all { OnOk result (All (Contains (heap_items waiting.new)) places.now) }
{
    for place in places {
        waiting.push(*place)?;
    }
    Ok(())
}

// Takes out the greatest place before this one, with those that aren't before it.
fn next_before(waiting: &mut BinaryHeap<u64>, end: u64) -> Option<u64>
    requires heap { IsHeap nat_cmp (heap_items waiting.old) }
    ensures heap { IsHeap nat_cmp (heap_items waiting.new) }
    ensures next { IfSome result
        (IsNextPlace (heap_items waiting.old) end (heap_items waiting.new)) }
    ensures none { IfNone result ((p : ℕ) → Contains (heap_items waiting.old) p → end ≤ p) }
{
    while let Some(place) = waiting.pop() {
        if place < end {
            return Some(place);
        }
    }
    None
}
