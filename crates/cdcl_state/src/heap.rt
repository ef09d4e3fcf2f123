// A binary heap of variables by activity, that knows the place of each.
ghost use Rattle.std.specs.Prelude.{◌≡◌, ◌⊎◌, ℕ, ◌+◌, ◌-◌, ◌/◌, ◌*◌, ◌^◌, ◌<◌, ◌≤◌, ◌++◌, [], length, map, replicate, OnOk, MatchOption, slice_index_or, slice_set, vec_capacity, vec_len};
ghost use Rattle.cdcl_state.specs.Heap.{HeapValue, IsOrdered, IsOrderedButAbove, IsOrderedButBelow, IsLesserParent, IsGreaterChild, IsAboveChildren, SameHeap, CountsOn, IsAdded, IsExtended, IsGrownHeap, IsRaised, IsTaken, IsWaitingFrom, Waits, key, parent, swapped, with_room};

use scut_base::NoMemory;
use std::alloc::Global;
use std::marker::Model;

// For how many variables there is room: their numbers take 4 bytes.
const MOST_VARS: usize = u32::MAX as usize;

/// All variables from 1 on, of which those that wait form a heap with the most active in front.
/// Taking, adding and raising a variable cost the logarithm of the number that wait.
#[derive(Debug, Drop)]
pub struct VariableHeap {
    activities: Vec<u64>,
    // The first `count` wait and are the heap; the others follow in any order.
    vars: Vec<u32>,
    // By variable its place in that list.
    places: Vec<u32>,
    count: usize,
}

impl Model for VariableHeap {
    ghost use Rattle.std.specs.Prelude.{length, min, vec_capacity};
    ghost use Rattle.cdcl_state.specs.Heap.{HeapValue, ArePlaces, most_vars};

    ghost Value = { HeapValue };

    ghost view = { λ h. record {
      activities = h.activities.items;
      vars = h.vars.items;
      count = h.count;
      room = min most_vars
          (min (vec_capacity h.activities) (min (vec_capacity h.vars) (vec_capacity h.places)));
    } };

    ghost invariant = { λ h.
        ArePlaces (length h.activities.items) h.vars.items h.places.items h.count };
}

impl VariableHeap {
    /// No variable. Takes no memory.
    pub fn new(alloc: Global) -> VariableHeap
        ensures { result ≡ record { activities = []; vars = []; count = 0; room = 0 } }
    {
        VariableHeap {
            activities: Vec::new(alloc),
            vars: Vec::new(alloc),
            places: Vec::new(alloc),
            count: 0,
        }
    }

    // The activity of the variable at a place.
    fn activity_at(&self, place: usize) -> u64
        requires { place < self.now.count }
        ensures { result ≡ key self.now place }
    {
        self.activities[(self.vars[place] - 1) as usize]
    }

    // The place above, where it is less active.
    fn lesser_parent(&self, at: usize) -> Option<usize>
        requires { at < self.now.count }
        ensures { MatchOption result (0 < at → key self.now at ≤ key self.now (parent at))
            (λ above. IsLesserParent (key self.now) at above) }
    {
        if at == 0 {
            return None;
        }
        let above = (at - 1) / 2;
        if self.activity_at(above) < self.activity_at(at) {
            Some(above)
        } else {
            None
        }
    }

    // The more active of the places below, where it is more active.
    fn greater_child(&self, at: usize) -> Option<usize>
        ensures { MatchOption result (IsAboveChildren (key self.now) self.now.count at)
            (λ child. IsGreaterChild (key self.now) self.now.count at child) }
    {
        if at >= self.count / 2 {
            return None;
        }
        let mut child = 2 * at + 1;
        let other = child + 1;
        if other < self.count && self.activity_at(child) < self.activity_at(other) {
            child = other;
        }
        if self.activity_at(at) < self.activity_at(child) {
            Some(child)
        } else {
            None
        }
    }

    // Exchanges the variables at two places.
    fn swap(&mut self, first: usize, second: usize)
        requires first { first < length self.old.vars }
        requires second { second < length self.old.vars }
        ensures { self.new ≡ swapped self.old first second }
    {
        let var = self.vars[first];
        let other = self.vars[second];
        self.vars.swap(first, second);
        self.places[(var - 1) as usize] = second as u32;
        self.places[(other - 1) as usize] = first as u32;
    }

    // Moves the variable at a place up until none above it is less active.
    fn sift_up(&mut self, place: usize)
        requires within { place < self.old.count }
        requires room { self.old.count ≤ length self.old.vars }
        requires ordered { IsOrderedButAbove (key self.old) self.old.count place }
        ensures room { self.new.count ≤ length self.new.vars }
        ensures ordered { IsOrdered (key self.new) self.new.count }
        ensures same { SameHeap self.old self.new }
    {
        let mut at = place;
        while let Some(above) = self.lesser_parent(at) {
            self.swap(at, above);
            at = above;
        }
    }

    // Moves the variable at a place down until none below it is more active.
    fn sift_down(&mut self, place: usize)
        requires room { self.old.count ≤ length self.old.vars }
        requires ordered { IsOrderedButBelow (key self.old) self.old.count place }
        ensures room { self.new.count ≤ length self.new.vars }
        ensures ordered { IsOrdered (key self.new) self.new.count }
        ensures same { SameHeap self.old self.new }
    {
        let mut at = place;
        while let Some(child) = self.greater_child(at) {
            self.swap(at, child);
            at = child;
        }
    }

    /// Puts a variable among those that wait, if it isn't. Takes no memory.
    pub fn wait(&mut self, var: u64)
        requires positive { 0 < var }
        requires within { var ≤ length self.old.activities }
        requires ordered { IsOrdered (key self.old) self.old.count }
        ensures room { self.new.count ≤ length self.new.vars }
        ensures ordered { IsOrdered (key self.new) self.new.count }
        ensures added { IsAdded self.old self.new var }
    {
        let place = self.places[(var - 1) as usize] as usize;
        let end = self.count;
        if place >= end {
            self.swap(place, end);
            self.count = end + 1;
            self.sift_up(end);
        }
    }

    /// Takes a most active variable away from those that wait.
    pub fn take_greatest(&mut self) -> Option<u64>
        requires ordered { IsOrdered (key self.old) self.old.count }
        ensures room { self.new.count ≤ length self.new.vars }
        ensures ordered { IsOrdered (key self.new) self.new.count }
        ensures taken { MatchOption result ((self.old.count ≡ 0) × (self.new ≡ self.old))
            (λ var. IsTaken self.old self.new var) }
    {
        if self.count == 0 {
            return None;
        }
        let var = self.vars[0];
        let last = self.count - 1;
        self.swap(0, last);
        self.count = last;
        self.sift_down(0);
        Some(u64::from(var))
    }

    /// Adds to the activity of a variable, and answers the sum.
    pub fn raise(&mut self, var: u64, by: u64) -> u64
        requires positive { 0 < var }
        requires within { var ≤ length self.old.activities }
        requires fits { slice_index_or self.old.activities (var - 1) 0 + by < 2 ^ 64 }
        requires ordered { IsOrdered (key self.old) self.old.count }
        ensures room { self.new.count ≤ length self.new.vars }
        ensures ordered { IsOrdered (key self.new) self.new.count }
        ensures sum { result ≡ slice_index_or self.old.activities (var - 1) 0 + by }
        ensures raised { IsRaised self.old self.new var result }
    {
        let at = (var - 1) as usize;
        let sum = self.activities[at] + by;
        self.activities[at] = sum;
        let place = self.places[at] as usize;
        if place < self.count {
            self.sift_up(place);
        }
        sum
    }

    /// Halves all activities, rounded down. Costs their number.
    pub fn halve(&mut self)
        requires ordered { IsOrdered (key self.old) self.old.count }
        ensures room { self.new.count ≤ length self.new.vars }
        ensures ordered { IsOrdered (key self.new) self.new.count }
        ensures halved { self.new ≡ record {
          activities = map (λ a. a / 2) self.old.activities;
          vars = self.old.vars;
          count = self.old.count;
          room = self.old.room;
        } }
    {
        halve_all(&mut self.activities);
    }

    /// Makes room for so many variables. Does nothing where there is room; else it costs at most
    /// the number of variables. After `NoMemory` nothing has changed, but there may be more room.
    pub fn reserve(&mut self, vars: usize) -> Result<(), NoMemory>
        ensures same { self.new ≡ with_room self.old self.new.room }
        ensures room { OnOk result (vars ≤ self.new.room) }
    {
        if vars > MOST_VARS {
            return Err(NoMemory);
        }
        let more = vars.saturating_sub(self.activities.len());
        self.activities.reserve(more)?;
        self.vars.reserve(more)?;
        self.places.reserve(more)?;
        Ok(())
    }

    /// Puts further variables up to `vars` among those that wait, with activity 0. Does nothing
    /// where there are as many. Takes no memory. Costs the number of new variables.
    pub fn grow(&mut self, vars: usize)
        requires reserved { vars ≤ self.old.room }
        requires ordered { IsOrdered (key self.old) self.old.count }
        ensures room { self.new.count ≤ length self.new.vars }
        ensures ordered { IsOrdered (key self.new) self.new.count }
        ensures grown { IsGrownHeap self.old self.new vars }
    {
        let known = self.activities.len();
        self.extend(vars.saturating_sub(known));
        self.wait_from(known);
    }

    // Adds variables with activity 0 that don't wait.
    fn extend(&mut self, more: usize)
        requires reserved { more ≤ self.old.room - length self.old.activities }
        ensures { IsExtended self.old self.new more }
    {
        push_copies(&mut self.activities, 0, more);
        count_on(&mut self.vars, 1, more);
        count_on(&mut self.places, 0, more);
    }

    // Puts the variables after the first `known` among those that wait.
    fn wait_from(&mut self, known: usize)
        requires known { known ≤ length self.old.activities }
        requires ordered { IsOrdered (key self.old) self.old.count }
        ensures room { self.new.count ≤ length self.new.vars }
        ensures ordered { IsOrdered (key self.new) self.new.count }
        ensures waits { IsWaitingFrom self.old self.new known (length self.old.activities) }
    {
        for at in known..self.activities.len() {
            self.wait(at as u64 + 1);
        }
    }
}

/// Puts copies of an item at the end of a list that has room for them.
pub fn push_copies<T: Copy>(list: &mut Vec<T>, item: T, more: usize)
    requires { vec_len list.old + more ≤ vec_capacity list.old }
    ensures { list.new.items ≡ list.old.items ++ replicate more item }
{
    for _ in 0..more {
        list.push_reserved(item);
    }
}

// Puts numbers at the end of a list that has room for them, each of them its place plus `shift`.
fn count_on(list: &mut Vec<u32>, shift: u32, more: usize)
    requires small { vec_len list.old + more + shift ≤ 2 ^ 32 }
    requires room { vec_len list.old + more ≤ vec_capacity list.old }
    ensures { CountsOn list.old.items list.new.items shift more }
{
    for _ in 0..more {
        let next = list.len() as u32 + shift;
        list.push_reserved(next);
    }
}

// Halves each number, rounded down.
fn halve_all(numbers: &mut [u64])
    ensures { numbers.new ≡ map (λ a. a / 2) numbers.old }
{
    for number in numbers.iter_mut() {
        *number /= 2;
    }
}
