// The places of constraints, by their ids.
ghost use Rattle.std.specs.Prelude.{◌≡◌, ◌≢◌, ℕ, ◌+◌, ◌<◌, ◌^◌, [], Some, None, IsSome, IfSome, OnOk, OnErr, MatchOption, length, slice_index_or};
ghost use Rattle.pb_lin.specs.IdList.{IsListed, IsRising, ListsIds};
ghost use Rattle.pb_lin.specs.IdTable.{place_in};
ghost use Rattle.pb_lin.specs.LineMap.{IsNextAbove, NoneAbove};
ghost use Rattle.pb_lin.specs.Place.{IsPlace};

use scut_base::NoMemory;
use std::alloc::Global;
use std::marker::Model;

// For each id its place, where it has one. Takes 4 bytes for each id up to the largest that was ever
// there. Contracts see the table.
//
// Beside it stands a list of the ids in rising order, for the walk from one to the next. An id that
// lost its place stays in it until more than half did.
#[derive(Debug, Drop)]
pub(crate) struct IdTable {
    // By id one more than its place; 0 where it has none.
    places: Vec<u32>,
    rising: Vec<u32>,
}

impl Model for IdTable {
    ghost use Rattle.std.specs.Prelude.{List, ℕ};
    ghost use Rattle.pb_lin.specs.IdList.{ListsIds};
    ghost use Rattle.pb_lin.specs.IdTable.{place_in};

    ghost Value = { List ℕ };

    ghost view = { λ t. t.places.items };

    ghost invariant = { λ t. ListsIds (place_in t.places.items) t.rising.items };
}

impl IdTable {
    // No id has a place. Takes no memory.
    pub(crate) fn new(alloc: Global) -> IdTable
        ensures { result ≡ [] }
    {
        IdTable {
            places: Vec::new(alloc),
            rising: Vec::new(alloc),
        }
    }

    // The place of an id, in constant time.
    pub(crate) fn place(&self, id: u64) -> Option<u32>
        ensures value { result ≡ place_in self.now id }
        ensures small { IfSome result (λ place. place + 1 < 2 ^ 32) }
    {
        place_of(&self.places, id)
    }

    // The least id above `id` that has a place. Takes a binary search, and passes over ids that lost
    // theirs: a walk over all ids passes over no more of these than have one.
    pub(crate) fn next_above(&self, id: u64) -> Option<u64>
        ensures { MatchOption result
            (NoneAbove (place_in self.now) id)
            (IsNextAbove (place_in self.now) id) }
    {
        for at in place_above(&self.rising, id)..self.rising.len() {
            let next = self.rising[at] as u64;
            if self.place(next).is_some() {
                return Some(next);
            }
        }
        None
    }

    // Gives an id a place. Takes room for the ids up to it, and a binary search; the ids above a new
    // one move.
    pub(crate) fn insert(&mut self, id: u32, place: u32) -> Result<(), NoMemory>
        requires { place + 1 < 2 ^ 32 }
        ensures found { OnOk result (place_in self.new id ≡ Some place) }
        ensures others { (q : ℕ) → q ≢ id → place_in self.new q ≡ place_in self.old q }
        ensures err { OnErr result ((q : ℕ) → place_in self.new q ≡ place_in self.old q) }
    {
        // An id more in the list changes nothing where the table gets no room.
        list_id(&mut self.rising, id)?;
        reach(&mut self.places, id as usize)?;
        self.places[id as usize] = place + 1;
        Ok(())
    }

    // Gives an id that has a place another one.
    pub(crate) fn change(&mut self, id: u32, place: u32)
        requires there { IsSome (place_in self.old id) }
        requires small { place + 1 < 2 ^ 32 }
        ensures found { place_in self.new id ≡ Some place }
        ensures others { (q : ℕ) → q ≢ id → place_in self.new q ≡ place_in self.old q }
    {
        self.places[id as usize] = place + 1;
    }

    // Takes an id its place. Takes no memory.
    pub(crate) fn remove(&mut self, id: u64)
        ensures gone { place_in self.new id ≡ None }
        ensures others { (q : ℕ) → q ≢ id → place_in self.new q ≡ place_in self.old q }
    {
        let at = id as usize;
        if at < self.places.len() {
            self.places[at] = 0;
        }
    }

    // Takes the ids without a place out of the list, where these are more than half of it; so many
    // have one.
    pub(crate) fn sweep(&mut self, count: usize)
        ensures { self.new ≡ self.old }
    {
        if count < self.rising.len() / 2 {
            retain_placed(&mut self.rising, &self.places);
        }
    }
}

// The place of an id, in constant time.
fn place_of(places: &[u32], id: u64) -> Option<u32>
    ensures value { result ≡ place_in places.now id }
    ensures small { IfSome result (λ place. place + 1 < 2 ^ 32) }
{
    let at = id as usize;
    if at >= places.len() || places[at] == 0 {
        return None;
    }
    Some(places[at] - 1)
}

// Makes the table reach an id.
fn reach(places: &mut Vec<u32>, at: usize) -> Result<(), NoMemory>
    ensures same { (q : ℕ) → slice_index_or places.new.items q 0 ≡ slice_index_or places.old.items q 0 }
    ensures reached { OnOk result (at < length places.new.items) }
{
    while places.len() <= at {
        places.push(0)?;
    }
    Ok(())
}

// Puts an id in its place among the others, where it isn't there.
fn list_id(ids: &mut Vec<u32>, id: u32) -> Result<(), NoMemory>
    requires { IsRising ids.old.items }
    ensures rising { IsRising ids.new.items }
    ensures listed { OnOk result (IsListed ids.new.items id) }
    ensures kept { (k : ℕ) → IsListed ids.old.items k → IsListed ids.new.items k }
{
    let place = place_from(ids, id);
    if place < ids.len() && ids[place] == id {
        return Ok(());
    }
    ids.insert(place, id)?;
    Ok(())
}

// Keeps the ids that have a place.
fn retain_placed(ids: &mut Vec<u32>, places: &[u32])
    requires { ListsIds (place_in places.now) ids.old.items }
    ensures { ListsIds (place_in places.now) ids.new.items }
{
    ids.retain(|id| place_of(places, *id as u64).is_some());
}

// The first place whose id isn't below the given one, by binary search.
fn place_from(ids: &[u32], id: u32) -> usize
    requires { IsRising ids.now }
    ensures { IsPlace (λ i. i) ids.now id result }
{
    ids.partition_point(|i| *i < id)
}

// The first place whose id is above the given one, by binary search.
fn place_above(ids: &[u32], id: u64) -> usize
    requires { IsRising ids.now }
    ensures { IsPlace (λ i. i) ids.now (id + 1) result }
{
    ids.partition_point(|i| *i as u64 <= id)
}
