// The places of lines, by their ids.
ghost use Rattle.std.specs.Prelude.{◌≡◌, ◌≢◌, ℕ, ◌+◌, ◌<◌, ◌^◌, [], None, Some, IsSome, IfSome, OnOk, OnErr, MatchOption, length, slice_index_or};
ghost use Rattle.pb_lin.specs.IdTable.{place_in};
ghost use Rattle.pb_lin.specs.LineMap.{IsNextAbove, NoneAbove};

use scut_base::NoMemory;
use std::alloc::Global;
use std::marker::Model;

// For each id its place, where it has one. Takes 4 bytes for each id up to the largest that was ever there.
// Contracts see the table.
#[derive(Debug, Drop)]
pub(crate) struct PlaceTable {
    // By id one more than its place; 0 where it has none.
    places: Vec<u32>,
}

impl Model for PlaceTable {
    ghost use Rattle.std.specs.Prelude.{List, ℕ};

    ghost Value = { List ℕ };

    ghost view = { λ t. t.places.items };
}

impl PlaceTable {
    // No id has a place. Takes no memory.
    pub(crate) fn new(alloc: Global) -> PlaceTable
        ensures { result ≡ [] }
    {
        PlaceTable {
            places: Vec::new(alloc),
        }
    }

    // The place of an id, in constant time.
    pub(crate) fn place(&self, id: u64) -> Option<u32>
        ensures value { result ≡ place_in self.now id }
        ensures small { IfSome result (λ place. place + 1 < 2 ^ 32) }
    {
        let at = id as usize;
        if at >= self.places.len() || self.places[at] == 0 {
            return None;
        }
        Some(self.places[at] - 1)
    }

    // The least id above `id` that has a place. Passes over the ids between them.
    pub(crate) fn next_above(&self, id: u64) -> Option<u64>
        ensures { MatchOption result
            (NoneAbove (place_in self.now) id)
            (IsNextAbove (place_in self.now) id) }
    {
        for next in (id as usize).saturating_add(1)..self.places.len() {
            if self.places[next] != 0 {
                return Some(next as u64);
            }
        }
        None
    }

    // Gives an id a place. Takes room for the ids up to it.
    pub(crate) fn insert(&mut self, id: u32, place: u32) -> Result<(), NoMemory>
        requires { place + 1 < 2 ^ 32 }
        ensures found { OnOk result (place_in self.new id ≡ Some place) }
        ensures others { (q : ℕ) → q ≢ id → place_in self.new q ≡ place_in self.old q }
        ensures err { OnErr result ((q : ℕ) → place_in self.new q ≡ place_in self.old q) }
    {
        reach(&mut self.places, id as usize)?;
        self.places[id as usize] = place + 1;
        Ok(())
    }

    // Gives an id that has a place another one.
    pub(crate) fn change(&mut self, id: u32, place: u32)
        requires there { IsSome (place_in self.old id) }
        requires small { place + 1 < 2 ^ 32 }
        ensures found { place_in self.new id ≡ Some place }
        ensures others { (q : ℕ) → q ≢ id → place_in self.new q ≡ place_in self.old q }
    {
        self.places[id as usize] = place + 1;
    }

    // Takes an id its place. Takes no memory.
    pub(crate) fn remove(&mut self, id: u64)
        ensures gone { place_in self.new id ≡ None }
        ensures others { (q : ℕ) → q ≢ id → place_in self.new q ≡ place_in self.old q }
    {
        let at = id as usize;
        if at < self.places.len() {
            self.places[at] = 0;
        }
    }
}

// Makes the table reach an id.
fn reach(places: &mut Vec<u32>, at: usize) -> Result<(), NoMemory>
    ensures same { (q : ℕ) → slice_index_or places.new.items q 0
        ≡ slice_index_or places.old.items q 0 }
    ensures reached { OnOk result (at < length places.new.items) }
{
    while places.len() <= at {
        places.push(0)?;
    }
    Ok(())
}
