// The slots of clauses, by the ids of their lines.
ghost use Rattle.std.specs.Prelude.{◌≡◌, ◌≢◌, ℕ, ◌<◌, [], Some, length, OnOk, slice_index_or};
ghost use Rattle.watch_prop.specs.SlotTable.{slot_in};

use scut_base::NoMemory;
use std::alloc::Global;
use std::marker::Model;

/// For each id its slot, where it has one. The ids of a search follow one another, so a table by ids takes
/// 4 bytes for each, a sixth of what a map takes. Contracts see the table.
#[derive(Debug, Drop)]
pub struct SlotTable {
    // By id one more than its slot; 0 where it has none.
    slots: Vec<u32>,
}

impl Model for SlotTable {
    ghost use Rattle.std.specs.Prelude.{List, ℕ};

    ghost Value = { List ℕ };

    ghost view = { λ t. t.slots.items };
}

impl SlotTable {
    /// No id has a slot. Takes no memory.
    pub fn new(alloc: Global) -> SlotTable
        ensures { result ≡ [] }
    {
        SlotTable {
            slots: Vec::new(alloc),
        }
    }

    /// Gives an id a slot. Takes room for the ids up to it.
    pub fn insert(&mut self, id: u64, slot: u32) -> Result<(), NoMemory>
        ensures found { OnOk result (slot_in self.new id ≡ Some slot) }
        ensures others { (q : ℕ) → q ≢ id → slot_in self.new q ≡ slot_in self.old q }
    {
        if slot == u32::MAX {
            return Err(NoMemory);
        }
        self.reach(id as usize)?;
        self.slots[id as usize] = slot + 1;
        Ok(())
    }

    // Makes the table reach an id.
    fn reach(&mut self, at: usize) -> Result<(), NoMemory>
        ensures same { (q : ℕ) → slice_index_or self.new q 0 ≡ slice_index_or self.old q 0 }
        ensures reached { OnOk result (at < length self.new) }
    {
        while self.slots.len() <= at {
            self.slots.push(0)?;
        }
        Ok(())
    }

    /// Takes an id its slot, and answers it. Takes no memory.
    pub fn remove(&mut self, id: u64) -> Option<u32>
        ensures value { result ≡ slot_in self.old id }
        ensures others { (q : ℕ) → q ≢ id → slot_in self.new q ≡ slot_in self.old q }
    {
        let at = id as usize;
        if at >= self.slots.len() {
            return None;
        }
        let kept = self.slots[at];
        self.slots[at] = 0;
        if kept == 0 {
            return None;
        }
        Some(kept - 1)
    }
}
