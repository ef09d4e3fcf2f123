// The occurrences of literals.
ghost use Rattle.std.specs.Prelude.{◌≡◌, ◌≢◌, ℕ, ◌<◌, ◌++◌, ◌∷◌, [], true, length, IfOk, OnOk, OnErr, slice_index_or};
ghost use Rattle.watch_prop.specs.Counting.{AreOfSlots, IsListOf, line_at, list_at, listed, no_list};

use crate::counter_lines::{CounterLine, Occurrence, sweep_list};
use scut_base::{Items, NoMemory};
use std::alloc::Global;

/// The occurrences of the literal of a code.
#[derive(Debug, Drop)]
pub struct CodeList {
    pub code: usize,
    pub items: Items<Occurrence>,
}

/// A list for each literal that occurs, found by its code: a literal that doesn't occur takes 4 bytes, if its
/// code isn't above all that do.
#[derive(Debug, Drop)]
pub struct OccurrenceLists {
    // By code a place in the lists, which counts only where the list there is of this code.
    pub places: Vec<u32>,
    pub lists: Vec<CodeList>,
}

impl OccurrenceLists {
    /// No occurrence. Takes no memory.
    pub fn new(alloc: Global) -> OccurrenceLists
        ensures { (k : ℕ) → list_at result k ≡ [] }
    {
        OccurrenceLists {
            places: Vec::new(alloc),
            lists: Vec::new(alloc),
        }
    }

    /// The number of codes that it reaches.
    pub fn len(&self) -> usize {
        self.places.len()
    }

    /// The occurrences of the literal of a code.
    pub fn of(&self, code: usize) -> &[Occurrence]
        ensures { result.now ≡ list_at self.now code }
    {
        let place = self.place_of(code);
        if place < self.lists.len() && self.lists[place].code == code {
            return self.lists[place].items.as_slice();
        }
        &[]
    }

    // The place that is kept for a code, and 0 where none is.
    fn place_of(&self, code: usize) -> usize
        ensures { result ≡ slice_index_or self.now.places.items code 0 }
    {
        if code < self.places.len() {
            return self.places[code] as usize;
        }
        0
    }

    /// Puts an occurrence at the end of the list of a code.
    pub fn push(
        &mut self,
        alloc: Global,
        code: usize,
        occurrence: Occurrence,
    ) -> Result<(), NoMemory>
        ensures others { (k : ℕ) → k ≢ code → list_at self.new k ≡ list_at self.old k }
        ensures ok { OnOk result (list_at self.new code ≡ list_at self.old code ++ occurrence ∷ []) }
        ensures err { OnErr result (list_at self.new code ≡ list_at self.old code) }
    {
        let place = self.open(alloc, code)?;
        self.lists[place].items.push(occurrence)?;
        Ok(())
    }

    // The place of the list of a code, which is made where there is none.
    fn open(&mut self, alloc: Global, code: usize) -> Result<usize, NoMemory>
        ensures same { (k : ℕ) → list_at self.new k ≡ list_at self.old k }
        ensures found { IfOk result (IsListOf self.new code) }
    {
        let place = self.place_of(code);
        if place < self.lists.len() && self.lists[place].code == code {
            return Ok(place);
        }
        self.add(alloc, code)
    }

    // Makes an empty list of a code, which has none.
    fn add(&mut self, alloc: Global, code: usize) -> Result<usize, NoMemory>
        requires { list_at self.old code ≡ [] }
        ensures same { (k : ℕ) → list_at self.new k ≡ list_at self.old k }
        ensures found { IfOk result (IsListOf self.new code) }
    {
        let place = self.lists.len();
        if place > u32::MAX as usize {
            return Err(NoMemory);
        }
        reach(&mut self.places, code)?;
        self.lists.push(CodeList {
            code,
            items: Items::new(alloc),
        })?;
        self.places[code] = place as u32;
        Ok(place)
    }

    /// Takes occurrences in slots that aren't live out of all lists.
    pub fn sweep(&mut self, lines: &[CounterLine])
        ensures slots { (n code : ℕ) → AreOfSlots n (list_at self.old code)
            → AreOfSlots n (list_at self.new code) }
        ensures same { (code j : ℕ) → (line_at lines.now j).live ≡ true
            → listed j (list_at self.new code) ≡ listed j (list_at self.old code) }
    {
        sweep_all(&mut self.lists, lines);
    }
}

// Makes the places reach a code.
fn reach(places: &mut Vec<u32>, code: usize) -> Result<(), NoMemory>
    ensures same { (k : ℕ) → slice_index_or places.new.items k 0 ≡ slice_index_or places.old.items k 0 }
    ensures reached { OnOk result (code < length places.new.items) }
{
    while places.len() <= code {
        places.push(0)?;
    }
    Ok(())
}

// Takes occurrences in slots that aren't live out of these lists.
fn sweep_all(lists: &mut Vec<CodeList>, lines: &[CounterLine])
    ensures code { (i : ℕ) → (slice_index_or lists.new.items i no_list).code
        ≡ (slice_index_or lists.old.items i no_list).code }
    ensures slots { (n i : ℕ) → AreOfSlots n (slice_index_or lists.old.items i no_list).items
        → AreOfSlots n (slice_index_or lists.new.items i no_list).items }
    ensures same { (i j : ℕ) → (line_at lines.now j).live ≡ true
        → listed j (slice_index_or lists.new.items i no_list).items
        ≡ listed j (slice_index_or lists.old.items i no_list).items }
{
    for place in 0..lists.len() {
        sweep_list(&mut lists[place].items, lines);
    }
}
