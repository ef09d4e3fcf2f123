// The set of the minimal pairs.
ghost use Rattle.std.specs.Prelude.{◌≡◌, ◌↔◌, ◌++◌, ◌≤◌, ◌∷◌, [], ℕ, List, length, not, IfOk, OnOk, OnErr, vec_len, vec_capacity, Some, None, map};
ghost use Rattle.std.specs.List.{filter, position_from};
ghost use Rattle.std.specs.List.Sorted.{IsPermutation};
ghost use Rattle.front_set.specs.declared.entry.Entry.{Entry};
ghost use Rattle.front_set.specs.Vector.{is_below, AreRising};
ghost use Rattle.front_set.specs.Front.{StandsFor, IsInserted, AreIncomparable, first_below, not_above, count_above, vectors_of};

use crate::{CostVec, Entry, sort_entries};
use scut_base::{Assignment, Duplicate, NoMemory};
use std::alloc::Global;
use std::marker::Model;

/// Pairs of a cost vector and an assignment, none of whose vectors weakly dominates another.
#[derive(Debug, Drop)]
pub struct FrontSet {
    entries: Vec<Entry>,
}

impl Model for FrontSet {
    ghost use Rattle.std.specs.Prelude.{List};
    ghost use Rattle.front_set.specs.declared.entry.Entry.{Entry};
    ghost use Rattle.front_set.specs.Front.{AreIncomparable};

    ghost Value = { List Entry };

    ghost view = { λ s. s.entries.items };

    ghost invariant = { λ s. AreIncomparable s.entries.items };
}

/// What an insertion did.
#[derive(Clone, Copy, Debug, PartialEq, Eq)]
pub enum Inserted {
    /// Entry `by`, counted from 0, is the first that weakly dominates the vector. Nothing changed.
    Covered { by: usize },
    /// The pair was added, and the `removed` entries that its vector dominates are gone.
    Added { removed: u64 },
}

impl FrontSet {
    /// The set of no pairs. Takes no memory yet.
    pub fn new(alloc: Global) -> FrontSet
        ensures empty { result ≡ [] }
        ensures stands { StandsFor result [] }
    {
        FrontSet {
            entries: Vec::new(alloc),
        }
    }

    /// The number of entries.
    pub fn len(&self) -> usize
        ensures { result ≡ length self.now }
    {
        self.entries.len()
    }

    /// The entries, in the order in which they were added.
    pub fn entries(&self) -> &[Entry]
        ensures entries { result.now ≡ self.now }
        ensures incomparable { AreIncomparable self.now }
    {
        self.entries.as_slice()
    }

    /// Adds a pair, where no entry weakly dominates its vector, and drops the entries that the vector
    /// dominates. Costs one pass over the entries, so that a run of insertions is quadratic in the
    /// front: about 8 seconds for a front of 2^15 vectors of two costs. A pair that isn't added is given
    /// up. After want of memory nothing has changed.
    pub fn insert(&mut self, vec: CostVec, model: Assignment) -> Result<Inserted, NoMemory>
        ensures inserted { let pair : Entry = record { costs = vec; model = model } in
            IfOk result (λ done. IsInserted self.old self.new pair done) }
        ensures stands { let pair : Entry = record { costs = vec; model = model } in
            OnOk result ((pairs : List Entry)
            → StandsFor self.old pairs → StandsFor self.new (pairs ++ pair ∷ [])) }
        ensures err { OnErr result (self.new ≡ self.old) }
    {
        if let Some(by) = place_below(&self.entries, &vec) {
            return Ok(Inserted::Covered { by });
        }
        // First what may fail, so that want of memory leaves all entries where they are.
        self.entries.reserve(1)?;
        let removed = drop_above(&mut self.entries, &vec);
        self.entries.push(Entry { costs: vec, model })?;
        Ok(Inserted::Added { removed })
    }

    /// Copies of the entries, in rising lexicographic order of their vectors. Costs a copy of each entry
    /// and a sort; what is dear is to fill the set, one pass over the entries an insertion.
    pub fn sorted(&self, alloc: Global) -> Result<Vec<Entry>, NoMemory>
        ensures same { IfOk result (λ v. IsPermutation self.now v.items) }
        ensures rising { IfOk result (λ v. AreRising (vectors_of v.items)) }
    {
        sort_entries(copies(alloc, &self.entries)?)
    }
}

// The place of the first entry that weakly dominates the vector.
fn place_below(entries: &[Entry], vec: &CostVec) -> Option<usize>
    ensures { result ≡ first_below entries.now vec.now }
{
    entries.iter().position(|entry| entry.costs.is_below(vec))
}

// Drops the entries that the vector weakly dominates, and answers their number.
fn drop_above(entries: &mut Vec<Entry>, vec: &CostVec) -> u64
    ensures kept { entries.new.items ≡ not_above vec.now entries.old.items }
    ensures removed { result ≡ count_above vec.now entries.old.items }
    ensures len { vec_len entries.new ≤ vec_len entries.old }
    ensures capacity { vec_capacity entries.new ≡ vec_capacity entries.old }
{
    let before = entries.len();
    entries.retain(|entry| !vec.is_below(&entry.costs));
    (before - entries.len()) as u64
}

// Copies of entries, in the same order.
fn copies(alloc: Global, entries: &[Entry]) -> Result<Vec<Entry>, NoMemory>
    ensures { IfOk result (λ v. v.items ≡ entries.now) }
{
    let mut all = Vec::with_capacity(alloc, entries.len())?;
    for entry in entries {
        all.push(entry.copy(alloc)?)?;
    }
    Ok(all)
}
