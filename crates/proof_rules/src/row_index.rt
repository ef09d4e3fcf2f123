// The index from variables to rows, by which a substitution finds the rows that it touches (DECISIONS, witness-index).
ghost use Rattle.std.specs.Prelude.{◌≡◌, ℕ, ◌+◌, ◌<◌, ◌++◌, [], true, length, map, slice_index_or, All, AllPairs, Contains, IfOk, OnOk};
ghost use Rattle.scut_base.specs.Literal.{Literal};
ghost use Rattle.pb_lin.specs.Constraint.{ConstraintValue, literals};
ghost use Rattle.pb_lin.specs.Place.{IsPlace};
ghost use Rattle.pb_lin.specs.Substitution.{has_image};
ghost use Rattle.proof_rules.specs.RowIndex.{AreInOrder, IsRowIndex};

use pb_lin::{Constraint, Witness};
use scut_base::{Items, Lit, NoMemory};
use std::alloc::Global;

// For each variable the places, counted from 0, of the rows that it stands in: a search that writes many `red` and `dom`
// lines would else walk over all rows at each.
#[derive(Debug, Drop)]
pub(crate) struct RowIndex {
    // How many rows are entered.
    pub(crate) count: usize,
    // An entry for each literal of these rows: its variable with the place. The variables don't fall.
    pub(crate) entries: Items<(u64, usize)>,
}

impl RowIndex {
    // The index of no rows. Takes no memory.
    pub(crate) fn new(alloc: Global) -> RowIndex
        ensures count { result.count ≡ 0 }
        ensures entries { result.entries ≡ [] }
    {
        RowIndex {
            count: 0,
            entries: Items::new(alloc),
        }
    }

    // The index of these rows. Takes 16 bytes for each of their literals, at once, and sorts them.
    pub(crate) fn of_rows(alloc: Global, rows: &[Constraint]) -> Result<RowIndex, NoMemory>
        ensures count { IfOk result (λ i. i.count ≡ length rows.now) }
        ensures rows { IfOk result (λ i. IsRowIndex i.count i.entries rows.now) }
    {
        let literals = rows
            .iter()
            .fold(0usize, |n, row| n.saturating_add(row.len()));
        let mut entries = Vec::with_capacity(alloc, literals)?;
        for (at, row) in rows.iter().enumerate() {
            enter(&mut entries, row.literals(), at)?;
        }
        entries.sort_unstable_by_key(|entry| entry.0);
        Ok(RowIndex {
            count: rows.len(),
            entries: Items::from_vec(entries),
        })
    }

    // The places below `rows` of the entered rows that have a variable with an image, in rising order.
    // Costs a binary search for each image, and sorts what is found.
    pub(crate) fn touched(
        &self,
        alloc: Global,
        w: &Witness,
        rows: usize,
    ) -> Result<Vec<usize>, NoMemory>
        requires { AreInOrder self.now.entries }
        ensures rising { IfOk result (λ v. AllPairs (λ i j. i < j) v.items) }
        ensures within { IfOk result (λ v. All (λ k. k < rows) v.items) }
        ensures all { IfOk result (λ v. (var k : ℕ) → has_image w.now var ≡ true → k < rows
            → Contains self.now.entries (var, k) → Contains v.items k) }
    {
        let images = w.images();
        let mut places = Vec::new(alloc);
        for image in images {
            push_places(&mut places, self.entries.as_slice(), image.0, rows)?;
        }
        places.sort_unstable();
        places.dedup();
        Ok(places)
    }
}

// Enters the variables of these literals with a place.
fn enter(entries: &mut Vec<(u64, usize)>, literals: &[Lit], place: usize) -> Result<(), NoMemory>
    ensures { OnOk result
        (entries.new.items ≡ entries.old.items ++ map (λ l. (l.var, place)) literals.now) }
{
    for literal in literals {
        entries.push((literal.var(), place))?;
    }
    Ok(())
}

// Puts the places below `rows` that are entered with the variable after the others.
fn push_places(
    places: &mut Vec<usize>,
    entries: &[(u64, usize)],
    var: u64,
    rows: usize,
) -> Result<(), NoMemory>
    requires { AreInOrder entries.now }
    ensures within { OnOk result
        (All (λ k. k < rows) places.old.items → All (λ k. k < rows) places.new.items) }
    ensures kept { OnOk result
        ((k : ℕ) → Contains places.old.items k → Contains places.new.items k) }
    ensures pushed { OnOk result ((k : ℕ) → k < rows → Contains entries.now (var, k)
        → Contains places.new.items k) }
{
    let first = place_of(entries, var);
    let end = place_above(entries, var);
    for at in first..end {
        let place = entries[at].1;
        if place < rows {
            places.push(place)?;
        }
    }
    Ok(())
}

// The first place whose variable isn't below the given one, by binary search.
fn place_of(entries: &[(u64, usize)], var: u64) -> usize
    requires { AreInOrder entries.now }
    ensures { IsPlace (λ e. e.0) entries.now var result }
{
    entries.partition_point(|entry| entry.0 < var)
}

// The first place whose variable is above the given one, by binary search.
fn place_above(entries: &[(u64, usize)], var: u64) -> usize
    requires { AreInOrder entries.now }
    ensures { IsPlace (λ e. e.0) entries.now (var + 1) result }
{
    entries.partition_point(|entry| entry.0 <= var)
}
