// The lines of a search, by their ids.
ghost use Rattle.std.specs.Prelude.{◌≡◌, ◌++◌, ◌<◌, [], ◌∷◌, None, Some, length, slice_get, IsSome, MatchOption, OnOk, OnErr};
ghost use Rattle.std.specs.FinMap.{empty, get, insert, remove};
ghost use Rattle.pb_lin.specs.Constraint.{ConstraintValue};
ghost use Rattle.pb_lin.specs.LineMap.{IsNextAbove, NoneAbove};

use crate::StoredLine;
use crate::place_table::PlaceTable;
use pb_lin::Constraint;
use scut_base::{Lit, NoMemory};
use std::alloc::Global;
use std::marker::Model;

/// Lines, found by their ids. Contracts see it as a finite map.
///
/// The lines stand in a list in any order, and a table has for each id its place in it. The table takes 4 bytes
/// for each id up to the largest that was ever there, so it is meant for ids that follow one another.
#[derive(Debug, Drop)]
pub struct ClauseStore {
    alloc: Global,
    table: PlaceTable,
    // The id of each of the lines.
    ids: Vec<u32>,
    lines: Vec<StoredLine>,
}

impl Model for ClauseStore {
    ghost use Rattle.std.specs.Prelude.{length};
    ghost use Rattle.std.specs.List.{zip};
    ghost use Rattle.pb_lin.specs.LineMap.{LineMap, lines_of};
    ghost use Rattle.pb_lin.specs.LineCodes.{line_code};
    ghost use Rattle.pb_lin.specs.IdTable.{PlacesIds};

    ghost Value = { LineMap };

    ghost coded = { line_code };

    ghost view = { λ s. lines_of (zip s.ids.items s.lines.items) };

    ghost invariant = { λ s. PlacesIds s.table s.ids.items (length s.lines.items) };
}

impl ClauseStore {
    /// No line yet. Takes no memory.
    pub fn new(alloc: Global) -> ClauseStore
        ensures { result ≡ empty }
    {
        ClauseStore {
            alloc,
            table: PlaceTable::new(alloc),
            ids: Vec::new(alloc),
            lines: Vec::new(alloc),
        }
    }

    /// Stores a copy of a line under an id that isn't there. After `NoMemory` nothing has changed.
    pub fn put(&mut self, id: u64, line: &Constraint) -> Result<(), NoMemory>
        requires { get self.old id ≡ None }
        ensures ok { OnOk result (self.new ≡ insert self.old id line.now) }
        ensures err { OnErr result (self.new ≡ self.old) }
    {
        let line = StoredLine::of(self.alloc, line)?;
        self.put_line(id, line)
    }

    // Stores a line under an id that isn't there. Ids of 2^32 - 1 or above are NoMemory.
    fn put_line(&mut self, id: u64, line: StoredLine) -> Result<(), NoMemory>
        requires { get self.old id ≡ None }
        ensures ok { OnOk result (self.new ≡ insert self.old id line) }
        ensures err { OnErr result (self.new ≡ self.old) }
    {
        let place = self.lines.len() as u64;
        if id >= u32::MAX as u64 || place >= u32::MAX as u64 {
            return Err(NoMemory);
        }
        self.table.insert(id as u32, place as u32)?;
        if let Err(refused) = push_line(&mut self.ids, &mut self.lines, id as u32, line) {
            self.table.remove(id);
            return Err(refused);
        }
        Ok(())
    }

    /// Drops the line of an id; where there is none, nothing changes. Takes no memory.
    pub fn drop_id(&mut self, id: u64)
        ensures { self.new ≡ remove self.old id }
    {
        let Some(place) = self.table.place(id) else {
            return;
        };
        // The last line takes the place of the dropped one.
        let last = self.ids[self.ids.len() - 1];
        self.table.change(last, place);
        self.table.remove(id);
        self.ids.swap_remove(place as usize);
        self.lines.swap_remove(place as usize);
    }

    /// The line of an id.
    pub fn get(&self, id: u64) -> Option<&StoredLine>
        ensures { MatchOption result (get self.now id ≡ None) (λ c. get self.now id ≡ Some c.now) }
    {
        match self.table.place(id) {
            Some(place) => Some(&self.lines[place as usize]),
            None => None,
        }
    }

    /// The number of terms of a line; `None` exactly where the id isn't there.
    pub fn width(&self, id: u64) -> Option<usize>
        ensures { MatchOption result (get self.now id ≡ None)
            (λ n. (c : ConstraintValue) × (get self.now id ≡ Some c) × (n ≡ length c.terms)) }
    {
        match self.get(id) {
            Some(line) => Some(line.len()),
            None => None,
        }
    }

    /// The literal at a place of a line that is there, with its coefficient.
    pub fn term(&self, id: u64, place: usize) -> (Lit, u128)
        requires { (c : ConstraintValue) × (get self.now id ≡ Some c) × (place < length c.terms) }
        ensures { (c : ConstraintValue) → get self.now id ≡ Some c
            → slice_get c.terms place ≡ Some result }
    {
        match self.get(id) {
            Some(line) => line.term(place),
            None => unreachable!(),
        }
    }

    /// The degree of a line that is there.
    pub fn degree(&self, id: u64) -> u128
        requires { IsSome (get self.now id) }
        ensures { (c : ConstraintValue) → get self.now id ≡ Some c → result ≡ c.degree }
    {
        match self.get(id) {
            Some(line) => line.degree(),
            None => unreachable!(),
        }
    }

    /// The least id above `id` that is there. Passes over the ids between them.
    pub fn next_above(&self, id: u64) -> Option<u64>
        ensures { MatchOption result (NoneAbove (get self.now) id) (IsNextAbove (get self.now) id) }
    {
        self.table.next_above(id)
    }
}

// One more line with its id, or neither.
fn push_line(
    ids: &mut Vec<u32>,
    lines: &mut Vec<StoredLine>,
    id: u32,
    line: StoredLine,
) -> Result<(), NoMemory>
    ensures ids { OnOk result (ids.new.items ≡ ids.old.items ++ id ∷ []) }
    ensures lines { OnOk result (lines.new.items ≡ lines.old.items ++ line ∷ []) }
    ensures same_ids { OnErr result (ids.new.items ≡ ids.old.items) }
    ensures same_lines { OnErr result (lines.new.items ≡ lines.old.items) }
{
    ids.push(id)?;
    if lines.push(line).is_err() {
        let _ = ids.pop();
        return Err(NoMemory);
    }
    Ok(())
}
