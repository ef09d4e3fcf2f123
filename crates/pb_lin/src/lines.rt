// Constraints by their ids.
ghost use Rattle.std.specs.Prelude.{◌≡◌, ◌+◌, ◌++◌, [], ◌∷◌, None, Some, MatchOption, OnOk, OnErr};
ghost use Rattle.std.specs.FinMap.{empty, get, insert, len, remove};
ghost use Rattle.pb_lin.specs.LineMap.{IsNextAbove, NoneAbove};

use crate::Constraint;
use crate::id_table::IdTable;
use scut_base::NoMemory;
use std::alloc::Global;
use std::marker::Model;

/// Constraints, found by their ids. Contracts see it as a finite map.
///
/// The constraints stand in a list in any order, and a table has for each id its place in it. The
/// table takes 4 bytes for each id up to the largest that was ever there, so it is meant for ids that
/// follow one another.
#[derive(Debug, Drop)]
pub struct Lines {
    table: IdTable,
    // The id of each of the constraints.
    ids: Vec<u32>,
    lines: Vec<Constraint>,
}

impl Model for Lines {
    ghost use Rattle.std.specs.Prelude.{length};
    ghost use Rattle.std.specs.List.{zip};
    ghost use Rattle.pb_lin.specs.LineMap.{LineMap, lines_of};
    ghost use Rattle.pb_lin.specs.LineCodes.{line_code};
    ghost use Rattle.pb_lin.specs.IdTable.{PlacesIds};

    ghost Value = { LineMap };

    ghost coded = { line_code };

    ghost view = { λ l. lines_of (zip l.ids.items l.lines.items) };

    ghost invariant = { λ l. PlacesIds l.table l.ids.items (length l.lines.items) };
}

impl Lines {
    /// No constraint yet. Takes no memory.
    pub fn new(alloc: Global) -> Lines
        ensures { result ≡ empty }
    {
        Lines {
            table: IdTable::new(alloc),
            ids: Vec::new(alloc),
            lines: Vec::new(alloc),
        }
    }

    /// The number of constraints.
    pub fn len(&self) -> usize
        ensures { result ≡ len self.now }
    {
        self.lines.len()
    }

    /// The constraint of an id, in constant time.
    pub fn get(&self, id: u64) -> Option<&Constraint>
        ensures { MatchOption result (get self.now id ≡ None) (λ c. get self.now id ≡ Some c.now) }
    {
        match self.table.place(id) {
            Some(place) => Some(&self.lines[place as usize]),
            None => None,
        }
    }

    /// The least id above `id` that has a constraint. Takes a binary search, and passes over ids that
    /// were dropped: a walk over all ids passes over no more of these than there are constraints.
    pub fn next_above(&self, id: u64) -> Option<u64>
        ensures { MatchOption result
            (NoneAbove (get self.now) id)
            (IsNextAbove (get self.now) id) }
    {
        self.table.next_above(id)
    }

    /// Gives an id this constraint, in place of the one that it had. `NoMemory` where memory was
    /// refused, or a new id is 2^32 - 1 or above, and then nothing changes. A new id takes a binary
    /// search, and those above it move.
    pub fn put(&mut self, id: u64, c: Constraint) -> Result<(), NoMemory>
        ensures ok { OnOk result (self.new ≡ insert self.old id c) }
        ensures err { OnErr result (self.new ≡ self.old) }
    {
        match self.table.place(id) {
            Some(place) => {
                self.lines[place as usize] = c;
                Ok(())
            }
            None => self.put_new(id, c),
        }
    }

    // Gives an id that has none this constraint.
    fn put_new(&mut self, id: u64, c: Constraint) -> Result<(), NoMemory>
        requires { get self.old id ≡ None }
        ensures ok { OnOk result (self.new ≡ insert self.old id c) }
        ensures err { OnErr result (self.new ≡ self.old) }
    {
        let place = self.lines.len() as u64;
        if id >= u32::MAX as u64 || place >= u32::MAX as u64 {
            return Err(NoMemory);
        }
        self.table.insert(id as u32, place as u32)?;
        if let Err(refused) = push_line(&mut self.ids, &mut self.lines, id as u32, c) {
            self.table.remove(id);
            return Err(refused);
        }
        Ok(())
    }

    /// Drops the constraint of an id; where there is none, nothing changes. Takes no memory, and
    /// constant time on average.
    pub fn drop_id(&mut self, id: u64)
        ensures { self.new ≡ remove self.old id }
    {
        let Some(place) = self.table.place(id) else {
            return;
        };
        // The last constraint takes the place of the dropped one.
        let last = self.ids[self.ids.len() - 1];
        self.table.change(last, place);
        self.table.remove(id);
        self.ids.swap_remove(place as usize);
        self.lines.swap_remove(place as usize);
        self.table.sweep(self.lines.len());
    }
}

// One more constraint with its id, or neither.
fn push_line(
    ids: &mut Vec<u32>,
    lines: &mut Vec<Constraint>,
    id: u32,
    c: Constraint,
) -> Result<(), NoMemory>
    ensures ids { OnOk result (ids.new.items ≡ ids.old.items ++ id ∷ []) }
    ensures lines { OnOk result (lines.new.items ≡ lines.old.items ++ c ∷ []) }
    ensures same_ids { OnErr result (ids.new.items ≡ ids.old.items) }
    ensures same_lines { OnErr result (lines.new.items ≡ lines.old.items) }
{
    ids.push(id)?;
    if lines.push(c).is_err() {
        let _ = ids.pop();
        return Err(NoMemory);
    }
    Ok(())
}
