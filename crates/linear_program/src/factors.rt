// The basis in two factors, a lower and an upper triangular one, each by columns and by rows, so that a solve passes only by
// numbers that meet one other than 0. What pivots have changed since stands between the two, in product form (Huangfu and Hall
// 2015: the middle product form), so that an earlier moment comes back where the list of changes is cut.
//
// The basis is taken with its sign changed: the column of a row's activity is that of the identity. So the factors are those of
// the other columns in the other rows alone, and what these columns have in the rows of activities, the outer block, stands
// beside them as it is.

use crate::limits::{LOAD_OF_A_CHANGE, MOST_CHANGES, NO_ENTRY, NO_NUMBER};
use crate::lists::Lists;
use crate::matrix::Entry;
use crate::sparse_numbers::SparseNumbers;
use scut_base::NoMemory;
use std::alloc::Global;

// A column of the basis by its place, and its number on the diagonal of the upper factor.
#[derive(Clone, Copy, Debug)]
pub(crate) struct Pivot {
    pub(crate) place: usize,
    pub(crate) number: f64,
}

// What stands at a place, as the factors are built.
#[derive(Clone, Copy, Debug)]
enum State {
    // The activity of its row.
    Activity,
    // Nothing yet.
    Open,
    // A column, which is in the order of the factors.
    Passed,
}

#[derive(Clone, Copy, Debug)]
struct Place {
    state: State,
    // The number on the diagonal.
    diagonal: f64,
}

const ACTIVITY: Place = Place {
    state: State::Activity,
    diagonal: 1.0,
};

// A column that has come in for another: between the factors the identity is added a column times a row.
#[derive(Clone, Copy, Debug)]
pub(crate) struct Change {
    // The number of the new column at its place, as the basis before told it.
    pub(crate) pivot: f64,
    // Where the numbers of the row begin, where those of the column do, and where these end.
    row: usize,
    column: usize,
    end: usize,
    // What all changes up to this one have cost, in numbers touched.
    load: u64,
    // No other change or building ever has this number.
    serial: u64,
}

// A moment of the list of changes: how many there are, and the number of the last one, or of the building where there's none.
#[derive(Clone, Copy, Debug, PartialEq)]
pub(crate) struct Moment {
    count: usize,
    serial: u64,
}

#[derive(Debug, Drop)]
pub(crate) struct Factors {
    // The columns that aren't activities, in the order of the factors.
    pub(crate) order: Vec<Pivot>,
    places: Vec<Place>,
    // The places whose column of the lower factor has numbers below the diagonal, in the order of the factors.
    pub(crate) lower_places: Vec<usize>,
    pub(crate) lower: Lists,
    pub(crate) lower_rows: Lists,
    pub(crate) upper: Lists,
    pub(crate) upper_rows: Lists,
    pub(crate) outer: Lists,
    pub(crate) outer_rows: Lists,
    pub(crate) changes: Vec<Change>,
    entries: Vec<Entry>,
    // The row that was solved for last as the upper factor leaves it, and the column as the upper factor gets it.
    half_row: Vec<Entry>,
    half_column: Vec<Entry>,
    // How many numbers were touched for the building, its serial number, and the next one.
    built_work: u64,
    built_serial: u64,
    next_serial: u64,
}

impl Factors {
    pub(crate) fn new(alloc: Global) -> Factors {
        Factors {
            order: Vec::new(alloc),
            places: Vec::new(alloc),
            lower_places: Vec::new(alloc),
            lower: Lists::new(alloc),
            lower_rows: Lists::new(alloc),
            upper: Lists::new(alloc),
            upper_rows: Lists::new(alloc),
            outer: Lists::new(alloc),
            outer_rows: Lists::new(alloc),
            changes: Vec::new(alloc),
            entries: Vec::new(alloc),
            half_row: Vec::new(alloc),
            half_column: Vec::new(alloc),
            built_work: 0,
            built_serial: 0,
            next_serial: 1,
        }
    }

    // Begins a building over so many places, each that of an activity until `open` says otherwise.
    pub(crate) fn clear(&mut self, places: usize) -> Result<(), NoMemory> {
        self.changes.clear();
        self.entries.clear();
        self.order.clear();
        self.lower_places.clear();
        self.places.clear();
        self.places.resize(places, ACTIVITY)?;
        self.lower.clear(places)?;
        self.outer.clear(places)?;
        self.upper.clear(places)
    }

    // The place is for a column.
    pub(crate) fn open(&mut self, place: usize) {
        if let Some(own) = self.places.get_mut(place) {
            own.state = State::Open;
        }
    }

    // Enters a column, as the lower factor leaves it, at a place that is open.
    pub(crate) fn enter(&mut self, column: &SparseNumbers, place: usize) -> Result<(), NoMemory> {
        let pivot = column.number(place);
        for at in column.listed() {
            let number = column.number(*at);
            if *at != place && number.abs() > NO_ENTRY {
                self.push(*at, number, pivot)?;
            }
        }
        self.upper.close(place);
        self.outer.close(place);
        if self.lower.close(place) {
            self.lower_places.push(place)?;
        }
        self.pass(place, pivot)
    }

    // A number of the column that is entered: of the outer block, above the diagonal, or below it, in pivots.
    fn push(&mut self, place: usize, number: f64, pivot: f64) -> Result<(), NoMemory> {
        match self.state_of(place) {
            State::Activity => self.outer.push(Entry { place, number }),
            State::Passed => self.upper.push(Entry { place, number }),
            State::Open => self.lower.push(Entry {
                place,
                number: number / pivot,
            }),
        }
    }

    fn state_of(&self, place: usize) -> State {
        match self.places.get(place) {
            Some(own) => own.state,
            None => State::Activity,
        }
    }

    // The activity of a row comes in at a place that no column has taken.
    pub(crate) fn enter_activity(&mut self, place: usize) -> Result<(), NoMemory> {
        self.pass(place, 1.0)
    }

    fn pass(&mut self, place: usize, number: f64) -> Result<(), NoMemory> {
        if let Some(own) = self.places.get_mut(place) {
            *own = Place {
                state: State::Passed,
                diagonal: number,
            };
        }
        self.order.push(Pivot { place, number })?;
        Ok(())
    }

    // All columns are in.
    pub(crate) fn end_building(&mut self) -> Result<(), NoMemory> {
        self.lower_rows.turn(&self.lower)?;
        self.upper_rows.turn(&self.upper)?;
        self.outer_rows.turn(&self.outer)?;
        self.built_serial = self.take_serial();
        Ok(())
    }

    // The building, with what follows from it, has touched so many numbers.
    pub(crate) fn note_work(&mut self, work: u64) {
        self.built_work = work;
    }

    fn take_serial(&mut self) -> u64 {
        let serial = self.next_serial;
        self.next_serial = self.next_serial.wrapping_add(1);
        serial
    }

    // How many numbers the factors have.
    pub(crate) fn size(&self) -> usize {
        self.lower
            .entries()
            .saturating_add(self.upper.entries())
            .saturating_add(self.outer.entries())
            .saturating_add(self.order.len())
    }

    // Whether columns have come in since the building.
    pub(crate) fn has_changed(&self) -> bool {
        !self.changes.is_empty()
    }

    // Whether the factors had better be built anew: what changes have cost is as much as that would.
    pub(crate) fn is_long(&self) -> bool {
        match self.changes.last() {
            Some(change) => change.load > self.built_work || self.changes.len() >= MOST_CHANGES,
            None => false,
        }
    }

    pub(crate) fn moment(&self) -> Moment {
        Moment {
            count: self.changes.len(),
            serial: self.serial_of(self.changes.len()),
        }
    }

    // The number of the last of so many changes.
    fn serial_of(&self, count: usize) -> u64 {
        if count == 0 {
            return self.built_serial;
        }
        match self.changes.get(count - 1) {
            Some(change) => change.serial,
            None => 0,
        }
    }

    // Cuts the list of changes back to a moment; `false` where it no longer begins as it did then.
    pub(crate) fn cut_back(&mut self, moment: Moment) -> bool {
        if self.serial_of(moment.count) != moment.serial {
            return false;
        }
        self.changes.truncate(moment.count);
        let end = match self.changes.last() {
            Some(change) => change.end,
            None => 0,
        };
        self.entries.truncate(end);
        true
    }

    // Notes that the column which was solved for last by `forward_keeping` comes in at the place whose row was solved for last by
    // `backward`, where the pivot is this.
    pub(crate) fn change(&mut self, place: usize, pivot: f64) -> Result<(), NoMemory> {
        let row = self.entries.len();
        push_multiple(&mut self.entries, self.half_row.as_slice(), 1.0)?;
        let column = self.entries.len();
        push_multiple(&mut self.entries, self.half_column.as_slice(), 1.0)?;
        self.push_without(place)?;
        let before = match self.changes.last() {
            Some(change) => change.load,
            None => 0,
        };
        let end = self.entries.len();
        let serial = self.take_serial();
        self.changes.push(Change {
            pivot,
            row,
            column,
            end,
            load: before.saturating_add(LOAD_OF_A_CHANGE.saturating_mul(end as u64)),
            serial,
        })?;
        Ok(())
    }

    // The column of the upper factor at a place, with its sign changed.
    fn push_without(&mut self, place: usize) -> Result<(), NoMemory> {
        let number = -self.diagonal(place);
        push_multiple(&mut self.entries, self.upper.list(place), -1.0)?;
        push_multiple(&mut self.entries, self.outer.list(place), -1.0)?;
        self.entries.push(Entry { place, number })?;
        Ok(())
    }

    fn diagonal(&self, place: usize) -> f64 {
        match self.places.get(place) {
            Some(own) => own.diagonal,
            None => 1.0,
        }
    }

    // Whether the place is that of an activity which the factors don't keep.
    pub(crate) fn is_activity(&self, place: usize) -> bool {
        matches!(self.state_of(place), State::Activity)
    }

    // The row of a change, and its column.
    pub(crate) fn row_of(&self, change: &Change) -> &[Entry] {
        self.entries_from(change.row, change.column)
    }

    pub(crate) fn column_of(&self, change: &Change) -> &[Entry] {
        self.entries_from(change.column, change.end)
    }

    fn entries_from(&self, from: usize, to: usize) -> &[Entry] {
        match self.entries.as_slice().get(from..to) {
            Some(entries) => entries,
            None => &[],
        }
    }

    // Keeps a row as the upper factor has left it, with its sign changed, and a column as that gets it.
    pub(crate) fn keep_row(&mut self, row: &SparseNumbers) -> Result<(), NoMemory> {
        row.put_entries(-1.0, &mut self.half_row)
    }

    pub(crate) fn keep_column(&mut self, column: &SparseNumbers) -> Result<(), NoMemory> {
        column.put_entries(1.0, &mut self.half_column)
    }
}

fn push_multiple(entries: &mut Vec<Entry>, added: &[Entry], factor: f64) -> Result<(), NoMemory> {
    for entry in added {
        entries.push(Entry {
            place: entry.place,
            number: entry.number * factor,
        })?;
    }
    Ok(())
}
