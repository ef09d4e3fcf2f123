// A set of rows that is walked over and drawn from: a list, and each row's place in it (Briggs and Torczon 1993).
use scut_base::NoMemory;
use std::alloc::Global;

// The rows that are broken.
#[derive(Debug, Drop)]
pub(crate) struct BrokenRows {
    rows: Vec<usize>,
    // Of each row, its place in the list; none where it isn't there.
    places: Vec<Option<usize>>,
}

impl BrokenRows {
    // None, of so many rows.
    pub(crate) fn new(alloc: Global, count: usize) -> Result<BrokenRows, NoMemory> {
        Ok(BrokenRows {
            rows: Vec::new(alloc),
            places: vec![in alloc; None; count]?,
        })
    }

    // The rows, in no order.
    pub(crate) fn rows(&self) -> &[usize] {
        self.rows.as_slice()
    }

    // Adds a row, or takes it away.
    pub(crate) fn set(&mut self, row: usize, is_broken: bool) -> Result<(), NoMemory> {
        match self.places.get(row).copied() {
            Some(None) if is_broken => self.add(row),
            Some(Some(place)) if !is_broken => {
                self.take_away(row, place);
                Ok(())
            }
            _ => Ok(()),
        }
    }

    fn add(&mut self, row: usize) -> Result<(), NoMemory> {
        let place = self.rows.len();
        self.put(row, Some(place));
        self.rows.push(row)?;
        Ok(())
    }

    // The last row comes to the place of the one that is taken away.
    fn take_away(&mut self, row: usize, place: usize) {
        self.put(row, None);
        let Some(last) = self.rows.pop() else {
            return;
        };
        if last != row {
            if let Some(moved) = self.rows.get_mut(place) {
                *moved = last;
            }
            self.put(last, Some(place));
        }
    }

    // Notes where a row stands.
    fn put(&mut self, row: usize, place: Option<usize>) {
        if let Some(noted) = self.places.get_mut(row) {
            *noted = place;
        }
    }
}
