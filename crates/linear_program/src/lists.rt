// Lists of numbers other than 0, one for each place, all in one.

use crate::matrix::Entry;
use scut_base::NoMemory;
use std::alloc::Global;

// Where the entries of a list are.
#[derive(Clone, Copy, Debug)]
struct Span {
    from: usize,
    to: usize,
}

const EMPTY: Span = Span { from: 0, to: 0 };

#[derive(Debug, Drop)]
pub(crate) struct Lists {
    spans: Vec<Span>,
    entries: Vec<Entry>,
    // Where the entries begin that no list has yet.
    open: usize,
}

impl Lists {
    pub(crate) fn new(alloc: Global) -> Lists {
        Lists {
            spans: Vec::new(alloc),
            entries: Vec::new(alloc),
            open: 0,
        }
    }

    // Empty, for so many places.
    pub(crate) fn clear(&mut self, places: usize) -> Result<(), NoMemory> {
        self.entries.clear();
        self.open = 0;
        self.spans.clear();
        self.spans.resize(places, EMPTY)?;
        Ok(())
    }

    // How many numbers all lists have.
    pub(crate) fn entries(&self) -> usize {
        self.entries.len()
    }

    // Adds an entry to the list that `close` ends.
    pub(crate) fn push(&mut self, entry: Entry) -> Result<(), NoMemory> {
        self.entries.push(entry)?;
        Ok(())
    }

    // Makes the entries pushed since the last call the list of a place, and says whether there are any.
    pub(crate) fn close(&mut self, place: usize) -> bool {
        let span = Span {
            from: self.open,
            to: self.entries.len(),
        };
        if let Some(own) = self.spans.get_mut(place) {
            *own = span;
        }
        self.open = span.to;
        span.from < span.to
    }

    pub(crate) fn list(&self, place: usize) -> &[Entry] {
        match self.spans.get(place) {
            Some(span) => self.entries_of(*span),
            None => &[],
        }
    }

    fn entries_of(&self, span: Span) -> &[Entry] {
        match self.entries.as_slice().get(span.from..span.to) {
            Some(entries) => entries,
            None => &[],
        }
    }

    // Makes these the same numbers by their other place.
    pub(crate) fn turn(&mut self, from: &Lists) -> Result<(), NoMemory> {
        self.clear(from.spans.len())?;
        let nothing = Entry {
            place: 0,
            number: 0.0,
        };
        self.entries.resize(from.entries.len(), nothing)?;
        self.count(from.entries.as_slice());
        self.make_room();
        for (place, span) in from.spans.iter().enumerate() {
            self.put_list(place, from.entries_of(*span));
        }
        Ok(())
    }

    // Adds the numbers of a list, each at the end of the list of its own place.
    fn put_list(&mut self, place: usize, entries: &[Entry]) {
        for entry in entries {
            self.put(entry.place, place, entry.number);
        }
    }

    // The spans begin at 0, and are as long as their lists will be.
    fn count(&mut self, entries: &[Entry]) {
        for entry in entries {
            if let Some(span) = self.spans.get_mut(entry.place) {
                span.to = span.to.saturating_add(1);
            }
        }
    }

    // One span after another, each empty.
    fn make_room(&mut self) {
        let mut from: usize = 0;
        for span in self.spans.iter_mut() {
            let count = span.to;
            *span = Span { from, to: from };
            from = from.saturating_add(count);
        }
        self.open = from;
    }

    // Adds a number at the end of a list that has room.
    fn put(&mut self, list: usize, place: usize, number: f64) {
        if let Some(span) = self.spans.get_mut(list) {
            if let Some(entry) = self.entries.get_mut(span.to) {
                *entry = Entry { place, number };
                span.to = span.to.saturating_add(1);
            }
        }
    }
}
