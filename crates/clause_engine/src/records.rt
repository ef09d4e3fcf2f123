// What was taken up and what was derived, with what it stands on (Cruz-Filipe et al. 2017; Pollitt, Fleury and Biere
// 2023).

use crate::limits::{GROWN_TIMES, MOST_WORDS};
use crate::literals::{Literal, word_of};
use scut_base::NoMemory;
use std::alloc::Global;

const ROOT: u32 = 1 << 31;

// On what a derived clause stands.
#[derive(Clone, Copy, Debug, PartialEq, Eq)]
pub(crate) enum Hint {
    // A record.
    Record(u32),
    // The unit clause of this variable, which is assigned at level 0.
    Root(u32),
}

impl Hint {
    fn of_word(word: u32) -> Hint {
        if word & ROOT != 0 {
            Hint::Root(word & !ROOT)
        } else {
            Hint::Record(word)
        }
    }

    fn to_word(self) -> u32 {
        match self {
            Hint::Record(record) => record & !ROOT,
            Hint::Root(var) => var | ROOT,
        }
    }
}

// A line that was taken up, or a derived clause.
#[derive(Clone, Copy, Debug)]
struct Record {
    // The place of its text in the pool; 0 where it has none.
    place: u32,
    // The id of its line; 0 where it has none.
    line: u32,
    // How many variables were assigned at level 0 as it was derived.
    roots: u32,
}

const NO_RECORD: Record = Record {
    place: 0,
    line: 0,
    roots: 0,
};

// The records by number, of which 0 is none. One stands on earlier ones, and on units of variables. The text of one is
// in the pool: how many literals, the literals, how many hints, the hints.
#[derive(Debug, Drop)]
pub(crate) struct Records {
    alloc: Global,
    list: Vec<Record>,
    pool: Vec<u32>,
    // How many words the pool had after it was collected.
    collected: usize,
}

impl Records {
    pub(crate) fn new(alloc: Global) -> Records {
        Records {
            alloc,
            list: Vec::new(alloc),
            pool: Vec::new(alloc),
            collected: 0,
        }
    }

    pub(crate) fn len(&self) -> usize {
        self.list.len()
    }

    pub(crate) fn pool_len(&self) -> usize {
        self.pool.len()
    }

    pub(crate) fn collected(&self) -> usize {
        self.collected
    }

    // The record of a line that was taken up.
    pub(crate) fn add_line(&mut self, line: u32) -> Result<u32, NoMemory> {
        self.push(Record { line, ..NO_RECORD })
    }

    // The record of a derived clause.
    pub(crate) fn derive(
        &mut self,
        lits: &[Literal],
        hints: &[Hint],
        roots: usize,
    ) -> Result<u32, NoMemory> {
        self.begin_pool()?;
        let place = self.pool.len();
        let more = lits.len().saturating_add(hints.len());
        if place.saturating_add(more) >= MOST_WORDS - 2 {
            return Err(NoMemory);
        }
        self.put_lits(lits)?;
        self.put_hints(hints)?;
        self.push(Record {
            place: word_of(place),
            line: 0,
            roots: word_of(roots),
        })
    }

    fn put_lits(&mut self, lits: &[Literal]) -> Result<(), NoMemory> {
        self.pool.push(word_of(lits.len()))?;
        for lit in lits {
            self.pool.push(lit.code())?;
        }
        Ok(())
    }

    fn put_hints(&mut self, hints: &[Hint]) -> Result<(), NoMemory> {
        self.pool.push(word_of(hints.len()))?;
        for hint in hints {
            self.pool.push(hint.to_word())?;
        }
        Ok(())
    }

    // No text has place 0.
    fn begin_pool(&mut self) -> Result<(), NoMemory> {
        if self.pool.is_empty() {
            self.pool.push(0)?;
        }
        Ok(())
    }

    fn push(&mut self, record: Record) -> Result<u32, NoMemory> {
        if self.list.is_empty() {
            self.list.push(NO_RECORD)?;
        }
        let number = self.list.len();
        if number >= MOST_WORDS {
            return Err(NoMemory);
        }
        self.list.push(record)?;
        Ok(word_of(number))
    }

    fn record(&self, number: u32) -> Record {
        match self.list.get(number as usize) {
            Some(record) => *record,
            None => NO_RECORD,
        }
    }

    // The id of a record's line; 0 where it has none.
    pub(crate) fn line(&self, number: u32) -> u32 {
        self.record(number).line
    }

    pub(crate) fn set_line(&mut self, number: u32, line: u32) {
        if let Some(record) = self.list.get_mut(number as usize) {
            record.line = line;
        }
    }

    // How many variables were assigned at level 0 as it was derived.
    pub(crate) fn roots(&self, number: u32) -> u32 {
        self.record(number).roots
    }

    // The codes of the literals of a derived clause.
    pub(crate) fn codes(&self, number: u32) -> &[u32] {
        let place = self.record(number).place as usize;
        if place == 0 { &[] } else { self.part(place) }
    }

    // The words of its hints.
    fn hint_words(&self, number: u32) -> &[u32] {
        let place = self.record(number).place as usize;
        if place == 0 {
            return &[];
        }
        let codes = self.part(place).len();
        self.part(place.wrapping_add(1).wrapping_add(codes))
    }

    // What it stands on, in the order in which it follows from them.
    pub(crate) fn hints(&self, number: u32) -> Result<Vec<Hint>, NoMemory> {
        let words = self.hint_words(number);
        let mut hints = Vec::with_capacity(self.alloc, words.len())?;
        for word in words {
            hints.push(Hint::of_word(*word))?;
        }
        Ok(hints)
    }

    // Marks the records that a derived clause stands on.
    pub(crate) fn mark_needs(&self, number: u32, marks: &mut [bool]) {
        for word in self.hint_words(number) {
            if let Hint::Record(needed) = Hint::of_word(*word) {
                mark(marks, needed);
            }
        }
    }

    // The words that are counted at a place.
    fn part(&self, place: usize) -> &[u32] {
        let pool = self.pool.as_slice();
        let count = match pool.get(place) {
            Some(count) => *count as usize,
            None => 0,
        };
        let from = place.wrapping_add(1);
        match pool.get(from..from.wrapping_add(count)) {
            Some(words) => words,
            None => &[],
        }
    }

    // Gives up the texts of records that have a line, and of those that nothing stands on that is marked.
    pub(crate) fn collect(&mut self, marks: &mut [bool]) -> Result<(), NoMemory> {
        self.mark_all_needs(marks);
        let mut pool = Vec::with_capacity(self.alloc, self.pool.len() / GROWN_TIMES)?;
        pool.push(0)?;
        for number in 1..self.list.len() {
            let is_kept = is_marked(marks, number);
            self.move_text(word_of(number), is_kept, &mut pool)?;
        }
        self.pool = pool;
        self.collected = self.pool.len();
        Ok(())
    }

    fn mark_all_needs(&self, marks: &mut [bool]) {
        for number in (1..self.list.len()).rev() {
            if is_marked(marks, number) && self.line(word_of(number)) == 0 {
                self.mark_needs(word_of(number), marks);
            }
        }
    }

    // Copies a text to the end of another pool, or forgets it.
    fn move_text(
        &mut self,
        number: u32,
        is_kept: bool,
        pool: &mut Vec<u32>,
    ) -> Result<(), NoMemory> {
        let record = self.record(number);
        if record.place == 0 {
            return Ok(());
        }
        let mut place = 0;
        if is_kept && record.line == 0 {
            place = word_of(pool.len());
            let from = record.place as usize;
            let lits = self.part(from).len();
            let hints = self.part(from.wrapping_add(1).wrapping_add(lits)).len();
            let end = from.wrapping_add(2).wrapping_add(lits).wrapping_add(hints);
            if let Some(text) = self.pool.as_slice().get(from..end) {
                pool.extend_from_slice(text)?;
            }
        }
        if let Some(kept) = self.list.get_mut(number as usize) {
            kept.place = place;
        }
        Ok(())
    }
}

pub(crate) fn mark(marks: &mut [bool], number: u32) {
    if let Some(place) = marks.get_mut(number as usize) {
        *place = true;
    }
}

pub(crate) fn is_marked(marks: &[bool], number: usize) -> bool {
    match marks.get(number) {
        Some(is_marked) => *is_marked,
        None => false,
    }
}
