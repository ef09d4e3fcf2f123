// The coefficients, by rows and by columns.

use crate::Term;
use crate::limits::{MOST_DOUBLINGS, MOST_ENTRIES, MOST_ROWS};
use crate::numbers::put_number;
use scut_base::NoMemory;
use std::alloc::Global;

// A number other than 0 at a place of a list.
#[derive(Clone, Copy, Debug)]
pub(crate) struct Entry {
    pub(crate) place: usize,
    pub(crate) number: f64,
}

// The coefficients of all rows, each row scaled by a power of 2, so that its largest is from 1 to 2.
#[derive(Debug, Drop)]
pub(crate) struct Matrix {
    alloc: Global,
    // Of each row its coefficients by column, of each column its coefficients by row.
    pub(crate) rows: Vec<Vec<Entry>>,
    pub(crate) columns: Vec<Vec<Entry>>,
    // By what each row is multiplied.
    pub(crate) scales: Vec<f64>,
    entries: usize,
}

impl Matrix {
    pub(crate) fn new(alloc: Global, columns: usize) -> Result<Matrix, NoMemory> {
        Ok(Matrix {
            alloc,
            rows: Vec::new(alloc),
            columns: empty_lists(alloc, columns)?,
            scales: Vec::new(alloc),
            entries: 0,
        })
    }

    // The row of these terms as it would be kept: by column, with each column once.
    pub(crate) fn row_of(&self, terms: &[Term]) -> Result<Vec<Entry>, NoMemory> {
        let mut entries = Vec::with_capacity(self.alloc, terms.len())?;
        for term in terms {
            if term.column < self.columns.len() {
                entries.push(Entry {
                    place: term.column,
                    number: term.coefficient,
                })?;
            }
        }
        entries.sort_unstable_by_key(|entry| entry.place);
        merged(self.alloc, entries.as_slice())
    }

    // Whether a row of so many entries may still be added.
    pub(crate) fn has_room(&self, entries: usize) -> bool {
        self.rows.len() < MOST_ROWS && self.entries.saturating_add(entries) <= MOST_ENTRIES
    }

    // Adds a row, unless memory is refused: then nothing has changed.
    pub(crate) fn add_row(&mut self, row: Vec<Entry>) -> Result<(), NoMemory> {
        let mut row = row;
        self.reserve(row.as_slice())?;
        let scale = scale_of(row.as_slice());
        scale_by(row.as_mut_slice(), scale);
        self.add_to_columns(row.as_slice())?;
        self.entries = self.entries.saturating_add(row.len());
        self.scales.push(scale)?;
        self.rows.push(row)?;
        Ok(())
    }

    // Makes room for a row, so that adding it can't fail half way.
    fn reserve(&mut self, row: &[Entry]) -> Result<(), NoMemory> {
        self.scales.reserve(1)?;
        self.rows.reserve(1)?;
        for entry in row {
            if let Some(column) = self.columns.get_mut(entry.place) {
                column.reserve(1)?;
            }
        }
        Ok(())
    }

    fn add_to_columns(&mut self, row: &[Entry]) -> Result<(), NoMemory> {
        let place = self.rows.len();
        for entry in row {
            if let Some(column) = self.columns.get_mut(entry.place) {
                column.push(Entry {
                    place,
                    number: entry.number,
                })?;
            }
        }
        Ok(())
    }

    // How many numbers other than 0 there are.
    pub(crate) fn entries(&self) -> usize {
        self.entries
    }

    pub(crate) fn row(&self, row: usize) -> &[Entry] {
        list_at(self.rows.as_slice(), row)
    }

    pub(crate) fn column(&self, column: usize) -> &[Entry] {
        list_at(self.columns.as_slice(), column)
    }

    // Takes rows away: `news` tells the new number of each row, or none, and `left` how many stay.
    pub(crate) fn drop_rows(&mut self, news: &[Option<usize>], left: usize) {
        self.move_rows(news);
        self.rows.truncate(left);
        self.scales.truncate(left);
        self.entries = entries_of(self.rows.as_slice());
        for column in self.columns.iter_mut() {
            renumber(column, news);
        }
    }

    // Moves each row that stays to its new number, which is never a greater one.
    fn move_rows(&mut self, news: &[Option<usize>]) {
        for (row, new) in news.iter().enumerate() {
            if let Some(to) = new {
                swap_lists(self.rows.as_mut_slice(), *to, row);
                let scale = self.scale(row);
                put_number(self.scales.as_mut_slice(), *to, scale);
            }
        }
    }

    // By what a row is multiplied.
    pub(crate) fn scale(&self, row: usize) -> f64 {
        match self.scales.get(row) {
            Some(scale) => *scale,
            None => 1.0,
        }
    }
}

fn empty_lists(alloc: Global, count: usize) -> Result<Vec<Vec<Entry>>, NoMemory> {
    let mut lists = Vec::with_capacity(alloc, count)?;
    for _list in 0..count {
        lists.push(Vec::new(alloc))?;
    }
    Ok(lists)
}

fn list_at(lists: &[Vec<Entry>], at: usize) -> &[Entry] {
    match lists.get(at) {
        Some(list) => list.as_slice(),
        None => &[],
    }
}

// The entries with those of one place summed, where they stand by place.
fn merged(alloc: Global, entries: &[Entry]) -> Result<Vec<Entry>, NoMemory> {
    let mut row = Vec::with_capacity(alloc, entries.len())?;
    let mut sum = Entry {
        place: usize::MAX,
        number: 0.0,
    };
    for entry in entries {
        if entry.place == sum.place {
            sum.number += entry.number;
        } else {
            push_unless_zero(&mut row, sum)?;
            sum = *entry;
        }
    }
    push_unless_zero(&mut row, sum)?;
    Ok(row)
}

fn push_unless_zero(row: &mut Vec<Entry>, entry: Entry) -> Result<(), NoMemory> {
    if entry.number != 0.0 {
        row.push(entry)?;
    }
    Ok(())
}

// The power of 2 that makes the largest of these numbers one from 1 to 2.
fn scale_of(row: &[Entry]) -> f64 {
    let mut largest = 0.0;
    for entry in row {
        largest = entry.number.abs().max(largest);
    }
    if largest > 0.0 && largest.is_finite() {
        power_to_one(largest)
    } else {
        1.0
    }
}

// The power of 2 that makes a number one from 1 to 2.
fn power_to_one(number: f64) -> f64 {
    let mut power = 1.0;
    for _doubling in 0..MOST_DOUBLINGS {
        if number * power >= 2.0 {
            power *= 0.5;
        } else if number * power < 1.0 {
            power *= 2.0;
        } else {
            break;
        }
    }
    power
}

fn scale_by(row: &mut [Entry], scale: f64) {
    for entry in row.iter_mut() {
        entry.number *= scale;
    }
}

fn entries_of(rows: &[Vec<Entry>]) -> usize {
    let mut entries: usize = 0;
    for row in rows {
        entries = entries.saturating_add(row.len());
    }
    entries
}

fn swap_lists(lists: &mut [Vec<Entry>], one: usize, other: usize) {
    if one < lists.len() && other < lists.len() {
        lists.swap(one, other);
    }
}

// Leaves those entries whose place has a new number, and gives them that.
fn renumber(column: &mut Vec<Entry>, news: &[Option<usize>]) {
    column.retain(|entry| matches!(news.get(entry.place), Some(Some(_))));
    for entry in column.iter_mut() {
        if let Some(Some(place)) = news.get(entry.place) {
            entry.place = *place;
        }
    }
}
