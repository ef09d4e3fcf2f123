// A sparse list of numbers by place, which is cleared in the time of what was put in.

use crate::limits::{LISTED_ZERO, NO_NUMBER};
use crate::matrix::Entry;
use scut_base::NoMemory;
use std::alloc::Global;

#[derive(Debug, Drop)]
pub(crate) struct SparseNumbers {
    // By place: 0 where the place isn't listed, and only there.
    numbers: Vec<f64>,
    // The places in the order in which they came.
    listed: Vec<usize>,
}

impl SparseNumbers {
    pub(crate) fn new(alloc: Global) -> SparseNumbers {
        SparseNumbers {
            numbers: Vec::new(alloc),
            listed: Vec::new(alloc),
        }
    }

    // Empty, for so many places.
    pub(crate) fn resize(&mut self, places: usize) -> Result<(), NoMemory> {
        self.clear();
        self.numbers.resize(places, 0.0)?;
        Ok(())
    }

    pub(crate) fn clear(&mut self) {
        for place in self.listed.iter() {
            if let Some(number) = self.numbers.get_mut(*place) {
                *number = 0.0;
            }
        }
        self.listed.clear();
    }

    // The places of all numbers other than 0, and perhaps of some that have come to 0.
    pub(crate) fn listed(&self) -> &[usize] {
        self.listed.as_slice()
    }

    // The place that is listed so many after the first.
    pub(crate) fn listed_at(&self, at: usize) -> usize {
        self.listed.get(at).copied().unwrap_or(usize::MAX)
    }

    pub(crate) fn number(&self, place: usize) -> f64 {
        match self.numbers.get(place) {
            Some(number) => *number,
            None => 0.0,
        }
    }

    // Adds to the number at a place.
    pub(crate) fn add(&mut self, place: usize, number: f64) -> Result<(), NoMemory> {
        if let Some(own) = self.numbers.get_mut(place) {
            if *own == 0.0 {
                self.listed.push(place)?;
            }
            *own = listed_number(*own + number);
        }
        Ok(())
    }

    // The number at a place, if it isn't tiny.
    pub(crate) fn significant(&self, place: usize) -> Option<f64> {
        let number = self.number(place);
        if number.abs() > NO_NUMBER {
            Some(number)
        } else {
            None
        }
    }

    // Makes a list the entries of all numbers that aren't tiny, times a factor.
    pub(crate) fn put_entries(
        &self,
        factor: f64,
        entries: &mut Vec<Entry>,
    ) -> Result<(), NoMemory> {
        entries.clear();
        for place in self.listed.iter() {
            let number = self.number(*place);
            if number.abs() > NO_NUMBER {
                entries.push(Entry {
                    place: *place,
                    number: number * factor,
                })?;
            }
        }
        Ok(())
    }

    // The sum of products with a list of entries.
    pub(crate) fn product(&self, entries: &[Entry]) -> f64 {
        let mut sum = 0.0;
        for entry in entries {
            sum += entry.number * self.number(entry.place);
        }
        sum
    }

    pub(crate) fn sum_of_squares(&self) -> f64 {
        let mut sum = 0.0;
        for place in self.listed.iter() {
            let number = self.number(*place);
            sum += number * number;
        }
        sum
    }

    // Puts another number where one is listed.
    pub(crate) fn replace(&mut self, place: usize, number: f64) {
        if let Some(own) = self.numbers.get_mut(place) {
            if *own != 0.0 {
                *own = listed_number(number);
            }
        }
    }

    // Adds a multiple of a list of entries.
    pub(crate) fn add_multiple(&mut self, entries: &[Entry], factor: f64) -> Result<(), NoMemory> {
        for entry in entries {
            self.add(entry.place, entry.number * factor)?;
        }
        Ok(())
    }
}

// What stands for a number where its place is listed.
fn listed_number(number: f64) -> f64 {
    if number == 0.0 { LISTED_ZERO } else { number }
}
