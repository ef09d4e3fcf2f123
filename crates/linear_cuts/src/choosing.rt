// Which of the cuts are taken: those that are violated most for their length, and don't say about the same.
use crate::cut::{Cut, Kind};
use crate::limits::MOST_COSINE;
use crate::separation::{Separation, number_at};
use scut_base::NoMemory;
use std::cmp::OrderedFloat;

impl Separation {
    /// Takes at most so many of the cuts that were found, and forgets the others. No kind has more than half of the places
    /// while others can fill them, since zero-half cuts are many. Those that cut deepest for their length come first, and none that
    /// is about parallel to one that was taken (Andreello, Caprara and Fischetti 2007).
    pub fn take_chosen(&mut self, most: usize) -> Result<Vec<Cut>, NoMemory> {
        let mut found = Vec::new(self.alloc);
        std::mem::swap(&mut found, &mut self.found);
        found.sort_by_key(|cut: &Cut| OrderedFloat(-cut.violation))?;
        let mut chosen = Vec::new(self.alloc);
        let mut left = Vec::new(self.alloc);
        for cut in found {
            let place = self.place_for(&chosen, &cut, most / 2);
            if place {
                chosen.push(cut)?;
            } else {
                left.push(cut)?;
            }
        }
        for cut in left {
            if chosen.len() < most && self.is_apart(&chosen, &cut) {
                chosen.push(cut)?;
            }
        }
        Ok(chosen)
    }

    // Whether a cut is to be chosen where its kind has so many places.
    fn place_for(&mut self, chosen: &[Cut], cut: &Cut, places: usize) -> bool {
        let alike = chosen.iter().filter(|other| other.kind == cut.kind).count();
        alike < places && self.is_apart(chosen, cut)
    }

    // Whether a cut says something else than each of those that were chosen.
    fn is_apart(&mut self, chosen: &[Cut], cut: &Cut) -> bool {
        self.put_terms(cut, 1.0);
        let is_apart = chosen.iter().all(|other| {
            let product = product_with(self.sums.as_slice(), other);
            product <= MOST_COSINE * cut.length * other.length
        });
        self.put_terms(cut, 0.0);
        is_apart
    }

    // Puts the coefficients times a factor in their places.
    fn put_terms(&mut self, cut: &Cut, factor: f64) {
        for term in cut.terms.iter() {
            if let Some(place) = self.sums.get_mut(term.column) {
                *place = factor * term.coefficient;
            }
        }
    }
}

fn product_with(sums: &[f64], cut: &Cut) -> f64 {
    let mut sum = 0.0;
    for term in cut.terms.iter() {
        sum += term.coefficient * number_at(sums, term.column);
    }
    sum
}
