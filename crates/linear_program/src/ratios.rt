// Which variable enters the basis: the bound flipping ratio test (Maros 2003) over groups of about equal ratios
// (Harris 1973), the least of which a heap tells.

use crate::limits::{DEEPEST, FEASIBLE, HARRIS, LEAST_HARRIS, NO_COEFFICIENT, NO_EXCESS};
use crate::pricing::Leaving;
use crate::simplex::Simplex;
use crate::variables::{Standing, Variable};
use scut_base::NoMemory;
use std::alloc::Global;

// A variable outside of the basis that lessens the excess when it moves.
#[derive(Clone, Copy, Debug)]
pub(crate) struct Candidate {
    pub(crate) variable: usize,
    // How large its coefficient is.
    size: f64,
    // Its reduced cost over that.
    ratio: f64,
    // By how much the excess falls where it goes to its other end.
    gain: f64,
}

// What the ratio test works on.
#[derive(Debug, Drop)]
pub(crate) struct Candidates {
    // A heap with the least ratio first.
    heap: Vec<Candidate>,
    // Those with about the least ratio.
    group: Vec<Candidate>,
    // The variables that go to their other end.
    pub(crate) flips: Vec<usize>,
}

impl Candidates {
    pub(crate) fn new(alloc: Global) -> Candidates {
        Candidates {
            heap: Vec::new(alloc),
            group: Vec::new(alloc),
            flips: Vec::new(alloc),
        }
    }

    // The variable that enters for an excess: that of the first group at which the excess ends where all before
    // it go to their other end. `None` where the excess stays.
    fn entering(&mut self, excess: f64) -> Result<Option<usize>, NoMemory> {
        order_heap(self.heap.as_mut_slice());
        self.flips.clear();
        let mut rest = excess;
        for _group in 0..=self.heap.len() {
            let gain = self.take_group()?;
            if self.heap.is_empty() {
                if rest - gain > FEASIBLE {
                    return Ok(None);
                }
                return self.chosen(rest);
            }
            if rest - gain <= NO_EXCESS {
                return self.chosen(rest);
            }
            self.flip_group()?;
            rest -= gain;
        }
        Ok(None)
    }

    // Takes those with about the least ratio off the heap, and says by how much the excess falls by them.
    fn take_group(&mut self) -> Result<f64, NoMemory> {
        self.group.clear();
        let mut gain = 0.0;
        let Some(first) = self.heap.first().copied() else {
            return Ok(gain);
        };
        let most = first.ratio + HARRIS / first.size.max(LEAST_HARRIS);
        for _candidate in 0..self.heap.len() {
            match self.heap.first().copied() {
                Some(candidate) if candidate.ratio <= most => {
                    self.group.push(candidate)?;
                    gain += candidate.gain;
                    drop_first(&mut self.heap);
                }
                _ => break,
            }
        }
        Ok(gain)
    }

    fn flip_group(&mut self) -> Result<(), NoMemory> {
        for candidate in self.group.iter() {
            self.flips.push(candidate.variable)?;
        }
        Ok(())
    }

    // The one of the group with the largest coefficient; those that come before it flip as long as an excess
    // is left.
    fn chosen(&mut self, excess: f64) -> Result<Option<usize>, NoMemory> {
        let Some(chosen) = largest(self.group.as_slice()) else {
            return Ok(None);
        };
        let mut rest = excess;
        for candidate in self.group.iter() {
            if candidate.ratio < chosen.ratio && rest - candidate.gain > NO_EXCESS {
                self.flips.push(candidate.variable)?;
                rest -= candidate.gain;
            }
        }
        Ok(Some(chosen.variable))
    }
}

impl Simplex {
    // The variable that enters for the one that leaves, with those that flip before it. `None` where the excess
    // stays wherever the others go.
    pub(crate) fn entering(&mut self, leaving: &Leaving) -> Result<Option<usize>, NoMemory> {
        self.candidates.heap.clear();
        for at in self.pivot_row.listed() {
            if let Some(variable) = self.variables.get(*at) {
                let rate = -leaving.sign() * self.pivot_row.number(*at);
                if lessens(variable, rate) {
                    self.candidates
                        .heap
                        .push(candidate_of(*at, variable, rate))?;
                }
            }
        }
        let tried = self.candidates.heap.len();
        self.count(tried);
        self.candidates.entering(leaving.excess)
    }
}

// Whether the excess falls where the variable goes to its other end, at this rate.
fn lessens(variable: &Variable, rate: f64) -> bool {
    let moves = match variable.standing {
        Standing::Basic(_) => false,
        Standing::AtLower => rate > NO_COEFFICIENT,
        Standing::AtUpper => rate < -NO_COEFFICIENT,
    };
    moves && !variable.is_fixed()
}

fn candidate_of(at: usize, variable: &Variable, rate: f64) -> Candidate {
    let size = rate.abs();
    let cost = if variable.is_at_upper() {
        -variable.reduced_cost
    } else {
        variable.reduced_cost
    };
    Candidate {
        variable: at,
        size,
        ratio: cost.max(0.0) / size,
        gain: size * variable.width(),
    }
}

// The candidate with the largest coefficient.
fn largest(group: &[Candidate]) -> Option<Candidate> {
    let mut chosen: Option<Candidate> = None;
    let mut most = 0.0;
    for candidate in group {
        if candidate.size > most {
            most = candidate.size;
            chosen = Some(*candidate);
        }
    }
    chosen
}

// Makes a list a heap with the least ratio first.
fn order_heap(heap: &mut [Candidate]) {
    for at in (0..heap.len() / 2).rev() {
        sift(heap, at);
    }
}

// Drops the first of a heap.
fn drop_first(heap: &mut Vec<Candidate>) {
    if let Some(last) = heap.pop() {
        if let Some(first) = heap.first_mut() {
            *first = last;
        }
        sift(heap.as_mut_slice(), 0);
    }
}

// Moves the one at a place down to where it belongs, over a heap.
fn sift(heap: &mut [Candidate], from: usize) {
    let mut at = from;
    for _level in 0..DEEPEST {
        let Some(below) = least_below(heap, at) else {
            return;
        };
        swap_candidates(heap, at, below);
        at = below;
    }
}

// The child with the lesser ratio, if that is less than the ratio at this place.
fn least_below(heap: &[Candidate], at: usize) -> Option<usize> {
    let left = at.saturating_mul(2).saturating_add(1);
    let right = left.saturating_add(1);
    let child = if ratio_at(heap, right) < ratio_at(heap, left) {
        right
    } else {
        left
    };
    if ratio_at(heap, child) < ratio_at(heap, at) {
        Some(child)
    } else {
        None
    }
}

// The ratio at a place, and more than any past the end.
fn ratio_at(heap: &[Candidate], at: usize) -> f64 {
    match heap.get(at) {
        Some(candidate) => candidate.ratio,
        None => f64::INFINITY,
    }
}

fn swap_candidates(heap: &mut [Candidate], one: usize, other: usize) {
    if one < heap.len() && other < heap.len() {
        heap.swap(one, other);
    }
}
