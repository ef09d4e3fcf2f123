// Variables by their activity (Moskewicz et al. 2001; Een and Sorensson 2003), in a binary heap.

use crate::limits::{DECAY, DEEPEST, MOST_ACTIVITY, SCALE_DOWN};
use crate::literals::word_of;
use scut_base::NoMemory;
use std::alloc::Global;

// The place of a variable that isn't in the heap.
const NOWHERE: u32 = u32::MAX;

#[derive(Debug, Drop)]
pub(crate) struct Heap {
    activities: Vec<f64>,
    // The variables in the order of the heap, and where each is there.
    order: Vec<u32>,
    places: Vec<u32>,
    increment: f64,
}

impl Heap {
    pub(crate) fn new(alloc: Global) -> Heap {
        Heap {
            activities: Vec::new(alloc),
            order: Vec::new(alloc),
            places: Vec::new(alloc),
            increment: 1.0,
        }
    }

    // Makes the variables up to this number known.
    pub(crate) fn grow(&mut self, vars: u32) -> Result<(), NoMemory> {
        self.order.reserve(vars as usize)?;
        for var in self.places.len()..(vars as usize).saturating_add(1) {
            self.activities.push(0.0)?;
            self.places.push(NOWHERE)?;
            if var > 0 {
                self.put(word_of(var))?;
            }
        }
        Ok(())
    }

    // Puts a variable in, if it isn't there.
    pub(crate) fn put(&mut self, var: u32) -> Result<(), NoMemory> {
        if self.place(var) != NOWHERE {
            return Ok(());
        }
        let at = self.order.len();
        self.order.push(var)?;
        self.set_place(var, at);
        self.move_up(at);
        Ok(())
    }

    // Takes the variable with the greatest activity out.
    pub(crate) fn take(&mut self) -> Option<u32> {
        let first = self.order.first().copied()?;
        let last = self.order.pop()?;
        self.clear_place(first);
        if last != first {
            self.set(0, last);
            self.move_down(0);
        }
        Some(first)
    }

    // A conflict had to do with this variable.
    pub(crate) fn bump(&mut self, var: u32) {
        let activity = self.activity(var) + self.increment;
        if let Some(place) = self.activities.get_mut(var as usize) {
            *place = activity;
        }
        let at = self.place(var);
        if at != NOWHERE {
            self.move_up(at as usize);
        }
        if activity > MOST_ACTIVITY {
            self.scale_down();
        }
    }

    // What was bumped before counts less from now on.
    pub(crate) fn decay(&mut self) {
        self.increment /= DECAY;
    }

    fn scale_down(&mut self) {
        for activity in self.activities.iter_mut() {
            *activity *= SCALE_DOWN;
        }
        self.increment *= SCALE_DOWN;
    }

    fn activity(&self, var: u32) -> f64 {
        match self.activities.get(var as usize) {
            Some(activity) => *activity,
            None => 0.0,
        }
    }

    fn place(&self, var: u32) -> u32 {
        match self.places.get(var as usize) {
            Some(place) => *place,
            None => NOWHERE,
        }
    }

    fn set_place(&mut self, var: u32, at: usize) {
        if let Some(place) = self.places.get_mut(var as usize) {
            *place = word_of(at);
        }
    }

    fn clear_place(&mut self, var: u32) {
        if let Some(place) = self.places.get_mut(var as usize) {
            *place = NOWHERE;
        }
    }

    fn var_at(&self, at: usize) -> u32 {
        match self.order.get(at) {
            Some(var) => *var,
            None => 0,
        }
    }

    fn set(&mut self, at: usize, var: u32) {
        if let Some(place) = self.order.get_mut(at) {
            *place = var;
        }
        self.set_place(var, at);
    }

    fn move_up(&mut self, from: usize) {
        let var = self.var_at(from);
        let activity = self.activity(var);
        let mut at = from;
        for _step in 0..DEEPEST {
            if at == 0 {
                break;
            }
            let above = (at - 1) / 2;
            let other = self.var_at(above);
            if self.activity(other) >= activity {
                break;
            }
            self.set(at, other);
            at = above;
        }
        self.set(at, var);
    }

    fn move_down(&mut self, from: usize) {
        let var = self.var_at(from);
        let activity = self.activity(var);
        let mut at = from;
        for _step in 0..DEEPEST {
            let below = self.greater_below(at);
            if below >= self.order.len() {
                break;
            }
            let other = self.var_at(below);
            if self.activity(other) <= activity {
                break;
            }
            self.set(at, other);
            at = below;
        }
        self.set(at, var);
    }

    // The place below with the greater activity; past the end where there is none.
    fn greater_below(&self, at: usize) -> usize {
        let first = at.saturating_mul(2).saturating_add(1);
        let second = first.saturating_add(1);
        let has_second = second < self.order.len();
        if has_second && self.activity(self.var_at(second)) > self.activity(self.var_at(first)) {
            second
        } else {
            first
        }
    }
}
