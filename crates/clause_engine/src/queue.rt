// Variables by when they were bumped last (Ryan 2004), in a list that is linked both ways.

use crate::literals::word_of;
use crate::trail::Trail;
use scut_base::NoMemory;
use std::alloc::Global;

// A variable's neighbours, 0 where there is none, and when it was bumped.
#[derive(Clone, Copy, Debug)]
struct Link {
    before: u32,
    after: u32,
    stamp: u64,
}

const NO_LINK: Link = Link {
    before: 0,
    after: 0,
    stamp: 0,
};

#[derive(Debug, Drop)]
pub(crate) struct Queue {
    links: Vec<Link>,
    last: u32,
    // All variables after this one are assigned.
    look: u32,
    stamps: u64,
}

impl Queue {
    pub(crate) fn new(alloc: Global) -> Queue {
        Queue {
            links: Vec::new(alloc),
            last: 0,
            look: 0,
            stamps: 0,
        }
    }

    // Makes the variables up to this number known.
    pub(crate) fn grow(&mut self, vars: u32) -> Result<(), NoMemory> {
        for var in self.links.len()..(vars as usize).saturating_add(1) {
            self.links.push(NO_LINK)?;
            if var > 0 {
                self.put_last(word_of(var));
                self.look = word_of(var);
            }
        }
        Ok(())
    }

    fn link(&self, var: u32) -> Link {
        match self.links.get(var as usize) {
            Some(link) => *link,
            None => NO_LINK,
        }
    }

    // When a variable was bumped: a later time is a greater number.
    pub(crate) fn stamp(&self, var: u32) -> u64 {
        self.link(var).stamp
    }

    fn set(&mut self, var: u32, link: Link) {
        if let Some(place) = self.links.get_mut(var as usize) {
            *place = link;
        }
    }

    fn set_before(&mut self, var: u32, before: u32) {
        if let Some(place) = self.links.get_mut(var as usize) {
            place.before = before;
        }
    }

    fn set_after(&mut self, var: u32, after: u32) {
        if let Some(place) = self.links.get_mut(var as usize) {
            place.after = after;
        }
    }

    fn put_last(&mut self, var: u32) {
        self.stamps = self.stamps.wrapping_add(1);
        let last = self.last;
        if last != 0 {
            self.set_after(last, var);
        }
        self.set(
            var,
            Link {
                before: last,
                after: 0,
                stamp: self.stamps,
            },
        );
        self.last = var;
    }

    fn take_out(&mut self, var: u32) {
        let link = self.link(var);
        if link.before != 0 {
            self.set_after(link.before, link.after);
        }
        if link.after != 0 {
            self.set_before(link.after, link.before);
        }
        if self.look == var {
            self.look = if link.before != 0 {
                link.before
            } else {
                link.after
            };
        }
    }

    // A variable is not to be decided.
    pub(crate) fn leave(&mut self, var: u32) {
        self.take_out(var);
        let link = self.link(var);
        if link.after == 0 {
            self.last = link.before;
        }
        self.set(var, NO_LINK);
    }

    // A variable that left comes back.
    pub(crate) fn enter(&mut self, var: u32) {
        self.put_last(var);
        self.look = var;
    }

    // A conflict had to do with this variable.
    pub(crate) fn bump(&mut self, var: u32, is_open: bool) {
        if self.link(var).after == 0 {
            return;
        }
        self.take_out(var);
        self.put_last(var);
        if is_open {
            self.look = var;
        }
    }

    // A variable is no longer assigned.
    pub(crate) fn note_open(&mut self, var: u32) {
        if self.look == 0 || self.stamp(var) > self.stamp(self.look) {
            self.look = var;
        }
    }

    // The variable that was bumped last of those that aren't assigned.
    pub(crate) fn next(&mut self, trail: &Trail) -> Option<u32> {
        for _var in 0..self.links.len() {
            if self.look == 0 {
                return None;
            }
            if trail.is_open(self.look) {
                return Some(self.look);
            }
            self.look = self.link(self.look).before;
        }
        None
    }
}
