// Which clauses are to be looked at when a literal becomes false (Moskewicz et al. 2001).

use crate::literals::Literal;
use scut_base::NoMemory;
use std::alloc::Global;
use std::mem;

// A clause of two literals has this bit beside its place: it needs no look into the arena.
const PAIR: u32 = 1 << 31;

// A clause that watches a literal, and another literal of it: where that is true, nothing is to be done (Sorensson and
// Een 2008).
#[derive(Clone, Copy, Debug)]
pub(crate) struct Watch {
    clause: u32,
    pub(crate) other: Literal,
}

impl Watch {
    pub(crate) fn new(clause: u32, other: Literal, is_pair: bool) -> Watch {
        let mark = if is_pair { PAIR } else { 0 };
        Watch {
            clause: clause | mark,
            other,
        }
    }

    // The same clause with another one of its literals.
    #[inline(always)]
    pub(crate) fn with_other(self, other: Literal) -> Watch {
        Watch { other, ..self }
    }

    #[inline(always)]
    pub(crate) fn is_pair(self) -> bool {
        self.clause & PAIR != 0
    }

    #[inline(always)]
    pub(crate) fn clause(self) -> u32 {
        self.clause & !PAIR
    }
}

// Of each literal, by its index, the clauses that watch it.
#[derive(Debug, Drop)]
pub(crate) struct Watches {
    alloc: Global,
    lists: Vec<Vec<Watch>>,
}

impl Watches {
    pub(crate) fn new(alloc: Global) -> Watches {
        Watches {
            alloc,
            lists: Vec::new(alloc),
        }
    }

    // Makes the variables up to this number known.
    pub(crate) fn grow(&mut self, vars: u32) -> Result<(), NoMemory> {
        for _lit in self.lists.len()..(vars as usize).wrapping_mul(2).wrapping_add(2) {
            self.lists.push(Vec::new(self.alloc))?;
        }
        Ok(())
    }

    // How many literals there are lists for.
    pub(crate) fn len(&self) -> usize {
        self.lists.len()
    }

    #[inline(always)]
    pub(crate) fn add(&mut self, lit: Literal, watch: Watch) -> Result<(), NoMemory> {
        if let Some(list) = self.lists.get_mut(lit.index()) {
            list.push(watch)?;
        }
        Ok(())
    }

    // The clauses that watch a literal.
    pub(crate) fn list(&self, lit: Literal) -> &[Watch] {
        match self.lists.get(lit.index()) {
            Some(list) => list.as_slice(),
            None => &[],
        }
    }

    // Takes the list of a literal out, which is to be put back.
    pub(crate) fn take(&mut self, index: usize) -> Vec<Watch> {
        match self.lists.get_mut(index) {
            Some(list) => mem::replace(list, Vec::new(self.alloc)),
            None => Vec::new(self.alloc),
        }
    }

    pub(crate) fn put(&mut self, index: usize, watches: Vec<Watch>) {
        if let Some(list) = self.lists.get_mut(index) {
            *list = watches;
        }
    }
}

// Puts an entry in the place of another one of its list.
#[inline(always)]
pub(crate) fn put_at(list: &mut [Watch], at: usize, watch: Watch) {
    if let Some(place) = list.get_mut(at) {
        *place = watch;
    }
}
