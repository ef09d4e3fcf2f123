// In which clauses literals stand, and the variables that may be eliminated, the cheapest first.

use crate::literals::Literal;
use scut_base::NoMemory;
use std::alloc::Global;
use std::collections::BinaryHeap;

#[derive(Debug, Drop)]
pub(crate) struct Occurrences {
    // Of each literal, by its index, the places of clauses.
    lists: Vec<Vec<u32>>,
    // Variables by how few pairs of clauses they have, and whether each is there.
    queue: BinaryHeap<(u64, u32)>,
    is_queued: Vec<bool>,
}

impl Occurrences {
    // No clause yet, of this many literals.
    pub(crate) fn new(alloc: Global, literals: usize) -> Result<Occurrences, NoMemory> {
        let mut lists = Vec::with_capacity(alloc, literals)?;
        for _lit in 0..literals {
            lists.push(Vec::new(alloc))?;
        }
        Ok(Occurrences {
            lists,
            queue: BinaryHeap::new(alloc),
            is_queued: vec![in alloc; false; literals / 2]?,
        })
    }

    // A clause has these literals.
    pub(crate) fn add(&mut self, at: u32, codes: &[u32]) -> Result<(), NoMemory> {
        for code in codes {
            if let Some(list) = self.lists.get_mut(*code as usize) {
                list.push(at)?;
            }
        }
        Ok(())
    }

    // The clauses in which a literal stands are these alone.
    pub(crate) fn set(&mut self, lit: Literal, places: &[u32]) -> Result<(), NoMemory> {
        if let Some(list) = self.lists.get_mut(lit.index()) {
            list.clear();
            list.extend_from_slice(places)?;
        }
        Ok(())
    }

    // The places of clauses in which a literal stands, also of some that were dropped.
    pub(crate) fn list(&self, lit: Literal) -> &[u32] {
        match self.lists.get(lit.index()) {
            Some(list) => list.as_slice(),
            None => &[],
        }
    }

    // The shortest list of one of these literals.
    pub(crate) fn shortest(&self, literals: &[Literal]) -> &[u32] {
        let mut shortest: Option<&[u32]> = None;
        for lit in literals {
            let list = self.list(*lit);
            if shortest.is_none_or(|best| list.len() < best.len()) {
                shortest = Some(list);
            }
        }
        shortest.unwrap_or(&[])
    }

    // A variable is to be tried.
    pub(crate) fn put(&mut self, var: u32) -> Result<(), NoMemory> {
        let lit = Literal::new(var, false);
        let first = self.list(lit).len() as u64;
        let second = self.list(lit.not()).len() as u64;
        let pairs = first.saturating_mul(second);
        match self.is_queued.get_mut(var as usize) {
            Some(is_queued) if !*is_queued => *is_queued = true,
            _ => return Ok(()),
        }
        self.queue.push((u64::MAX.saturating_sub(pairs), var))?;
        Ok(())
    }

    // The next variable to be tried.
    pub(crate) fn take(&mut self) -> Option<u32> {
        let (_rank, var) = self.queue.pop()?;
        if let Some(is_queued) = self.is_queued.get_mut(var as usize) {
            *is_queued = false;
        }
        Some(var)
    }
}
