// The resolvents of a variable's clauses.

use crate::arena::Arena;
use crate::literals::Literal;
use crate::trail::Trail;
use scut_base::NoMemory;
use std::alloc::Global;

// Two clauses, by their places, and where the literals of their resolvent end.
#[derive(Clone, Copy, Debug)]
pub(crate) struct Resolvent {
    pub(crate) first: u32,
    pub(crate) second: u32,
    end: usize,
}

#[derive(Debug, Drop)]
pub(crate) struct Resolvents {
    // Whether each literal, by its index, stands in the first clause.
    marks: Vec<bool>,
    literals: Vec<Literal>,
    list: Vec<Resolvent>,
}

impl Resolvents {
    // None yet, of this many literals.
    pub(crate) fn new(alloc: Global, literals: usize) -> Result<Resolvents, NoMemory> {
        Ok(Resolvents {
            marks: vec![in alloc; false; literals]?,
            literals: Vec::new(alloc),
            list: Vec::new(alloc),
        })
    }

    pub(crate) fn clear(&mut self) {
        self.literals.clear();
        self.list.clear();
    }

    pub(crate) fn len(&self) -> usize {
        self.list.len()
    }

    // The resolvent of this number, and its literals.
    pub(crate) fn get(&self, number: usize) -> Option<(Resolvent, &[Literal])> {
        let resolvent = self.list.get(number).copied()?;
        let start = match self.list.get(number.wrapping_sub(1)) {
            Some(before) => before.end,
            None => 0,
        };
        let literals = self.literals.as_slice().get(start..resolvent.end)?;
        Some((resolvent, literals))
    }

    // The literals of the first clause stand in it, or no longer do.
    pub(crate) fn mark(&mut self, codes: &[u32], stands: bool) {
        for code in codes {
            if let Some(place) = self.marks.get_mut(*code as usize) {
                *place = stands;
            }
        }
    }

    fn is_marked(&self, code: u32) -> bool {
        self.marks.get(code as usize).copied().unwrap_or(false)
    }

    // Adds the resolvent of the first clause, which is marked, and a second one, if it says something. Tells how many
    // literals it has.
    pub(crate) fn resolve(
        &mut self,
        arena: &Arena,
        trail: &Trail,
        var: u32,
        first: u32,
        second: u32,
    ) -> Result<usize, NoMemory> {
        let is_own = |code: u32| code / 2 == var;
        let codes = arena.codes(second);
        if codes
            .iter()
            .any(|code| !is_own(*code) && self.is_marked(*code ^ 1))
        {
            return Ok(0);
        }
        let start = self.literals.len();
        self.add_open(trail, arena.codes(first), var)?;
        self.add_new(trail, codes, var)?;
        let end = self.literals.len();
        self.list.push(Resolvent { first, second, end })?;
        Ok(end.saturating_sub(start))
    }

    // Adds the literals of the first clause that aren't false.
    fn add_open(&mut self, trail: &Trail, codes: &[u32], var: u32) -> Result<(), NoMemory> {
        for code in codes {
            let lit = Literal::of_code(*code);
            if lit.var() != var && !trail.is_false(lit) {
                self.literals.push(lit)?;
            }
        }
        Ok(())
    }

    // Adds those of the second one that don't stand in the first.
    fn add_new(&mut self, trail: &Trail, codes: &[u32], var: u32) -> Result<(), NoMemory> {
        for code in codes {
            let lit = Literal::of_code(*code);
            if lit.var() != var && !trail.is_false(lit) && !self.is_marked(*code) {
                self.literals.push(lit)?;
            }
        }
        Ok(())
    }
}
