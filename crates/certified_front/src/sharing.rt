// Whether terms that stand side by side share constraints.
use crate::limits::{CLEARLY, NEAR};
use pb_lin::{Constraint, PbProblem};
use scut_base::{Lit, NoMemory};
use std::alloc::Global;

// The constraints of a problem, and for each variable its place among the terms that are looked at, from 1.
#[derive(Drop)]
pub(crate) struct Sharing<'a> {
    rows: &'a [Constraint],
    places: Vec<u32>,
}

// How many pairs of terms share a constraint, each counted once for each constraint.
#[derive(Clone, Copy, Debug)]
struct Pairs {
    near: u64,
    all: u64,
}

impl<'a> Sharing<'a> {
    pub(crate) fn new(alloc: Global, problem: &'a PbProblem) -> Result<Sharing<'a>, NoMemory> {
        let vars = usize::try_from(problem.vars()).unwrap_or(0);
        Ok(Sharing {
            rows: problem.rows(),
            places: vec![in alloc; 0; vars.saturating_add(1)]?,
        })
    }

    // Whether neighbours among the terms share constraints clearly more than other pairs do.
    pub(crate) fn is_of_neighbours(
        &mut self,
        alloc: Global,
        terms: &[(Lit, u64)],
    ) -> Result<bool, NoMemory> {
        self.place(terms);
        let pairs = self.pairs(alloc)?;
        self.forget(terms);
        let count = terms.len() as u128;
        // Near pairs are 2n - 3 of n (n - 1) / 2.
        let near = u128::from(pairs.near)
            .saturating_mul(count)
            .saturating_mul(count.saturating_sub(1));
        let all = u128::from(pairs.all)
            .saturating_mul(2 * CLEARLY)
            .saturating_mul(count.saturating_mul(2).saturating_sub(3));
        Ok(pairs.all > 0 && near >= all)
    }

    fn place(&mut self, terms: &[(Lit, u64)]) {
        for (place, term) in (1u32..).zip(terms) {
            self.set(term.0, place);
        }
    }

    fn forget(&mut self, terms: &[(Lit, u64)]) {
        for term in terms {
            self.set(term.0, 0);
        }
    }

    fn set(&mut self, lit: Lit, place: u32) {
        if let Ok(var) = usize::try_from(lit.var()) {
            if let Some(slot) = self.places.get_mut(var) {
                *slot = place;
            }
        }
    }

    // The place of a literal's variable among the terms, if it is one of theirs.
    fn get(&self, lit: Lit) -> Option<u32> {
        let var = usize::try_from(lit.var()).ok()?;
        match self.places.get(var) {
            Some(place) if *place > 0 => Some(*place),
            _ => None,
        }
    }

    // The pairs of placed variables that share a constraint.
    fn pairs(&self, alloc: Global) -> Result<Pairs, NoMemory> {
        let mut pairs = Pairs { near: 0, all: 0 };
        let mut places = Vec::new(alloc);
        for row in self.rows {
            places.clear();
            for lit in row.literals() {
                if let Some(place) = self.get(*lit) {
                    places.push(place)?;
                }
            }
            places.sort_unstable();
            pairs.add(places.as_slice());
        }
        Ok(pairs)
    }
}

impl Pairs {
    // Adds the pairs of these places, which rise.
    fn add(&mut self, places: &[u32]) {
        let count = places.len() as u64;
        self.all = self
            .all
            .saturating_add(count.saturating_mul(count.saturating_sub(1)) / 2);
        for (at, place) in places.iter().enumerate() {
            let near = places
                .iter()
                .skip(at.saturating_add(1))
                .take(NEAR)
                .filter(|other| other.saturating_sub(*place) as usize <= NEAR)
                .count();
            self.near = self.near.saturating_add(near as u64);
        }
    }
}
