// The strongly connected components of the implications that binary clauses are (Tarjan 1972).

use crate::aside::{Aside, Role};
use crate::engine::Engine;
use crate::limits::WATCHES_PER_TICK;
use crate::literals::{Literal, word_of};
use scut_base::NoMemory;
use std::alloc::Global;

// What is known of a literal.
#[derive(Clone, Copy, Debug)]
struct Visit {
    // When it was visited; 0 where it wasn't.
    number: u32,
    // The least number of a literal without a component that it is known to lead to.
    lowest: u32,
    // The literal that stands for its component, once that is found.
    representative: Option<Literal>,
}

const NO_VISIT: Visit = Visit {
    number: 0,
    lowest: 0,
    representative: None,
};

#[derive(Debug, Drop)]
pub(crate) struct Components {
    // Of each literal, by its index.
    visits: Vec<Visit>,
    // The number of the last visit.
    last: u32,
    // The literals whose implications are followed, and where to go on in their watch lists.
    path: Vec<(Literal, usize)>,
    // The visited literals that have no component yet.
    pending: Vec<Literal>,
    // The representatives for which other literals can give way.
    chosen: Vec<Literal>,
}

impl Components {
    fn new(alloc: Global, literals: usize) -> Result<Components, NoMemory> {
        Ok(Components {
            visits: vec![in alloc; NO_VISIT; literals]?,
            last: 0,
            path: Vec::new(alloc),
            pending: Vec::new(alloc),
            chosen: Vec::new(alloc),
        })
    }

    // The representatives for which other literals can give way.
    pub(crate) fn chosen(&self) -> &[Literal] {
        self.chosen.as_slice()
    }

    // The literal that stands for the component of this one, where that was found.
    pub(crate) fn representative(&self, lit: Literal) -> Option<Literal> {
        self.visit(lit).representative
    }

    fn visit(&self, lit: Literal) -> Visit {
        self.visits.get(lit.index()).copied().unwrap_or(NO_VISIT)
    }

    fn set_visit(&mut self, lit: Literal, visit: Visit) {
        if let Some(place) = self.visits.get_mut(lit.index()) {
            *place = visit;
        }
    }

    // Visits a literal.
    fn enter(&mut self, lit: Literal) -> Result<(), NoMemory> {
        self.last = self.last.saturating_add(1);
        let visit = Visit {
            number: self.last,
            lowest: self.last,
            representative: None,
        };
        self.set_visit(lit, visit);
        self.pending.push(lit)?;
        self.path.push((lit, 0))?;
        Ok(())
    }

    // Where the last literal of the path goes on in its watch list.
    fn set_next(&mut self, at: usize) {
        if let Some((_lit, next)) = self.path.last_mut() {
            *next = at;
        }
    }

    // A literal leads to whatever has this number.
    fn lower(&mut self, lit: Literal, number: u32) {
        let visit = self.visit(lit);
        let lowest = visit.lowest.min(number);
        self.set_visit(lit, Visit { lowest, ..visit });
    }

    // A literal implies another one: whether that is new.
    fn meet(&mut self, lit: Literal, implied: Literal) -> bool {
        let visit = self.visit(implied);
        if visit.number != 0 && visit.representative.is_none() {
            self.lower(lit, visit.number);
        }
        visit.number == 0
    }

    // The implications of a literal, the last of the path, were followed. If it leads to no earlier one, those since
    // it are its component.
    fn leave(&mut self, lit: Literal, aside: &Aside) -> Result<(), NoMemory> {
        self.path.pop();
        let visit = self.visit(lit);
        if let Some((before, _next)) = self.path.last().copied() {
            self.lower(before, visit.lowest);
        }
        if visit.lowest == visit.number {
            self.close(lit, aside)?;
        }
        Ok(())
    }

    // The literals that were visited since this one are a component with it.
    fn close(&mut self, first: Literal, aside: &Aside) -> Result<(), NoMemory> {
        let start = place_of(self.pending.as_slice(), first);
        let Some(members) = self.pending.as_slice().get(start..) else {
            return Ok(());
        };
        let representative = representative_of(members, first, aside);
        let mut can_give_way = false;
        for member in members {
            let is_other = *member != representative;
            can_give_way |= is_other && aside.role(member.var()) != Role::Frozen;
            if let Some(place) = self.visits.get_mut(member.index()) {
                place.representative = Some(representative);
            }
        }
        self.pending.truncate(start);
        if can_give_way {
            self.chosen.push(representative)?;
        }
        Ok(())
    }
}

// The place of a literal, which stands near the end.
fn place_of(literals: &[Literal], lit: Literal) -> usize {
    for at in (0..literals.len()).rev() {
        if literals.get(at) == Some(&lit) {
            return at;
        }
    }
    0
}

// A literal whose variable is frozen, if there is one; among equals the one of the least variable. So the opposites of
// the literals have the opposite one.
fn representative_of(literals: &[Literal], first: Literal, aside: &Aside) -> Literal {
    let rank = |lit: Literal| (aside.role(lit.var()) != Role::Frozen, lit);
    let mut best = first;
    for lit in literals {
        if rank(*lit) < rank(best) {
            best = *lit;
        }
    }
    best
}

impl Engine {
    // Finds components up to so many ticks.
    pub(crate) fn find_components(&mut self, end: u64) -> Result<Components, NoMemory> {
        let literals = self.watches.len();
        let mut components = Components::new(self.alloc, literals)?;
        for index in 2..literals {
            let lit = Literal::of_code(word_of(index));
            if self.ticks >= end {
                break;
            }
            if self.is_in_use(lit.var()) && components.visit(lit).number == 0 {
                self.follow(&mut components, lit)?;
            }
        }
        Ok(components)
    }

    // Whether a variable isn't assigned and wasn't eliminated.
    pub(crate) fn is_in_use(&self, var: u32) -> bool {
        self.trail.is_open(var) && !self.aside.is_eliminated(var)
    }

    // Finds the components of all that a literal leads to.
    fn follow(&mut self, components: &mut Components, lit: Literal) -> Result<(), NoMemory> {
        components.enter(lit)?;
        for _step in 0..u64::MAX {
            let Some((last, next)) = components.path.last().copied() else {
                break;
            };
            match self.next_implied(components, last, next) {
                Some(implied) => components.enter(implied)?,
                None => components.leave(last, &self.aside)?,
            }
        }
        Ok(())
    }

    // The next literal, from a place of its watch list on, that the last literal of the path implies and that wasn't
    // visited.
    fn next_implied(
        &mut self,
        components: &mut Components,
        lit: Literal,
        from: usize,
    ) -> Option<Literal> {
        let count = self.watches.list(lit.not()).len();
        if from == 0 {
            let cost = 1 + count as u64 / WATCHES_PER_TICK;
            self.ticks = self.ticks.wrapping_add(cost);
        }
        for at in from..count {
            let Some(watch) = self.watches.list(lit.not()).get(at).copied() else {
                break;
            };
            let can_be_met = watch.is_pair() && self.is_in_use(watch.other.var());
            if can_be_met && components.meet(lit, watch.other) {
                components.set_next(at.wrapping_add(1));
                return Some(watch.other);
            }
        }
        None
    }
}
