// Equivalent literals: one stands for all (Brafman 2001). A literal that gives way is eliminated with its definition,
// two binary clauses: only these are resolved with its other clauses (Een and Biere 2005).

use crate::arena::TAKEN_UP;
use crate::aside::Role;
use crate::components::Components;
use crate::elimination::{NO_BOUNDS, Round};
use crate::engine::Engine;
use crate::limits::WATCHES_PER_TICK;
use crate::literals::Literal;
use crate::records::Hint;
use crate::trail::Truth;
use scut_base::NoMemory;

// Which literals are equivalent, and why.
#[derive(Debug, Drop)]
struct Equivalences {
    components: Components,
    // Of each literal, by its index, the record of the clause that its representative implies it; 0 where there's none.
    records: Vec<u32>,
    // The literals that have records, besides representatives, which need none.
    reached: Vec<Literal>,
}

impl Engine {
    // Puts one of equivalent literals in the place of the others, up to so many ticks.
    pub(crate) fn substitute_equivalent(&mut self, end: u64) -> Result<(), NoMemory> {
        self.shorten_all()?;
        if !self.has_pairs() {
            return Ok(());
        }
        let components = self.find_components(end)?;
        if components.chosen().is_empty() {
            return Ok(());
        }
        let equivalences = self.derive_equivalences(components, end)?;
        let mut round = self.begin_round()?;
        self.ticks = self.ticks.saturating_add(self.round_size());
        for lit in equivalences.reached.iter() {
            if self.empty.is_some() || self.ticks >= end {
                break;
            }
            self.substitute(&mut round, &equivalences, *lit)?;
        }
        self.end_round()
    }

    // Makes clauses binary that have two literals besides those that are false at level 0: gates with a constant input
    // are equivalent to the other one.
    fn shorten_all(&mut self) -> Result<(), NoMemory> {
        for number in 0..self.clauses.len() {
            let at = self.clauses.get(number).copied().unwrap_or(0);
            self.shorten(at)?;
        }
        for number in 0..self.learned.len() {
            let at = self.learned.get(number).copied().unwrap_or(0);
            self.shorten(at)?;
        }
        Ok(())
    }

    fn shorten(&mut self, at: u32) -> Result<(), NoMemory> {
        let Some(pair) = self.open_pair(at) else {
            return Ok(());
        };
        let mut hints = Vec::new(self.alloc);
        self.push_roots(at, &mut hints)?;
        hints.push(Hint::Record(self.arena.record(at)))?;
        let roots = self.trail.roots();
        let record = self.records.derive(&pair, hints.as_slice(), roots)?;
        let standing = self.arena.standing(at);
        self.drop_clause(at);
        self.attach(&pair, standing, record)?;
        Ok(())
    }

    // The two literals of a longer clause that aren't assigned, where all others are false.
    fn open_pair(&self, at: u32) -> Option<[Literal; 2]> {
        let codes = self.arena.codes(at);
        if codes.len() < 3 {
            return None;
        }
        let mut pair = [Literal::of_code(0); 2];
        let mut open = 0usize;
        for code in codes {
            let lit = Literal::of_code(*code);
            match self.trail.value(lit) {
                Truth::True => return None,
                Truth::False => {}
                Truth::Open => {
                    *pair.get_mut(open)? = lit;
                    open = open.wrapping_add(1);
                }
            }
        }
        if open == 2 { Some(pair) } else { None }
    }

    // Whether there is a binary clause.
    fn has_pairs(&self) -> bool {
        let mut places = self.clauses.iter().chain(self.learned.iter());
        places.any(|at| self.arena.length(*at) == 2)
    }

    // Derives that representatives imply the others, breadth first.
    fn derive_equivalences(
        &mut self,
        components: Components,
        end: u64,
    ) -> Result<Equivalences, NoMemory> {
        let mut equivalences = Equivalences {
            records: vec![in self.alloc; 0u32; self.watches.len()]?,
            reached: Vec::from_slice(self.alloc, components.chosen())?,
            components,
        };
        for at in 0..usize::MAX {
            let Some(lit) = equivalences.reached.get(at).copied() else {
                break;
            };
            if self.ticks >= end {
                break;
            }
            self.derive_implied(&mut equivalences, lit)?;
        }
        Ok(equivalences)
    }

    // Derives that a representative implies what a literal that it implies does, within their component.
    fn derive_implied(
        &mut self,
        equivalences: &mut Equivalences,
        lit: Literal,
    ) -> Result<(), NoMemory> {
        let count = self.watches.list(lit.not()).len();
        self.ticks = self.ticks.wrapping_add(1 + count as u64 / WATCHES_PER_TICK);
        for at in 0..count {
            let Some(watch) = self.watches.list(lit.not()).get(at).copied() else {
                break;
            };
            if watch.is_pair() && equivalences.is_new(lit, watch.other) {
                let clause = self.arena.record(watch.clause());
                let record = self.record_of_implied(equivalences, lit, watch.other, clause)?;
                equivalences.reach(watch.other, record)?;
            }
        }
        Ok(())
    }

    // The record of the clause that a representative implies a literal, which another one implies by a clause.
    fn record_of_implied(
        &mut self,
        equivalences: &Equivalences,
        lit: Literal,
        implied: Literal,
        clause: u32,
    ) -> Result<u32, NoMemory> {
        match equivalences.components.representative(lit) {
            Some(representative) if representative != lit => {
                let hints = [Hint::Record(equivalences.record(lit)), Hint::Record(clause)];
                let literals = [representative.not(), implied];
                self.records.derive(&literals, &hints, self.trail.roots())
            }
            _ => Ok(clause),
        }
    }

    // Puts the representative of a literal in its place, if it may go.
    fn substitute(
        &mut self,
        round: &mut Round,
        equivalences: &Equivalences,
        lit: Literal,
    ) -> Result<(), NoMemory> {
        let Some(representative) = equivalences.substitute_of(lit) else {
            return Ok(());
        };
        if !self.can_give_way(lit.var()) || !self.is_in_use(representative.var()) {
            return Ok(());
        }
        let from = [lit, representative.not()];
        let from = self.attach(&from, TAKEN_UP, equivalences.record(lit))?;
        let to = [lit.not(), representative];
        let to = self.attach(&to, TAKEN_UP, equivalences.record(lit.not()))?;
        self.take_clauses(round, lit)?;
        round.resolvents.clear();
        let positive = round.positive.as_slice();
        self.resolve_with(&mut round.resolvents, lit.var(), to, positive, NO_BOUNDS)?;
        let negative = round.negative.as_slice();
        self.resolve_with(&mut round.resolvents, lit.var(), from, negative, NO_BOUNDS)?;
        self.leave(lit.var());
        self.put_aside(round.positive.as_slice(), lit)?;
        self.put_aside(round.negative.as_slice(), lit.not())?;
        // The definition is kept last: it tells what the variable is.
        self.put_aside(&[from], lit)?;
        self.put_aside(&[to], lit.not())?;
        self.add_resolvents(round)
    }

    fn can_give_way(&self, var: u32) -> bool {
        self.trail.is_open(var) && matches!(self.aside.role(var), Role::Inner | Role::Tried)
    }
}

impl Equivalences {
    // The record of the clause that its representative implies a literal.
    fn record(&self, lit: Literal) -> u32 {
        self.records.get(lit.index()).copied().unwrap_or(0)
    }

    // Whether a literal is implied by one of its component, and that isn't derived.
    fn is_new(&self, lit: Literal, implied: Literal) -> bool {
        let representative = self.components.representative(implied);
        representative.is_some()
            && representative == self.components.representative(lit)
            && representative != Some(implied)
            && self.record(implied) == 0
    }

    fn reach(&mut self, lit: Literal, record: u32) -> Result<(), NoMemory> {
        if let Some(place) = self.records.get_mut(lit.index()) {
            *place = record;
        }
        self.reached.push(lit)?;
        Ok(())
    }

    // The literal that can be put in the place of another one: none where that was derived of one direction alone, or
    // both are equivalent to their opposites.
    fn substitute_of(&self, lit: Literal) -> Option<Literal> {
        let representative = self.components.representative(lit)?;
        let opposite = self.components.representative(lit.not())?;
        let is_derived = self.record(lit) != 0 && self.record(lit.not()) != 0;
        if is_derived && opposite == representative.not() {
            Some(representative)
        } else {
            None
        }
    }
}
