// Bounded variable elimination (Een and Biere 2005): the clauses of a variable give way to their resolvents, where
// these aren't many more.

use crate::arena::Standing;
use crate::aside::Role;
use crate::engine::Engine;
use crate::limits::{MOST_PAIRS, MOST_RESOLVENT};
use crate::literals::Literal;
use crate::occurrences::Occurrences;
use crate::records::Hint;
use crate::resolvents::Resolvents;
use crate::trail::Reason;
use scut_base::NoMemory;

// What a round of elimination works with.
#[derive(Debug, Drop)]
pub(crate) struct Round {
    pub(crate) occurrences: Occurrences,
    pub(crate) resolvents: Resolvents,
    // The clauses of the variable that is tried, and those of its negation.
    pub(crate) positive: Vec<u32>,
    pub(crate) negative: Vec<u32>,
}

// How many resolvents a variable may leave, and of how many literals.
#[derive(Clone, Copy, Debug)]
pub(crate) struct Bounds {
    most: usize,
    longest: usize,
}

pub(crate) const NO_BOUNDS: Bounds = Bounds {
    most: usize::MAX,
    longest: usize::MAX,
};

impl Engine {
    // A round of elimination, if there are more, and ticks for it.
    pub(crate) fn eliminate_if_room(&mut self) -> Result<(), NoMemory> {
        self.rounds.wait(self.conflicts);
        let Some(growth) = self.rounds.growth() else {
            return Ok(());
        };
        let began = self.ticks;
        let room = self.rounds.room(began);
        let size = self.round_size();
        if size > room {
            return Ok(());
        }
        self.ticks = began.saturating_add(size);
        self.eliminate(growth, began.saturating_add(room))?;
        self.rounds.note_ticks(self.ticks.saturating_sub(began));
        Ok(())
    }

    // How many ticks it takes to note where literals stand.
    pub(crate) fn round_size(&self) -> u64 {
        self.watches.len().saturating_add(self.clauses.len()) as u64
    }

    // A round up to so many ticks.
    fn eliminate(&mut self, growth: usize, end: u64) -> Result<(), NoMemory> {
        self.backtrack(0)?;
        self.substitute_equivalent(end)?;
        let mut round = self.begin_round()?;
        self.note_candidates(&mut round)?;
        self.try_all(&mut round, growth, end)?;
        self.end_round()
    }

    // Nothing is eliminated yet; it's known in which clauses literals stand.
    pub(crate) fn begin_round(&self) -> Result<Round, NoMemory> {
        let literals = self.watches.len();
        let mut round = Round {
            occurrences: Occurrences::new(self.alloc, literals)?,
            resolvents: Resolvents::new(self.alloc, literals)?,
            positive: Vec::new(self.alloc),
            negative: Vec::new(self.alloc),
        };
        for at in self.clauses.iter() {
            round.occurrences.add(*at, self.arena.codes(*at))?;
        }
        Ok(round)
    }

    // Takes the clauses out that went with variables.
    pub(crate) fn end_round(&mut self) -> Result<(), NoMemory> {
        self.drop_eliminated();
        self.keep_reasons();
        self.move_together()
    }

    // Tries variables until there are none more, or no ticks.
    fn try_all(&mut self, round: &mut Round, growth: usize, end: u64) -> Result<(), NoMemory> {
        for _turn in 0..u64::MAX {
            if self.empty.is_some() || self.ticks >= end {
                return Ok(());
            }
            let Some(var) = round.occurrences.take() else {
                break;
            };
            self.try_variable(round, var, growth)?;
        }
        self.rounds.note_end();
        self.aside.forget_tries();
        Ok(())
    }

    fn note_candidates(&mut self, round: &mut Round) -> Result<(), NoMemory> {
        for var in 1..self.vars.saturating_add(1) {
            if self.may_go(var) {
                round.occurrences.put(var)?;
            }
        }
        Ok(())
    }

    fn may_go(&self, var: u32) -> bool {
        self.trail.is_open(var) && self.aside.role(var) == Role::Inner
    }

    // Eliminates a variable, if it has few clauses, and few resolvents.
    fn try_variable(&mut self, round: &mut Round, var: u32, growth: usize) -> Result<(), NoMemory> {
        let lit = Literal::new(var, false);
        if !self.may_go(var) {
            return Ok(());
        }
        self.aside.set_role(var, Role::Tried);
        self.take_clauses(round, lit)?;
        round.occurrences.set(lit, round.positive.as_slice())?;
        round.occurrences.set(lit.not(), round.negative.as_slice())?;
        let pairs = round.positive.len().saturating_mul(round.negative.len());
        let count = round.positive.len().saturating_add(round.negative.len());
        let bounds = Bounds {
            most: count.saturating_add(growth),
            longest: MOST_RESOLVENT,
        };
        if pairs <= MOST_PAIRS && self.resolve_all(round, var, bounds)? {
            self.eliminate_variable(round, lit)?;
        }
        Ok(())
    }

    // Takes the clauses of a literal and those of its negation.
    pub(crate) fn take_clauses(&mut self, round: &mut Round, lit: Literal) -> Result<(), NoMemory> {
        self.take_live(round.occurrences.list(lit), &mut round.positive)?;
        self.take_live(round.occurrences.list(lit.not()), &mut round.negative)
    }

    // Takes the clauses of a list that weren't dropped and aren't true.
    fn take_live(&mut self, list: &[u32], live: &mut Vec<u32>) -> Result<(), NoMemory> {
        live.clear();
        for at in list {
            self.ticks = self.ticks.wrapping_add(1);
            if !self.arena.standing(*at).is_dropped && !self.is_satisfied(*at) {
                live.push(*at)?;
            }
        }
        Ok(())
    }

    // Finds the resolvents; `false` where they aren't within the bounds.
    fn resolve_all(
        &mut self,
        round: &mut Round,
        var: u32,
        bounds: Bounds,
    ) -> Result<bool, NoMemory> {
        round.resolvents.clear();
        for first in round.positive.iter() {
            let seconds = round.negative.as_slice();
            if !self.resolve_with(&mut round.resolvents, var, *first, seconds, bounds)? {
                return Ok(false);
            }
        }
        Ok(true)
    }

    // Finds those of one clause.
    pub(crate) fn resolve_with(
        &mut self,
        resolvents: &mut Resolvents,
        var: u32,
        first: u32,
        seconds: &[u32],
        bounds: Bounds,
    ) -> Result<bool, NoMemory> {
        let mut fits = true;
        resolvents.mark(self.arena.codes(first), true);
        for second in seconds {
            self.ticks = self.ticks.wrapping_add(1);
            let length = resolvents.resolve(&self.arena, &self.trail, var, first, *second)?;
            fits = length <= bounds.longest && resolvents.len() <= bounds.most;
            if !fits {
                break;
            }
        }
        resolvents.mark(self.arena.codes(first), false);
        Ok(fits)
    }

    // Puts the clauses of a variable aside, and its resolvents in their place.
    fn eliminate_variable(&mut self, round: &mut Round, lit: Literal) -> Result<(), NoMemory> {
        self.leave(lit.var());
        // The fewer clauses are kept last: they tell what the variable is.
        if round.positive.len() <= round.negative.len() {
            self.put_aside(round.negative.as_slice(), lit.not())?;
            self.put_aside(round.positive.as_slice(), lit)?;
            self.aside.keep(lit.not(), &[], 0)?;
        } else {
            self.put_aside(round.positive.as_slice(), lit)?;
            self.put_aside(round.negative.as_slice(), lit.not())?;
            self.aside.keep(lit, &[], 0)?;
        }
        self.add_resolvents(round)
    }

    // A variable is eliminated from now on.
    pub(crate) fn leave(&mut self, var: u32) {
        self.aside.set_role(var, Role::Eliminated);
        self.queue.leave(var);
    }

    // Keeps clauses aside, and drops them.
    pub(crate) fn put_aside(&mut self, places: &[u32], own: Literal) -> Result<(), NoMemory> {
        for at in places {
            let record = self.arena.record(*at);
            self.aside.keep(own, self.arena.codes(*at), record)?;
            self.drop_clause(*at);
        }
        Ok(())
    }

    // Adds the resolvents of the variable that was eliminated.
    pub(crate) fn add_resolvents(&mut self, round: &mut Round) -> Result<(), NoMemory> {
        for number in 0..round.resolvents.len() {
            self.add_resolvent(round, number)?;
        }
        self.touch(round)
    }

    // The variables of the clauses that were dropped are worth a try again.
    fn touch(&mut self, round: &mut Round) -> Result<(), NoMemory> {
        for at in round.positive.iter().chain(round.negative.iter()) {
            for code in self.arena.codes(*at) {
                let var = Literal::of_code(*code).var();
                if self.aside.may_be_tried(var) {
                    round.occurrences.put(var)?;
                }
            }
        }
        Ok(())
    }

    // Adds a resolvent, and what follows from it at once.
    fn add_resolvent(&mut self, round: &mut Round, number: usize) -> Result<(), NoMemory> {
        let Some((resolvent, literals)) = round.resolvents.get(number) else {
            return Ok(());
        };
        if self.is_there(&round.occurrences, literals) {
            return Ok(());
        }
        let record = self.derive_resolvent(resolvent.first, resolvent.second, literals)?;
        let mut literals = Vec::from_slice(self.alloc, literals)?;
        let before = self.clauses.len();
        if !self.has_true(literals.as_slice()) {
            self.put_clause(literals.as_mut_slice(), record)?;
        }
        if let Some(violated) = self.propagate()? {
            self.close_at_root(violated)?;
        }
        if let Some(at) = self.clauses.get(before) {
            round.occurrences.add(*at, self.arena.codes(*at))?;
        }
        Ok(())
    }

    // Whether a clause has just these literals: gates that became equal have the same clauses.
    fn is_there(&mut self, occurrences: &Occurrences, literals: &[Literal]) -> bool {
        for at in occurrences.shortest(literals) {
            self.ticks = self.ticks.wrapping_add(1);
            let codes = self.arena.codes(*at);
            if codes.len() == literals.len()
                && !self.arena.standing(*at).is_dropped
                && literals.iter().all(|lit| codes.contains(&lit.code()))
            {
                return true;
            }
        }
        false
    }

    // The record of a resolvent. It stands on units where a literal of the clauses is false.
    fn derive_resolvent(
        &mut self,
        first: u32,
        second: u32,
        literals: &[Literal],
    ) -> Result<u32, NoMemory> {
        let mut hints = Vec::new(self.alloc);
        self.push_roots(first, &mut hints)?;
        self.push_roots(second, &mut hints)?;
        hints.push(Hint::Record(self.arena.record(first)))?;
        hints.push(Hint::Record(self.arena.record(second)))?;
        self.records
            .derive(literals, hints.as_slice(), self.trail.roots())
    }

    // Adds the variables of a clause's false literals to hints, once each.
    pub(crate) fn push_roots(&self, at: u32, hints: &mut Vec<Hint>) -> Result<(), NoMemory> {
        for code in self.arena.codes(at) {
            let lit = Literal::of_code(*code);
            let hint = Hint::Root(lit.var());
            if self.trail.is_false(lit) && !hints.as_slice().contains(&hint) {
                hints.push(hint)?;
            }
        }
        Ok(())
    }

    // Drops learned clauses with variables that were eliminated.
    fn drop_eliminated(&mut self) {
        for at in self.learned.iter() {
            let codes = self.arena.codes(*at);
            if codes.iter().any(|code| self.aside.is_eliminated(Literal::of_code(*code).var())) {
                let mut standing = self.arena.standing(*at);
                standing.is_dropped = true;
                self.arena.set_standing(*at, standing);
            }
        }
    }

    // Clauses by which literals are true at level 0 stay: units are derived from them where they are needed.
    fn keep_reasons(&mut self) {
        for place in 0..self.trail.len() {
            let Some(lit) = self.trail.literal(place) else {
                break;
            };
            if let Reason::Clause(at) = self.trail.step(lit.var()).reason {
                let standing = self.arena.standing(at);
                self.arena.set_standing(
                    at,
                    Standing {
                        is_dropped: false,
                        ..standing
                    },
                );
            }
        }
    }
}
