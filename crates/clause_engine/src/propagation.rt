// What follows at once: clauses by watched literals (Moskewicz et al. 2001), rows by their counters.

use crate::arena::Arena;
use crate::engine::Engine;
use crate::limits::{USES_PER_TICK, WATCHES_PER_TICK};
use crate::literals::Literal;
use crate::rows::RowTerm;
use crate::trail::{Reason, Trail, Truth};
use crate::watches::{Watch, put_at};
use scut_base::NoMemory;

// What a look at a clause came to.
#[derive(Clone, Copy, Debug)]
enum Visit {
    // It stays in the list, with this entry.
    Kept(Watch),
    // It watches another literal now.
    Moved,
    // All its literals are false.
    Violated(Watch),
}

// What a clause, one watched literal of which is false, asks for.
#[derive(Clone, Copy, Debug)]
enum Wish {
    // Nothing: this literal is true.
    Nothing(Literal),
    // To watch this literal in its place, and the other watched one.
    Watch(Literal, Literal),
    // All literals but this one are false.
    Last(Literal),
}

impl Engine {
    // Makes true what follows, until nothing more does or something is violated.
    pub(crate) fn propagate(&mut self) -> Result<Option<Reason>, NoMemory> {
        for _turn in 0..usize::MAX {
            if let Some(lit) = self.trail.literal(self.trail.asked_clauses) {
                self.trail.asked_clauses = self.trail.asked_clauses.wrapping_add(1);
                if let Some(violated) = self.propagate_clauses(lit.not())? {
                    return Ok(Some(violated));
                }
            } else if self.rows.is_empty() {
                return Ok(None);
            } else if let Some(lit) = self.trail.literal(self.trail.asked_rows) {
                self.trail.asked_rows = self.trail.asked_rows.wrapping_add(1);
                if let Some(violated) = self.propagate_rows(lit.not())? {
                    return Ok(Some(violated));
                }
            } else {
                return Ok(None);
            }
        }
        Ok(None)
    }

    // Looks at the clauses that watch a literal that became false.
    fn propagate_clauses(&mut self, lit: Literal) -> Result<Option<Reason>, NoMemory> {
        let mut list = self.watches.take(lit.index());
        let count = list.len();
        let cost = 1 + count as u64 / WATCHES_PER_TICK;
        self.ticks = self.ticks.wrapping_add(cost);
        let mut kept = 0usize;
        let mut violated = None;
        for at in 0..count {
            let Some(watch) = list.get(at).copied() else {
                break;
            };
            match self.visit(watch, lit)? {
                Visit::Kept(watch) => {
                    put_at(list.as_mut_slice(), kept, watch);
                    kept = kept.wrapping_add(1);
                }
                Visit::Moved => {}
                Visit::Violated(watch) => {
                    put_at(list.as_mut_slice(), kept, watch);
                    kept = kept.wrapping_add(1);
                    kept = close_gap(list.as_mut_slice(), kept, at.wrapping_add(1));
                    violated = Some(Reason::Clause(watch.clause()));
                    break;
                }
            }
        }
        list.truncate(kept);
        self.watches.put(lit.index(), list);
        Ok(violated)
    }

    #[inline(always)]
    fn visit(&mut self, watch: Watch, lit: Literal) -> Result<Visit, NoMemory> {
        let value = self.trail.value(watch.other);
        if matches!(value, Truth::True) {
            return Ok(Visit::Kept(watch));
        }
        if watch.is_pair() {
            return self.force(watch.other, value, watch);
        }
        self.ticks = self.ticks.wrapping_add(1);
        match wish_of(&mut self.arena, &self.trail, watch.clause(), lit) {
            Wish::Nothing(other) => Ok(Visit::Kept(watch.with_other(other))),
            Wish::Watch(new, other) => {
                self.watches.add(new, watch.with_other(other))?;
                Ok(Visit::Moved)
            }
            Wish::Last(other) => {
                let value = self.trail.value(other);
                self.force(other, value, watch)
            }
        }
    }

    // Makes the last literal of a clause true, if it isn't false.
    #[inline(always)]
    fn force(&mut self, lit: Literal, value: Truth, watch: Watch) -> Result<Visit, NoMemory> {
        if matches!(value, Truth::False) {
            return Ok(Visit::Violated(watch));
        }
        self.trail.push(lit, Reason::Clause(watch.clause()))?;
        Ok(Visit::Kept(watch))
    }

    // Counts the rows down in which a literal stands that became false, and makes true what they then ask for.
    fn propagate_rows(&mut self, lit: Literal) -> Result<Option<Reason>, NoMemory> {
        let count = self.rows.uses(lit).len();
        let cost = 1 + count as u64 / USES_PER_TICK;
        self.ticks = self.ticks.wrapping_add(cost);
        if let Some(row) = self.rows.count_down(lit) {
            return Ok(Some(Reason::Row(row)));
        }
        for at in 0..count {
            let number = match self.rows.uses(lit).get(at) {
                Some(used) => used.row,
                None => 0,
            };
            self.propagate_row(number)?;
        }
        Ok(None)
    }

    // Makes the literals true without which a row can't be met.
    pub(crate) fn propagate_row(&mut self, number: u32) -> Result<(), NoMemory> {
        let Some(row) = self.rows.row(number) else {
            return Ok(());
        };
        if row.slack >= row.greatest {
            return Ok(());
        }
        for term in row.terms.iter() {
            if asks_for(&self.trail, term, row.slack) {
                self.trail.push(term.lit, Reason::Row(number))?;
            }
        }
        Ok(())
    }
}

fn asks_for(trail: &Trail, term: &RowTerm, slack: i64) -> bool {
    term.coefficient > slack && matches!(trail.value(term.lit), Truth::Open)
}

// Moves the entries from a place on forward, and tells how many there are then.
fn close_gap(list: &mut [Watch], to: usize, from: usize) -> usize {
    let mut kept = to;
    for at in from..list.len() {
        if let Some(watch) = list.get(at).copied() {
            put_at(list, kept, watch);
            kept = kept.wrapping_add(1);
        }
    }
    kept
}

// What a clause of three literals or more asks for where a watched literal is false. The watched ones are the first
// two.
#[inline(always)]
fn wish_of(arena: &mut Arena, trail: &Trail, at: u32, lit: Literal) -> Wish {
    let [first, second, rest @ ..] = arena.codes_mut(at) else {
        return Wish::Nothing(lit);
    };
    let other = *first ^ *second ^ lit.code();
    if trail.is_true(Literal::of_code(other)) {
        return Wish::Nothing(Literal::of_code(other));
    }
    for code in rest.iter_mut() {
        let new = Literal::of_code(*code);
        if !trail.is_false(new) {
            *code = lit.code();
            *first = other;
            *second = new.code();
            let other = if trail.is_true(new) {
                new
            } else {
                Literal::of_code(other)
            };
            return Wish::Watch(new, other);
        }
    }
    Wish::Last(Literal::of_code(other))
}
