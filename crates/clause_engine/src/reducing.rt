// Clauses that are given up, by glue (Audemard and Simon 2009) in tiers (Oh 2016), and the arena moved together.

use crate::arena::Arena;
use crate::engine::Engine;
use crate::limits::{
    GROWN_TIMES, KEPT_GLUE, KEPT_PART, LEAST_COLLECTED, MIDDLE_GLUE, REDUCE_EVERY,
};
use crate::literals::{Literal, word_of};
use crate::records::mark;
use crate::trail::{Reason, Trail};
use crate::watches::{Watch, Watches, put_at};
use scut_base::NoMemory;

impl Engine {
    // Gives up most of the clauses that were of little use, and what is true at level 0.
    pub(crate) fn reduce(&mut self) -> Result<(), NoMemory> {
        self.reductions = self.reductions.saturating_add(1);
        let squared = REDUCE_EVERY
            .saturating_mul(REDUCE_EVERY)
            .saturating_mul(self.reductions.saturating_add(1));
        self.next_reduction = self.conflicts.saturating_add(squared.isqrt());
        let candidates = self.candidates()?;
        let kept = candidates.len() / KEPT_PART;
        for (_glue, _length, at) in candidates.iter().take(candidates.len() - kept) {
            self.drop_clause(*at);
        }
        if self.trail.roots() > self.swept_roots {
            self.backtrack(0)?;
            self.drop_satisfied();
            self.swept_roots = self.trail.roots();
        }
        self.move_together()?;
        self.collect_records()
    }

    // The learned clauses that may go, the worst first: by glue, then by length, each from its greatest value down,
    // then by place.
    fn candidates(&mut self) -> Result<Vec<(u32, u32, u32)>, NoMemory> {
        let mut candidates = Vec::new(self.alloc);
        for at in self.learned.iter() {
            let mut standing = self.arena.standing(*at);
            let used = standing.used;
            standing.used = used.saturating_sub(1);
            self.arena.set_standing(*at, standing);
            let length = self.arena.length(*at);
            let is_used = used == 1 || (used > 0 && standing.glue <= MIDDLE_GLUE);
            let is_kept = standing.glue <= KEPT_GLUE || length == 2 || is_used;
            if !is_kept && !is_reason(&self.arena, &self.trail, *at) {
                let shortness = u32::MAX.saturating_sub(word_of(length));
                candidates.push((u32::MAX - standing.glue, shortness, *at))?;
            }
        }
        candidates.sort_unstable();
        Ok(candidates)
    }

    pub(crate) fn drop_clause(&mut self, at: u32) {
        let mut standing = self.arena.standing(at);
        standing.is_dropped = true;
        self.arena.set_standing(at, standing);
    }

    // Drops the clauses that are true at level 0, besides those by which a literal is.
    fn drop_satisfied(&mut self) {
        for at in self.clauses.iter().chain(self.learned.iter()) {
            if has_true(&self.arena, &self.trail, *at)
                && !is_reason(&self.arena, &self.trail, *at)
            {
                let mut standing = self.arena.standing(*at);
                standing.is_dropped = true;
                self.arena.set_standing(*at, standing);
            }
        }
    }

    // Whether a clause is true at level 0, where the trail ends there.
    pub(crate) fn is_satisfied(&self, at: u32) -> bool {
        has_true(&self.arena, &self.trail, at)
    }

    // Copies the clauses that stay into another arena, in the same order.
    pub(crate) fn move_together(&mut self) -> Result<(), NoMemory> {
        let mut arena = Arena::new(self.alloc);
        move_list(&mut self.clauses, &mut self.arena, &mut arena)?;
        move_list(&mut self.learned, &mut self.arena, &mut arena)?;
        for index in 0..self.watches.len() {
            move_watches(&mut self.watches, &self.arena, index);
        }
        self.move_reasons();
        self.arena = arena;
        Ok(())
    }

    fn move_reasons(&mut self) {
        for place in 0..self.trail.len() {
            let var = match self.trail.literal(place) {
                Some(lit) => lit.var(),
                None => 0,
            };
            if let Reason::Clause(at) = self.trail.step(var).reason {
                let to = self.arena.record(at);
                self.trail.set_reason(var, Reason::Clause(to));
            }
        }
    }

    // Gives up the texts of records that nothing stands on any more, where they have become many.
    fn collect_records(&mut self) -> Result<(), NoMemory> {
        let grown = self.records.collected().saturating_mul(GROWN_TIMES);
        if self.records.pool_len() < grown.max(LEAST_COLLECTED) {
            return Ok(());
        }
        let mut marks = vec![in self.alloc; false; self.records.len()]?;
        for at in self.clauses.iter().chain(self.learned.iter()) {
            mark(marks.as_mut_slice(), self.arena.record(*at));
        }
        for number in 0..self.aside.len() {
            mark(marks.as_mut_slice(), self.aside.clause(number).1);
        }
        for record in self.units.iter() {
            mark(marks.as_mut_slice(), *record);
        }
        if let Some(record) = self.empty {
            mark(marks.as_mut_slice(), record);
        }
        self.records.collect(marks.as_mut_slice())
    }
}

// Whether a watched literal of a clause is true by it.
fn is_reason(arena: &Arena, trail: &Trail, at: u32) -> bool {
    let first = arena.literal(at, 0);
    let second = arena.literal(at, 1);
    is_true_by(trail, first, at) || is_true_by(trail, second, at)
}

fn is_true_by(trail: &Trail, lit: Literal, at: u32) -> bool {
    trail.is_true(lit) && trail.step(lit.var()).reason == Reason::Clause(at)
}

fn has_true(arena: &Arena, trail: &Trail, at: u32) -> bool {
    arena
        .codes(at)
        .iter()
        .any(|code| trail.is_true(Literal::of_code(*code)))
}

// Copies the clauses of a list that stay, and leaves their new places in the old ones' words for the record.
fn move_list(list: &mut Vec<u32>, from: &mut Arena, to: &mut Arena) -> Result<(), NoMemory> {
    let mut kept = 0usize;
    for number in 0..list.len() {
        let at = list.get(number).copied().unwrap_or(0);
        if from.standing(at).is_dropped {
            continue;
        }
        let place = to.add_from(from, at)?;
        from.set_record(at, place);
        if let Some(slot) = list.get_mut(kept) {
            *slot = place;
        }
        kept = kept.wrapping_add(1);
    }
    list.truncate(kept);
    Ok(())
}

// Leaves the entries of clauses that stay, with their new places.
fn move_watches(watches: &mut Watches, arena: &Arena, index: usize) {
    let mut list = watches.take(index);
    let mut kept = 0usize;
    for at in 0..list.len() {
        let Some(watch) = list.get(at).copied() else {
            break;
        };
        if !arena.standing(watch.clause()).is_dropped {
            let place = arena.record(watch.clause());
            let moved = Watch::new(place, watch.other, watch.is_pair());
            put_at(list.as_mut_slice(), kept, moved);
            kept = kept.wrapping_add(1);
        }
    }
    list.truncate(kept);
    watches.put(index, list);
}
