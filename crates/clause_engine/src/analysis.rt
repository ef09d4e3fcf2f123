// What is learned from a conflict: the clause of its first unique implication point (Marques-Silva and Sakallah 1996;
// Zhang et al. 2001), and what it stands on.

use crate::engine::Engine;
use crate::limits::{KEPT_GLUE, MIDDLE_GLUE};
use crate::literals::Literal;
use crate::trail::Reason;
use crate::work::Mark;
use scut_base::NoMemory;

// What was learned; its literals are `work.learned`.
#[derive(Clone, Copy, Debug)]
pub(crate) struct Learned {
    pub(crate) record: u32,
    pub(crate) glue: u32,
    // The level where its first literal is the last one left.
    pub(crate) level: u32,
}

impl Engine {
    // The highest level of what is violated.
    pub(crate) fn level_of(&mut self, violated: Reason) -> Result<u32, NoMemory> {
        self.take_antecedents(violated, None, u32::MAX)?;
        let mut level = 0;
        for lit in self.work.antecedents.iter() {
            level = self.trail.step(lit.var()).level.max(level);
        }
        Ok(level)
    }

    // Learns from what is violated by literals of the last level.
    pub(crate) fn analyse(&mut self, violated: Reason) -> Result<Learned, NoMemory> {
        self.work.begin();
        let record = self.record_of(violated);
        let first = self.resolve(violated)?;
        self.minimise(first)?;
        let glue = self.count_glue();
        let level = self.put_highest_second();
        self.work.make_hints(Some(record))?;
        self.bump_all()?;
        let record = self.records.derive(
            self.work.learned.as_slice(),
            self.work.hints.as_slice(),
            self.trail.roots(),
        )?;
        Ok(Learned {
            record,
            glue,
            level,
        })
    }

    // Resolves on literals of the last level until one is left, whose opposite is the first of the clause.
    fn resolve(&mut self, violated: Reason) -> Result<Literal, NoMemory> {
        let mut own = None;
        let mut reason = violated;
        let mut before = self.trail.len();
        let mut open = 0usize;
        self.work.learned.push(Literal::of_code(0))?;
        for _step in 0..self.trail.len() {
            self.note_used(reason);
            let place = if own.is_none() { usize::MAX } else { before };
            self.take_antecedents(reason, own, place.min(u32::MAX as usize) as u32)?;
            open = open.wrapping_add(self.mark_antecedents()?);
            let Some((at, lit)) = self.met_before(before) else {
                break;
            };
            own = Some(lit);
            before = at;
            open = open.wrapping_sub(1);
            if open == 0 {
                break;
            }
            reason = self.note_resolved(lit)?;
        }
        let first = own.unwrap_or(Literal::of_code(0)).not();
        if let Some(place) = self.work.learned.first_mut() {
            *place = first;
        }
        Ok(first)
    }

    // The last literal before a place of the trail that was met, of the last level.
    fn met_before(&self, place: usize) -> Option<(usize, Literal)> {
        let level = self.trail.level();
        for at in (0..place).rev() {
            let lit = self.trail.literal(at)?;
            if self.work.mark(lit.var()).is_met && self.trail.step(lit.var()).level == level {
                return Some((at, lit));
            }
        }
        None
    }

    // A literal is resolved upon: its reason, which becomes a hint.
    fn note_resolved(&mut self, lit: Literal) -> Result<Reason, NoMemory> {
        let step = self.trail.step(lit.var());
        let record = self.record_of(step.reason);
        self.work.chain.push((step.place, record))?;
        let mark = self.work.mark(lit.var());
        self.work.set_mark(
            lit.var(),
            Mark {
                has_hints: true,
                ..mark
            },
        )?;
        Ok(step.reason)
    }

    // Meets the antecedents, and tells how many of them are new and of the last level.
    fn mark_antecedents(&mut self) -> Result<usize, NoMemory> {
        let last = self.trail.level();
        let mut open = 0usize;
        for at in 0..self.work.antecedents.len() {
            let Some(lit) = self.work.antecedents.get(at).copied() else {
                break;
            };
            let var = lit.var();
            let mark = self.work.mark(var);
            if mark.is_met {
                continue;
            }
            let level = self.trail.step(var).level;
            if level == 0 {
                self.work.need_root(var)?;
                continue;
            }
            self.work.set_mark(
                var,
                Mark {
                    is_met: true,
                    ..mark
                },
            )?;
            self.work.bumped.push(var)?;
            if level == last {
                open = open.wrapping_add(1);
            } else {
                self.work.learned.push(lit)?;
            }
        }
        Ok(open)
    }

    // How many levels the literals after the first have.
    fn count_glue(&mut self) -> u32 {
        self.work.begin_levels();
        let mut glue = 0u32;
        for at in 1..self.work.learned.len() {
            let lit = match self.work.learned.get(at) {
                Some(lit) => *lit,
                None => break,
            };
            if self.work.count_level(self.trail.step(lit.var()).level) {
                glue = glue.wrapping_add(1);
            }
        }
        glue
    }

    // Puts a literal of the highest level after the first one, and tells that level.
    fn put_highest_second(&mut self) -> u32 {
        let mut level = 0;
        let mut place = 1;
        for (at, lit) in self.work.learned.iter().enumerate().skip(1) {
            let its = self.trail.step(lit.var()).level;
            if its > level {
                level = its;
                place = at;
            }
        }
        if 1 < self.work.learned.len() && place < self.work.learned.len() {
            self.work.learned.swap(1, place);
        }
        level
    }

    // A clause took part in a conflict: it counts as used, and its glue may have become less.
    fn note_used(&mut self, reason: Reason) {
        let Reason::Clause(at) = reason else {
            return;
        };
        let mut standing = self.arena.standing(at);
        if !standing.is_learned {
            return;
        }
        if standing.glue > KEPT_GLUE {
            standing.glue = self.glue_now(at).min(standing.glue);
        }
        standing.used = if standing.glue <= MIDDLE_GLUE { 2 } else { 1 };
        self.arena.set_standing(at, standing);
    }

    // How many levels a clause's literals have now.
    fn glue_now(&mut self, at: u32) -> u32 {
        self.work.begin_levels();
        let mut glue = 0u32;
        for code in self.arena.codes(at) {
            let level = self.trail.step(Literal::of_code(*code).var()).level;
            if level > 0 && self.work.count_level(level) {
                glue = glue.wrapping_add(1);
            }
        }
        glue
    }

    // The variables that were met had to do with a conflict.
    fn bump_all(&mut self) -> Result<(), NoMemory> {
        if self.restarts.is_stable {
            for var in self.work.bumped.iter() {
                self.heap.bump(*var);
            }
            self.heap.decay();
            Ok(())
        } else {
            self.bump_in_queue()
        }
    }

    // Bumps them in the order in which they were bumped before.
    fn bump_in_queue(&mut self) -> Result<(), NoMemory> {
        self.work.by_stamp.clear();
        for var in self.work.bumped.iter() {
            self.work.by_stamp.push((self.queue.stamp(*var), *var))?;
        }
        self.work.by_stamp.sort_unstable();
        for (_stamp, var) in self.work.by_stamp.iter() {
            self.queue.bump(*var, self.trail.is_open(*var));
        }
        Ok(())
    }
}
