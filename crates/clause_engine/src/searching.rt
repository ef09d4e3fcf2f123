// The search for a model.

use crate::arena::Standing;
use crate::engine::{Closing, Engine, Outcome};
use crate::literals::{Literal, word_of};
use crate::records::Hint;
use crate::trail::{Reason, Truth};
use crate::work::Mark;
use scut_base::{Lit, NoMemory};
use std::mem;

impl Engine {
    // Answers a question, as `Engine::solve` says.
    pub(crate) fn search(&mut self, lits: &[Lit], ticks: u64) -> Result<Outcome, NoMemory> {
        self.closing = Closing::Open;
        let Some(assumptions) = self.assumptions_of(lits)? else {
            return Ok(Outcome::Unknown);
        };
        self.backtrack(0)?;
        self.freeze(assumptions.as_slice())?;
        self.restarts.begin(self.conflicts, self.ticks);
        self.phases.forget_target();
        let end = self.ticks.saturating_add(ticks);
        if let Some(row) = self.propagate_new_rows()? {
            self.close_at_root(Reason::Row(row))?;
        }
        for _step in 0..u64::MAX {
            if let Some(record) = self.empty {
                self.closing = Closing::Record(record);
                return Ok(Outcome::Closed);
            }
            if self.ticks >= end {
                return Ok(Outcome::Unknown);
            }
            if let Some(outcome) = self.step(assumptions.as_slice())? {
                return Ok(outcome);
            }
        }
        Ok(Outcome::Unknown)
    }

    fn assumptions_of(&self, lits: &[Lit]) -> Result<Option<Vec<Literal>>, NoMemory> {
        let mut assumptions = Vec::with_capacity(self.alloc, lits.len())?;
        for lit in lits {
            match Literal::of(lit, self.vars) {
                Some(literal) => assumptions.push(literal)?,
                None => return Ok(None),
            }
        }
        Ok(Some(assumptions))
    }

    // Looks at the rows that came since the last question; tells one that can't be met.
    fn propagate_new_rows(&mut self) -> Result<Option<u32>, NoMemory> {
        for number in self.rows.next_new..self.rows.len() {
            let number = word_of(number);
            match self.rows.row(number) {
                Some(row) if row.slack < 0 => return Ok(Some(number)),
                _ => self.propagate_row(number)?,
            }
        }
        self.rows.next_new = self.rows.len();
        Ok(None)
    }

    // Propagates, and then learns, tidies up or decides.
    fn step(&mut self, assumptions: &[Literal]) -> Result<Option<Outcome>, NoMemory> {
        if let Some(violated) = self.propagate()? {
            self.learn_from(violated)?;
            return Ok(None);
        }
        let assumed = word_of(assumptions.len());
        if self.trail.level() > assumed && self.restarts.is_due() {
            self.restart(assumed)?;
            return Ok(None);
        }
        if self.conflicts >= self.next_reduction {
            self.reduce()?;
            return Ok(None);
        }
        if self.restarts.is_switch_due(self.conflicts, self.ticks) {
            self.backtrack(0)?;
            self.restarts.switch(self.ticks);
            self.phases.forget_target();
            return Ok(None);
        }
        if self.rounds.is_due(self.conflicts) {
            self.eliminate_if_room()?;
            return Ok(None);
        }
        self.decide(assumptions)
    }

    fn restart(&mut self, assumed: u32) -> Result<(), NoMemory> {
        self.restarts.note_restart();
        self.phases
            .note_trail(self.trail.literals(), self.restarts.is_stable);
        self.backtrack(assumed)?;
        if self.phases.is_rephasing_due(self.conflicts) {
            self.phases.rephase(self.conflicts);
        }
        Ok(())
    }

    // Learns a clause from what is violated, and makes its first literal true.
    fn learn_from(&mut self, violated: Reason) -> Result<(), NoMemory> {
        self.conflicts = self.conflicts.wrapping_add(1);
        self.restarts.note_conflict();
        let level = self.level_of(violated)?;
        if level == 0 {
            return self.close_at_root(violated);
        }
        let clean = self.trail.start_of(self.trail.level());
        if let Some(literals) = self.trail.literals().get(..clean) {
            self.phases.note_trail(literals, self.restarts.is_stable);
        }
        self.backtrack(level)?;
        let learned = self.analyse(violated)?;
        self.restarts.note_glue(learned.glue, self.conflicts);
        self.backtrack(learned.level)?;
        let standing = Standing {
            is_learned: true,
            is_dropped: false,
            used: 1,
            glue: learned.glue,
        };
        self.attach_learned(standing, learned.record)
    }

    // Puts the learned clause into the arena, unless it's a unit.
    fn attach_learned(&mut self, standing: Standing, record: u32) -> Result<(), NoMemory> {
        let literals = mem::replace(&mut self.work.learned, Vec::new(self.alloc));
        match literals.as_slice() {
            [] => {}
            [only] => self.push_unit(*only, record)?,
            [first, ..] => {
                let at = self.attach(literals.as_slice(), standing, record)?;
                self.trail.push(*first, Reason::Clause(at))?;
            }
        }
        self.work.learned = literals;
        Ok(())
    }

    // Something is violated at level 0: the empty clause follows.
    pub(crate) fn close_at_root(&mut self, violated: Reason) -> Result<(), NoMemory> {
        self.backtrack(0)?;
        self.work.begin();
        self.take_antecedents(violated, None, u32::MAX)?;
        for at in 0..self.work.antecedents.len() {
            if let Some(lit) = self.work.antecedents.get(at).copied() {
                self.work.need_root(lit.var())?;
            }
        }
        let last = self.record_of(violated);
        self.work.make_hints(Some(last))?;
        let roots = self.trail.roots();
        let record = self.records.derive(&[], self.work.hints.as_slice(), roots)?;
        self.empty = Some(record);
        Ok(())
    }

    // Makes the next assumption true, or the best variable; or tells that there is none.
    fn decide(&mut self, assumptions: &[Literal]) -> Result<Option<Outcome>, NoMemory> {
        for _assumption in 0..assumptions.len() {
            let Some(lit) = assumptions.get(self.trail.level() as usize).copied() else {
                break;
            };
            match self.trail.value(lit) {
                Truth::True => self.trail.open_level()?,
                Truth::False => return Ok(Some(self.close_by(lit)?)),
                Truth::Open => {
                    self.trail.open_level()?;
                    self.trail.push(lit, Reason::Decided)?;
                    return Ok(None);
                }
            }
        }
        self.decide_best()
    }

    fn decide_best(&mut self) -> Result<Option<Outcome>, NoMemory> {
        let best = if self.restarts.is_stable {
            self.take_most_active()
        } else {
            self.queue.next(&self.trail)
        };
        let Some(var) = best else {
            self.phases
                .note_trail(self.trail.literals(), self.restarts.is_stable);
            self.keep_model()?;
            return Ok(Some(Outcome::Model));
        };
        let lit = self.phases.literal(var, self.restarts.is_stable);
        self.trail.open_level()?;
        self.trail.push(lit, Reason::Decided)?;
        Ok(None)
    }

    // The most active variable that isn't assigned.
    fn take_most_active(&mut self) -> Option<u32> {
        for _var in 0..self.vars {
            let var = self.heap.take()?;
            if self.trail.is_open(var) && !self.aside.is_eliminated(var) {
                return Some(var);
            }
        }
        None
    }

    fn keep_model(&mut self) -> Result<(), NoMemory> {
        self.model.clear();
        for var in 0..self.vars.saturating_add(1) {
            self.model
                .push(self.trail.is_true(Literal::new(var, false)))?;
        }
        self.aside.extend(self.model.as_mut_slice());
        Ok(())
    }

    // An assumption is false: which ones say so.
    fn close_by(&mut self, lit: Literal) -> Result<Outcome, NoMemory> {
        let step = self.trail.step(lit.var());
        if step.level == 0 {
            self.closing = Closing::Root(lit.var());
            return Ok(Outcome::Closed);
        }
        // Its opposite is assumed too: a clause of both says nothing.
        if step.reason == Reason::Decided {
            return Ok(Outcome::Unknown);
        }
        self.work.begin();
        self.work.learned.push(lit.not())?;
        self.work.stack.push(lit.var())?;
        for _step in 0..self.trail.len() {
            let Some(var) = self.work.stack.pop() else {
                break;
            };
            self.blame(var)?;
        }
        self.closing = Closing::Record(self.core_record(step.reason)?);
        Ok(Outcome::Closed)
    }

    // Follows a true literal back to assumptions.
    fn blame(&mut self, var: u32) -> Result<(), NoMemory> {
        let step = self.trail.step(var);
        if step.reason == Reason::Decided {
            let lit = self.trail.true_literal(var).not();
            return Ok(self.work.learned.push(lit)?);
        }
        let record = self.record_of(step.reason);
        self.work.chain.push((step.place, record))?;
        self.take_antecedents_of(var)?;
        for at in 0..self.work.antecedents.len() {
            let Some(lit) = self.work.antecedents.get(at).copied() else {
                break;
            };
            self.blame_antecedent(lit.var())?;
        }
        Ok(())
    }

    fn blame_antecedent(&mut self, var: u32) -> Result<(), NoMemory> {
        if self.trail.step(var).level == 0 {
            return self.work.need_root(var);
        }
        let mark = self.work.mark(var);
        if !mark.is_met {
            self.work.set_mark(
                var,
                Mark {
                    is_met: true,
                    ..mark
                },
            )?;
            self.work.stack.push(var)?;
        }
        Ok(())
    }

    // The record of the clause of the core, which may be one that is there.
    fn core_record(&mut self, reason: Reason) -> Result<u32, NoMemory> {
        self.work.make_hints(None)?;
        if let ([Hint::Record(record)], Reason::Clause(at)) = (self.work.hints.as_slice(), reason) {
            if self.arena.length(at) == self.work.learned.len() {
                return Ok(*record);
            }
        }
        self.records.derive(
            self.work.learned.as_slice(),
            self.work.hints.as_slice(),
            self.trail.roots(),
        )
    }
}
