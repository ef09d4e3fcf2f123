// Literals that others of the clause imply are left out of it (Sorensson and Biere 2009).

use crate::engine::Engine;
use crate::literals::Literal;
use crate::trail::Reason;
use crate::work::Mark;
use scut_base::NoMemory;

impl Engine {
    // Leaves out of the learned clause what the rest of it implies, and takes the hints for that.
    pub(crate) fn minimise(&mut self, first: Literal) -> Result<(), NoMemory> {
        self.count_levels();
        self.work.stack.clear();
        let mut kept = 1usize;
        let count = self.work.learned.len();
        for at in 1..count {
            let Some(lit) = self.work.learned.get(at).copied() else {
                break;
            };
            if self.is_implied(lit)? {
                self.work.left_out.push(lit.var())?;
            } else {
                if let Some(place) = self.work.learned.get_mut(kept) {
                    *place = lit;
                }
                kept = kept.wrapping_add(1);
            }
        }
        self.work.learned.truncate(kept);
        self.note_staying(first)?;
        self.take_hints()
    }

    fn count_levels(&mut self) {
        self.work.begin_levels();
        for at in 1..self.work.learned.len() {
            if let Some(lit) = self.work.learned.get(at).copied() {
                self.work.count_level(self.trail.step(lit.var()).level);
            }
        }
    }

    fn note_staying(&mut self, first: Literal) -> Result<(), NoMemory> {
        self.note_stays(first.var())?;
        for at in 1..self.work.learned.len() {
            if let Some(lit) = self.work.learned.get(at).copied() {
                self.note_stays(lit.var())?;
            }
        }
        Ok(())
    }

    fn note_stays(&mut self, var: u32) -> Result<(), NoMemory> {
        let mark = self.work.mark(var);
        self.work.set_mark(
            var,
            Mark {
                stays: true,
                ..mark
            },
        )
    }

    // Whether the other literals of the clause, and those that were resolved upon, imply this one.
    fn is_implied(&mut self, lit: Literal) -> Result<bool, NoMemory> {
        if self.trail.step(lit.var()).reason == Reason::Decided {
            return Ok(false);
        }
        let moment = self.work.moment();
        self.work.stack.clear();
        self.work.stack.push(lit.var())?;
        for _step in 0..self.trail.len() {
            let Some(var) = self.work.stack.pop() else {
                break;
            };
            self.take_antecedents_of(var)?;
            if !self.are_maybe_implied()? {
                self.work.doubt_from(moment);
                return Ok(false);
            }
        }
        Ok(true)
    }

    // Whether none of the antecedents is known not to be implied. Those of which nothing is known yet come onto the
    // stack.
    fn are_maybe_implied(&mut self) -> Result<bool, NoMemory> {
        for at in 0..self.work.antecedents.len() {
            let Some(lit) = self.work.antecedents.get(at).copied() else {
                break;
            };
            let var = lit.var();
            let mark = self.work.mark(var);
            let step = self.trail.step(var);
            if step.level == 0 || mark.is_met || mark.is_implied {
                continue;
            }
            let is_known = step.reason == Reason::Decided || !self.work.is_counted(step.level);
            if is_known || mark.is_not_implied {
                self.work.set_mark(
                    var,
                    Mark {
                        is_not_implied: true,
                        ..mark
                    },
                )?;
                return Ok(false);
            }
            self.work.set_mark(
                var,
                Mark {
                    is_implied: true,
                    ..mark
                },
            )?;
            self.work.stack.push(var)?;
        }
        Ok(true)
    }

    // Takes what the literals that were left out stand on as hints, down to literals that stay.
    fn take_hints(&mut self) -> Result<(), NoMemory> {
        self.work.stack.clear();
        self.work
            .stack
            .extend_from_slice(self.work.left_out.as_slice())?;
        for _step in 0..usize::MAX {
            let Some(var) = self.work.stack.pop() else {
                break;
            };
            self.take_hint(var)?;
        }
        Ok(())
    }

    // Takes the reason of a variable as a hint, if it isn't one, and puts what it stands on onto the stack.
    fn take_hint(&mut self, var: u32) -> Result<(), NoMemory> {
        let step = self.trail.step(var);
        let mark = self.work.mark(var);
        if step.level == 0 {
            return self.work.need_root(var);
        }
        if mark.has_hints || mark.stays {
            return Ok(());
        }
        self.work.set_mark(
            var,
            Mark {
                has_hints: true,
                ..mark
            },
        )?;
        let record = self.record_of(step.reason);
        self.work.chain.push((step.place, record))?;
        self.take_antecedents_of(var)?;
        for lit in self.work.antecedents.iter() {
            self.work.stack.push(lit.var())?;
        }
        Ok(())
    }
}
