// By which literals another one became true, or something was violated. Those of a row are sought when they are asked
// for.

use crate::engine::Engine;
use crate::literals::Literal;
use crate::rows::Row;
use crate::trail::{Reason, Trail};
use crate::work::Work;
use scut_base::NoMemory;

impl Engine {
    // The record of a reason.
    pub(crate) fn record_of(&self, reason: Reason) -> u32 {
        match reason {
            Reason::Decided => 0,
            Reason::Unit(record) => record,
            Reason::Clause(at) => self.arena.record(at),
            Reason::Row(number) => self.rows.record(number),
        }
    }

    // Puts into `work.antecedents` the false literals of a reason besides its own one, or of what is violated. Of a
    // row only as many as suffice, of those that were assigned before a place of the trail.
    #[inline(always)]
    pub(crate) fn take_antecedents(
        &mut self,
        reason: Reason,
        own: Option<Literal>,
        before: u32,
    ) -> Result<(), NoMemory> {
        self.work.antecedents.clear();
        match reason {
            Reason::Clause(at) => self.take_from_clause(at, own),
            Reason::Row(number) => match self.rows.row(number) {
                Some(row) => take_from_row(&mut self.work, &self.trail, row, own, before),
                None => Ok(()),
            },
            _ => Ok(()),
        }
    }

    #[inline(always)]
    fn take_from_clause(&mut self, at: u32, own: Option<Literal>) -> Result<(), NoMemory> {
        let codes = self.arena.codes(at);
        let own = match own {
            Some(lit) => lit.code(),
            None => 0,
        };
        self.work.antecedents.reserve(codes.len())?;
        for code in codes {
            if *code != own {
                self.work.antecedents.push(Literal::of_code(*code))?;
            }
        }
        Ok(())
    }

    // The antecedents of an assigned variable.
    pub(crate) fn take_antecedents_of(&mut self, var: u32) -> Result<(), NoMemory> {
        let step = self.trail.step(var);
        let own = self.trail.true_literal(var);
        self.take_antecedents(step.reason, Some(own), step.place)
    }
}

// The false literals of a row without which its own one needn't be true: those of level 0 first, then by their
// coefficients.
fn take_from_row(
    work: &mut Work,
    trail: &Trail,
    row: &Row,
    own: Option<Literal>,
    before: u32,
) -> Result<(), NoMemory> {
    let mut left = 0i64.wrapping_sub(row.degree).wrapping_add(1);
    work.candidates.clear();
    for term in row.terms.iter() {
        if Some(term.lit) == own {
            continue;
        }
        left = left.wrapping_add(term.coefficient);
        let step = trail.step(term.lit.var());
        if trail.is_false(term.lit) && step.place < before {
            let key = term.coefficient.wrapping_neg();
            work.candidates.push((step.level > 0, key, term.lit))?;
        }
    }
    work.candidates.sort_unstable();
    take_first(work, left)
}

// Takes candidates until they make up for this much.
fn take_first(work: &mut Work, left: i64) -> Result<(), NoMemory> {
    let mut left = left;
    for candidate in work.candidates.iter() {
        if left <= 0 {
            break;
        }
        left = left.wrapping_add(candidate.1);
        work.antecedents.push(candidate.2)?;
    }
    Ok(())
}
