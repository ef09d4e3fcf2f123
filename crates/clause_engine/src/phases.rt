// Which truth value a decided variable gets: the one it had (Pipatsrisawat and Darwiche 2007), or that of the longest
// trail without a conflict (Biere and Fleury 2020).

use crate::limits::{FIRST_OF_SEQUENCE, REPHASE_EVERY};
use crate::literals::Literal;
use scut_base::NoMemory;
use std::alloc::Global;

// The values of a variable that are remembered.
#[derive(Clone, Copy, Debug)]
struct Phase {
    // The last one.
    saved: bool,
    // Those of the longest trails since the target, and the best, were forgotten.
    target: Option<bool>,
    best: Option<bool>,
}

const NO_PHASE: Phase = Phase {
    saved: false,
    target: None,
    best: None,
};

// What all variables' saved values are set to, in turn.
#[derive(Clone, Copy, Debug)]
enum Reset {
    AllFalse,
    AllTrue,
    Scattered,
    Best,
}

#[derive(Debug, Drop)]
pub(crate) struct Phases {
    phases: Vec<Phase>,
    target_length: usize,
    best_length: usize,
    rephasings: u64,
    next_rephasing: u64,
    sequence: u64,
}

impl Phases {
    pub(crate) fn new(alloc: Global) -> Phases {
        Phases {
            phases: Vec::new(alloc),
            target_length: 0,
            best_length: 0,
            rephasings: 0,
            next_rephasing: REPHASE_EVERY,
            sequence: FIRST_OF_SEQUENCE,
        }
    }

    // Makes the variables up to this number known.
    pub(crate) fn grow(&mut self, vars: u32) -> Result<(), NoMemory> {
        for _var in self.phases.len()..(vars as usize).saturating_add(1) {
            self.phases.push(NO_PHASE)?;
        }
        Ok(())
    }

    // A literal was true until now.
    pub(crate) fn save(&mut self, lit: Literal) {
        if let Some(phase) = self.phases.get_mut(lit.var() as usize) {
            phase.saved = !lit.is_neg();
        }
    }

    // The literal by which a variable is decided.
    pub(crate) fn literal(&self, var: u32, is_stable: bool) -> Literal {
        let phase = match self.phases.get(var as usize) {
            Some(phase) => *phase,
            None => NO_PHASE,
        };
        let value = match phase.target {
            Some(target) if is_stable => target,
            _ => phase.saved,
        };
        Literal::new(var, !value)
    }

    // So many literals of a trail are without a conflict.
    pub(crate) fn note_trail(&mut self, literals: &[Literal], is_stable: bool) {
        let is_target = is_stable && literals.len() > self.target_length;
        let is_best = literals.len() > self.best_length;
        if is_target {
            self.target_length = literals.len();
        }
        if is_best {
            self.best_length = literals.len();
        }
        if is_target || is_best {
            self.remember(literals, is_target, is_best);
        }
    }

    fn remember(&mut self, literals: &[Literal], is_target: bool, is_best: bool) {
        for lit in literals {
            if let Some(phase) = self.phases.get_mut(lit.var() as usize) {
                let value = Some(!lit.is_neg());
                if is_target {
                    phase.target = value;
                }
                if is_best {
                    phase.best = value;
                }
            }
        }
    }

    pub(crate) fn forget_target(&mut self) {
        if self.target_length == 0 {
            return;
        }
        self.target_length = 0;
        for phase in self.phases.iter_mut() {
            phase.target = None;
        }
    }

    pub(crate) fn is_rephasing_due(&self, conflicts: u64) -> bool {
        conflicts >= self.next_rephasing
    }

    // Begins anew with other values.
    pub(crate) fn rephase(&mut self, conflicts: u64) {
        self.rephasings = self.rephasings.saturating_add(1);
        let wait = REPHASE_EVERY.saturating_mul(self.rephasings.saturating_add(1));
        self.next_rephasing = conflicts.saturating_add(wait);
        let reset = match self.rephasings % 6 {
            1 => Reset::AllFalse,
            3 => Reset::AllTrue,
            5 => Reset::Scattered,
            _ => Reset::Best,
        };
        self.reset(reset);
        self.forget_target();
        self.best_length = 0;
    }

    fn reset(&mut self, reset: Reset) {
        let mut sequence = self.sequence;
        for phase in self.phases.iter_mut() {
            match reset {
                Reset::AllFalse => phase.saved = false,
                Reset::AllTrue => phase.saved = true,
                Reset::Scattered => {
                    sequence = next_of_sequence(sequence);
                    phase.saved = sequence % 2 == 1;
                }
                Reset::Best => phase.saved = phase.best.unwrap_or(phase.saved),
            }
        }
        self.sequence = sequence;
    }
}

// The next number of a fixed sequence (Marsaglia 2003).
fn next_of_sequence(number: u64) -> u64 {
    let first = number ^ (number << 13);
    let second = first ^ (first >> 7);
    second ^ (second << 17)
}
