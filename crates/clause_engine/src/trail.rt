// What is assigned, in which order, and why.

use crate::literals::{Literal, word_of};
use scut_base::NoMemory;
use std::alloc::Global;

// What is known of a literal.
#[repr(u8)]
#[derive(Clone, Copy, Debug, PartialEq, Eq)]
pub(crate) enum Truth {
    Open,
    True,
    False,
}

// Why a literal is true.
#[derive(Clone, Copy, Debug, PartialEq, Eq)]
pub(crate) enum Reason {
    // It was decided, or it isn't assigned.
    Decided,
    // The clause of this literal alone is this record.
    Unit(u32),
    // The clause at this place of the arena.
    Clause(u32),
    // The row of this number.
    Row(u32),
}

// Where a variable was assigned, and why.
#[derive(Clone, Copy, Debug)]
pub(crate) struct Step {
    pub(crate) level: u32,
    // Its place on the trail.
    pub(crate) place: u32,
    pub(crate) reason: Reason,
}

const NO_STEP: Step = Step {
    level: 0,
    place: 0,
    reason: Reason::Decided,
};

#[derive(Debug, Drop)]
pub(crate) struct Trail {
    // Of each literal, by its index.
    values: Vec<Truth>,
    // Of each variable.
    steps: Vec<Step>,
    literals: Vec<Literal>,
    // Where each level after 0 begins.
    starts: Vec<u32>,
    // How many literals clauses, and rows, have been asked about.
    pub(crate) asked_clauses: usize,
    pub(crate) asked_rows: usize,
}

impl Trail {
    pub(crate) fn new(alloc: Global) -> Trail {
        Trail {
            values: Vec::new(alloc),
            steps: Vec::new(alloc),
            literals: Vec::new(alloc),
            starts: Vec::new(alloc),
            asked_clauses: 0,
            asked_rows: 0,
        }
    }

    // Makes the variables up to this number known.
    pub(crate) fn grow(&mut self, vars: u32) -> Result<(), NoMemory> {
        for _var in self.steps.len()..(vars as usize).saturating_add(1) {
            self.steps.push(NO_STEP)?;
            self.values.push(Truth::Open)?;
            self.values.push(Truth::Open)?;
        }
        Ok(())
    }

    #[inline(always)]
    pub(crate) fn value(&self, lit: Literal) -> Truth {
        match self.values.get(lit.index()) {
            Some(value) => *value,
            None => Truth::Open,
        }
    }

    #[inline(always)]
    pub(crate) fn is_false(&self, lit: Literal) -> bool {
        matches!(self.value(lit), Truth::False)
    }

    #[inline(always)]
    pub(crate) fn is_true(&self, lit: Literal) -> bool {
        matches!(self.value(lit), Truth::True)
    }

    pub(crate) fn is_open(&self, var: u32) -> bool {
        matches!(self.value(Literal::new(var, false)), Truth::Open)
    }

    // The literal of an assigned variable that is true.
    pub(crate) fn true_literal(&self, var: u32) -> Literal {
        let lit = Literal::new(var, false);
        if self.is_true(lit) { lit } else { lit.not() }
    }

    #[inline(always)]
    pub(crate) fn step(&self, var: u32) -> Step {
        match self.steps.get(var as usize) {
            Some(step) => *step,
            None => NO_STEP,
        }
    }

    pub(crate) fn set_reason(&mut self, var: u32, reason: Reason) {
        if let Some(step) = self.steps.get_mut(var as usize) {
            step.reason = reason;
        }
    }

    pub(crate) fn level(&self) -> u32 {
        word_of(self.starts.len())
    }

    pub(crate) fn len(&self) -> usize {
        self.literals.len()
    }

    pub(crate) fn literals(&self) -> &[Literal] {
        self.literals.as_slice()
    }

    #[inline(always)]
    pub(crate) fn literal(&self, at: usize) -> Option<Literal> {
        self.literals.get(at).copied()
    }

    // How many literals were assigned before this level began; all where it hasn't begun.
    pub(crate) fn start_of(&self, level: u32) -> usize {
        match self.starts.get((level as usize).wrapping_sub(1)) {
            Some(start) => *start as usize,
            None => self.literals.len(),
        }
    }

    // How many literals are assigned at level 0.
    pub(crate) fn roots(&self) -> usize {
        self.start_of(1)
    }

    // Begins a level.
    pub(crate) fn open_level(&mut self) -> Result<(), NoMemory> {
        self.starts.push(word_of(self.literals.len()))?;
        Ok(())
    }

    // Makes a literal true.
    #[inline(always)]
    pub(crate) fn push(&mut self, lit: Literal, reason: Reason) -> Result<(), NoMemory> {
        let step = Step {
            level: self.level(),
            place: word_of(self.literals.len()),
            reason,
        };
        self.literals.push(lit)?;
        self.set_value(lit, Truth::True);
        self.set_value(lit.not(), Truth::False);
        if let Some(place) = self.steps.get_mut(lit.var() as usize) {
            *place = step;
        }
        Ok(())
    }

    // Takes the last literal back.
    pub(crate) fn pop(&mut self) -> Option<Literal> {
        let lit = self.literals.pop()?;
        self.set_value(lit, Truth::Open);
        self.set_value(lit.not(), Truth::Open);
        self.set_reason(lit.var(), Reason::Decided);
        Some(lit)
    }

    // Ends the levels after this one, whose literals were taken back.
    pub(crate) fn close_levels(&mut self, level: u32) {
        self.starts.truncate(level as usize);
        self.asked_clauses = self.asked_clauses.min(self.literals.len());
        self.asked_rows = self.asked_rows.min(self.literals.len());
    }

    #[inline(always)]
    fn set_value(&mut self, lit: Literal, value: Truth) {
        if let Some(place) = self.values.get_mut(lit.index()) {
            *place = value;
        }
    }
}
