// Linear rows, each with a counter of how much it has to spare.

use crate::literals::{Literal, word_of};
use scut_base::NoMemory;
use std::alloc::Global;

// A literal and its coefficient.
#[derive(Clone, Copy, Debug)]
pub(crate) struct RowTerm {
    pub(crate) lit: Literal,
    pub(crate) coefficient: i64,
}

// The sum of coefficients of true literals is at least the degree.
#[derive(Debug, Drop)]
pub(crate) struct Row {
    pub(crate) terms: Vec<RowTerm>,
    pub(crate) degree: i64,
    // The sum of coefficients of literals that aren't known to be false, less the degree.
    pub(crate) slack: i64,
    // The greatest coefficient.
    pub(crate) greatest: i64,
    pub(crate) record: u32,
}

// A row in which a literal stands, with its coefficient there.
#[derive(Clone, Copy, Debug)]
pub(crate) struct Use {
    pub(crate) row: u32,
    pub(crate) coefficient: i64,
}

#[derive(Debug, Drop)]
pub(crate) struct Rows {
    alloc: Global,
    rows: Vec<Row>,
    // Of each literal, by its index.
    uses: Vec<Vec<Use>>,
    // From this row on they haven't been looked at as a whole.
    pub(crate) next_new: usize,
}

impl Rows {
    pub(crate) fn new(alloc: Global) -> Rows {
        Rows {
            alloc,
            rows: Vec::new(alloc),
            uses: Vec::new(alloc),
            next_new: 0,
        }
    }

    // Makes the variables up to this number known.
    pub(crate) fn grow(&mut self, vars: u32) -> Result<(), NoMemory> {
        for _lit in self.uses.len()..(vars as usize).wrapping_mul(2).wrapping_add(2) {
            self.uses.push(Vec::new(self.alloc))?;
        }
        Ok(())
    }

    pub(crate) fn len(&self) -> usize {
        self.rows.len()
    }

    pub(crate) fn is_empty(&self) -> bool {
        self.rows.is_empty()
    }

    pub(crate) fn row(&self, number: u32) -> Option<&Row> {
        self.rows.get(number as usize)
    }

    pub(crate) fn record(&self, number: u32) -> u32 {
        match self.rows.get(number as usize) {
            Some(row) => row.record,
            None => 0,
        }
    }

    pub(crate) fn add(&mut self, row: Row) -> Result<(), NoMemory> {
        let number = word_of(self.rows.len());
        for term in row.terms.iter() {
            if let Some(uses) = self.uses.get_mut(term.lit.index()) {
                uses.push(Use {
                    row: number,
                    coefficient: term.coefficient,
                })?;
            }
        }
        self.rows.push(row)?;
        Ok(())
    }

    pub(crate) fn uses(&self, lit: Literal) -> &[Use] {
        match self.uses.get(lit.index()) {
            Some(uses) => uses.as_slice(),
            None => &[],
        }
    }

    // A literal has become false: counts its rows down, and tells one that can't be met any more.
    pub(crate) fn count_down(&mut self, lit: Literal) -> Option<u32> {
        let mut violated = None;
        let Some(uses) = self.uses.get(lit.index()) else {
            return None;
        };
        for used in uses.iter() {
            if let Some(row) = self.rows.get_mut(used.row as usize) {
                row.slack = row.slack.wrapping_sub(used.coefficient);
                if row.slack < 0 && violated.is_none() {
                    violated = Some(used.row);
                }
            }
        }
        violated
    }

    // A literal is no longer false.
    pub(crate) fn count_up(&mut self, lit: Literal) {
        let Some(uses) = self.uses.get(lit.index()) else {
            return;
        };
        for used in uses.iter() {
            if let Some(row) = self.rows.get_mut(used.row as usize) {
                row.slack = row.slack.wrapping_add(used.coefficient);
            }
        }
    }
}
