// Taking up clauses and rows.

use crate::arena::{Standing, TAKEN_UP};
use crate::engine::Engine;
use crate::limits::{MOST_COEFFICIENTS, MOST_LINES};
use crate::literals::Literal;
use crate::records::Hint;
use crate::rows::{Row, RowTerm};
use crate::trail::{Reason, Truth};
use crate::watches::Watch;
use scut_base::{Lit, NoMemory};

impl Engine {
    // The literals in order and once each; none where a variable isn't known.
    fn literals_of(&self, lits: &[Lit]) -> Result<Option<Vec<Literal>>, NoMemory> {
        let mut literals = Vec::with_capacity(self.alloc, lits.len())?;
        for lit in lits {
            match Literal::of(lit, self.vars) {
                Some(literal) => literals.push(literal)?,
                None => return Ok(None),
            }
        }
        literals.sort_unstable();
        literals.dedup();
        Ok(Some(literals))
    }

    // Takes a clause up, as `Engine::add_clause` says.
    pub(crate) fn take_clause(&mut self, id: u64, lits: &[Lit]) -> Result<bool, NoMemory> {
        let Some(mut literals) = self.literals_of(lits)? else {
            return Ok(false);
        };
        if id == 0 || id >= MOST_LINES {
            return Ok(false);
        }
        self.backtrack(0)?;
        if has_opposites(literals.as_slice()) || self.has_true(literals.as_slice()) {
            return Ok(true);
        }
        if self.aside.has_eliminated(literals.as_slice()) {
            self.freeze(literals.as_slice())?;
        }
        let record = self.records.add_line(id as u32)?;
        self.put_clause(literals.as_mut_slice(), record)?;
        Ok(true)
    }

    // Puts a clause among the others, none of whose literals is true at level 0.
    pub(crate) fn put_clause(
        &mut self,
        literals: &mut [Literal],
        record: u32,
    ) -> Result<(), NoMemory> {
        let open = self.put_open_first(literals);
        match literals {
            [] => {
                self.empty = Some(record);
                Ok(())
            }
            [only] => self.take_unit(*only, record),
            _ => self.take_long(literals, record, open),
        }
    }

    pub(crate) fn has_true(&self, literals: &[Literal]) -> bool {
        literals.iter().any(|lit| self.trail.is_true(*lit))
    }

    // Puts the literals that aren't false first, and tells how many there are.
    fn put_open_first(&self, literals: &mut [Literal]) -> usize {
        let mut open = 0usize;
        for at in 0..literals.len() {
            let is_open = match literals.get(at) {
                Some(lit) => !self.trail.is_false(*lit),
                None => false,
            };
            if is_open && open <= at {
                literals.swap(open, at);
                open = open.wrapping_add(1);
            }
        }
        open
    }

    // Takes up a clause of one literal that isn't true.
    fn take_unit(&mut self, lit: Literal, record: u32) -> Result<(), NoMemory> {
        if self.trail.is_false(lit) {
            let hints = [Hint::Root(lit.var()), Hint::Record(record)];
            let record = self.records.derive(&[], &hints, self.trail.roots())?;
            self.empty = Some(record);
            return Ok(());
        }
        self.push_unit(lit, record)
    }

    // Makes a literal true at level 0 whose unit clause is a record.
    pub(crate) fn push_unit(&mut self, lit: Literal, record: u32) -> Result<(), NoMemory> {
        if let Some(unit) = self.units.get_mut(lit.var() as usize) {
            *unit = record;
        }
        self.trail.push(lit, Reason::Unit(record))
    }

    // Takes up a clause of at least two literals, the first so many of which aren't false.
    fn take_long(
        &mut self,
        literals: &[Literal],
        record: u32,
        open: usize,
    ) -> Result<(), NoMemory> {
        let at = self.attach(literals, TAKEN_UP, record)?;
        match literals.first() {
            Some(first) if open == 1 => self.trail.push(*first, Reason::Clause(at)),
            _ if open == 0 => self.close_at_root(Reason::Clause(at)),
            _ => Ok(()),
        }
    }

    // Puts a clause of at least two literals into the arena. The first two are watched.
    pub(crate) fn attach(
        &mut self,
        literals: &[Literal],
        standing: Standing,
        record: u32,
    ) -> Result<u32, NoMemory> {
        let at = self.arena.add(literals, standing, record)?;
        let is_pair = literals.len() == 2;
        if let [first, second, ..] = literals {
            self.watches.add(*first, Watch::new(at, *second, is_pair))?;
            self.watches.add(*second, Watch::new(at, *first, is_pair))?;
        }
        if standing.is_learned {
            self.learned.push(at)?;
        } else {
            self.clauses.push(at)?;
        }
        Ok(at)
    }

    // Takes a row up, as `Engine::add_row` says.
    pub(crate) fn take_row(
        &mut self,
        id: u64,
        terms: &[(Lit, u64)],
        degree: u64,
    ) -> Result<bool, NoMemory> {
        let Some(terms) = self.row_terms_of(terms, degree)? else {
            return Ok(false);
        };
        if id == 0 || id >= MOST_LINES {
            return Ok(false);
        }
        self.backtrack(0)?;
        for term in terms.iter() {
            self.freeze(&[term.lit])?;
        }
        let record = self.records.add_line(id as u32)?;
        let row = self.row_of(terms, degree.min(MOST_COEFFICIENTS) as i64, record);
        self.rows.add(row)?;
        Ok(true)
    }

    // The terms of a row by literal; none where a variable isn't known or comes twice, or where sums don't fit.
    fn row_terms_of(
        &self,
        terms: &[(Lit, u64)],
        degree: u64,
    ) -> Result<Option<Vec<RowTerm>>, NoMemory> {
        let mut row = Vec::with_capacity(self.alloc, terms.len())?;
        let mut sum = degree;
        for (lit, coefficient) in terms {
            let Some(lit) = Literal::of(lit, self.vars) else {
                return Ok(None);
            };
            sum = sum.saturating_add(*coefficient);
            row.push(RowTerm {
                lit,
                coefficient: (*coefficient).min(MOST_COEFFICIENTS) as i64,
            })?;
        }
        row.sort_unstable_by_key(|term| term.lit);
        row.retain(|term| term.coefficient > 0);
        if sum >= MOST_COEFFICIENTS || has_variable_twice(row.as_slice()) {
            return Ok(None);
        }
        Ok(Some(row))
    }

    // The row, with what it has to spare now.
    fn row_of(&self, terms: Vec<RowTerm>, degree: i64, record: u32) -> Row {
        let mut slack = 0i64.wrapping_sub(degree);
        let mut greatest = 0i64;
        for term in terms.iter() {
            greatest = greatest.max(term.coefficient);
            let place = self.trail.step(term.lit.var()).place as usize;
            let is_counted = place < self.trail.asked_rows
                && matches!(self.trail.value(term.lit), Truth::False);
            if !is_counted {
                slack = slack.wrapping_add(term.coefficient);
            }
        }
        Row {
            terms,
            degree,
            slack,
            greatest,
            record,
        }
    }
}

// Whether a literal and its opposite follow each other.
fn has_opposites(literals: &[Literal]) -> bool {
    let mut last = None;
    for lit in literals {
        if last == Some(lit.not()) {
            return true;
        }
        last = Some(*lit);
    }
    false
}

fn has_variable_twice(terms: &[RowTerm]) -> bool {
    let mut last = 0;
    for term in terms {
        if term.lit.var() == last {
            return true;
        }
        last = term.lit.var();
    }
    false
}
