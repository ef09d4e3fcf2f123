// Variables that were eliminated (Een and Biere 2005), and their clauses, which are kept aside: they tell what the
// variables are in a model, and come back where one is named again.

use crate::literals::Literal;
use scut_base::NoMemory;
use std::alloc::Global;

// Whether a variable may be eliminated.
#[derive(Clone, Copy, Debug, PartialEq, Eq)]
pub(crate) enum Role {
    // It may.
    Inner,
    // It may, and was tried since its clauses changed, with no more growth than now.
    Tried,
    // Rows, assumptions or later clauses name it.
    Frozen,
    // It was: it stands in no clause.
    Eliminated,
}

// A clause kept aside: where its literals end, and its record; 0 where it only says what a variable is in a model if
// no clause tells otherwise.
#[derive(Clone, Copy, Debug)]
struct Kept {
    end: usize,
    record: u32,
}

#[derive(Debug, Drop)]
pub(crate) struct Aside {
    // Of each variable.
    roles: Vec<Role>,
    // From this one on variables that become known are frozen.
    first_expected: u64,
    // The literals of the clauses, one clause after the other, and of each the eliminated one first.
    literals: Vec<Literal>,
    clauses: Vec<Kept>,
}

impl Aside {
    pub(crate) fn new(alloc: Global) -> Aside {
        Aside {
            roles: Vec::new(alloc),
            first_expected: u64::MAX,
            literals: Vec::new(alloc),
            clauses: Vec::new(alloc),
        }
    }

    // Makes the variables up to this number known.
    pub(crate) fn grow(&mut self, vars: u32) -> Result<(), NoMemory> {
        for var in self.roles.len()..(vars as usize).saturating_add(1) {
            let is_expected = var as u64 >= self.first_expected;
            self.roles.push(if is_expected {
                Role::Frozen
            } else {
                Role::Inner
            })?;
        }
        Ok(())
    }

    // Variables from this one on that become known later are frozen.
    pub(crate) fn expect_from(&mut self, first: u64) {
        self.first_expected = first;
    }

    pub(crate) fn role(&self, var: u32) -> Role {
        self.roles
            .get(var as usize)
            .copied()
            .unwrap_or(Role::Frozen)
    }

    pub(crate) fn set_role(&mut self, var: u32, role: Role) {
        if let Some(place) = self.roles.get_mut(var as usize) {
            *place = role;
        }
    }

    pub(crate) fn is_eliminated(&self, var: u32) -> bool {
        self.role(var) == Role::Eliminated
    }

    // A variable's clauses changed: whether it may be tried, now or again.
    pub(crate) fn may_be_tried(&mut self, var: u32) -> bool {
        if self.role(var) == Role::Tried {
            self.set_role(var, Role::Inner);
        }
        self.role(var) == Role::Inner
    }

    // All variables may be tried again.
    pub(crate) fn forget_tries(&mut self) {
        for role in self.roles.iter_mut() {
            if *role == Role::Tried {
                *role = Role::Inner;
            }
        }
    }

    // Whether one of the literals is of a variable that was eliminated.
    pub(crate) fn has_eliminated(&self, literals: &[Literal]) -> bool {
        literals.iter().any(|lit| self.is_eliminated(lit.var()))
    }

    // How many clauses are kept aside.
    pub(crate) fn len(&self) -> usize {
        self.clauses.len()
    }

    // The literals of a clause, and its record.
    pub(crate) fn clause(&self, number: usize) -> (&[Literal], u32) {
        let kept = match self.clauses.get(number) {
            Some(kept) => *kept,
            None => Kept { end: 0, record: 0 },
        };
        let start = match self.clauses.get(number.wrapping_sub(1)) {
            Some(before) => before.end,
            None => 0,
        };
        match self.literals.as_slice().get(start..kept.end) {
            Some(literals) => (literals, kept.record),
            None => (&[], kept.record),
        }
    }

    // Keeps a clause aside: its literal that is eliminated, its literals' codes, and its record.
    pub(crate) fn keep(
        &mut self,
        own: Literal,
        codes: &[u32],
        record: u32,
    ) -> Result<(), NoMemory> {
        self.literals.push(own)?;
        for code in codes {
            if *code != own.code() {
                self.literals.push(Literal::of_code(*code))?;
            }
        }
        self.clauses.push(Kept {
            end: self.literals.len(),
            record,
        })?;
        Ok(())
    }

    // Forgets all clauses.
    pub(crate) fn clear(&mut self) {
        self.literals.clear();
        self.clauses.clear();
    }

    // Gives the eliminated variables of a model their values, from the last one back: a clause that isn't true makes
    // its eliminated literal true.
    pub(crate) fn extend(&self, model: &mut [bool]) {
        for number in (0..self.clauses.len()).rev() {
            let (literals, _record) = self.clause(number);
            if let Some(own) = literals.first() {
                if !literals.iter().any(|lit| is_true(model, *lit)) {
                    make_true(model, *own);
                }
            }
        }
    }
}

fn is_true(model: &[bool], lit: Literal) -> bool {
    match model.get(lit.var() as usize) {
        Some(value) => *value != lit.is_neg(),
        None => false,
    }
}

fn make_true(model: &mut [bool], lit: Literal) {
    if let Some(value) = model.get_mut(lit.var() as usize) {
        *value = !lit.is_neg();
    }
}
