// The terms of a constraint, while they are read.
ghost use Rattle.std.specs.Prelude.{◌≡◌, [], ◌∷◌, ◌++◌, IfOk, OnOk};
ghost use Rattle.pb_lin.specs.Constraint.{IsNormal, ones};

use pb_lin::Constraint;
use scut_base::{Items, Lit, NoMemory};
use std::alloc::Global;
use std::marker::Model;

/// Terms in order. Contracts see it as their list. Takes 8 bytes a term while all coefficients are
/// 1, as in a clause.
#[derive(Drop)]
pub(crate) struct Terms {
    // The literals before the first coefficient that isn't 1.
    lits: Items<Lit>,
    // The terms from that coefficient on.
    others: Items<(Lit, u128)>,
}

impl Model for Terms {
    ghost use Rattle.std.specs.Prelude.{List, ℕ, ◌++◌};
    ghost use Rattle.scut_base.specs.Literal.{Literal};
    ghost use Rattle.pb_lin.specs.Constraint.{ones};

    ghost Value = { List (Literal × ℕ) };

    ghost view = { λ t. ones t.lits ++ t.others };
}

impl Terms {
    /// The terms of these literals, with the coefficient 1 each.
    pub(crate) fn of_units(alloc: Global, lits: Items<Lit>) -> Terms
        ensures { result ≡ ones lits }
    {
        Terms {
            lits,
            others: Items::new(alloc),
        }
    }

    /// Puts a term at the end, in constant time on average.
    pub(crate) fn push(&mut self, term: (Lit, u128)) -> Result<(), NoMemory>
        ensures { OnOk result (self.new ≡ self.old ++ term ∷ []) }
    {
        if term.1 == 1 && self.others.is_empty() {
            self.lits.push(term.0)?;
        } else {
            self.others.push(term)?;
        }
        Ok(())
    }

    /// The constraint of these terms and this degree. Takes constant time where all coefficients
    /// are 1, and else three passes and memory for the terms.
    pub(crate) fn into_constraint(self, alloc: Global, degree: u128) -> Result<Constraint, NoMemory>
        requires { IsNormal self degree }
        ensures { IfOk result (λ c. c ≡ record { terms = self; degree = degree }) }
    {
        let Terms { lits, others } = self;
        if others.is_empty() {
            return Ok(Constraint::at_least(lits, degree));
        }
        let terms = joined(alloc, lits.as_slice(), others)?;
        Constraint::from_terms(alloc, terms.as_slice(), degree)
    }
}

// The terms of these literals with the coefficient 1, and after them the others.
fn joined(
    alloc: Global,
    lits: &[Lit],
    others: Items<(Lit, u128)>,
) -> Result<Items<(Lit, u128)>, NoMemory>
    ensures { IfOk result (λ terms. terms ≡ ones lits.now ++ others) }
{
    if lits.is_empty() {
        return Ok(others);
    }
    let mut terms = Items::with_capacity(alloc, lits.len() + others.len())?;
    for lit in lits {
        terms.push((*lit, 1))?;
    }
    terms.extend_from_slice(others.as_slice())?;
    Ok(terms)
}
