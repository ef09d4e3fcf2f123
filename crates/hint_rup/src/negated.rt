// The negation of what is to be shown, and its propagation.
ghost use Rattle.std.specs.Prelude.{◌≡◌, ◌<◌, ◌≤◌, ◌↔◌, None, pos, length, replicate, All, IsTrue};
ghost use Rattle.pb_lin.specs.Constraint.{AreOnes, UpTo, negation, slack};
ghost use Rattle.hint_rup.specs.Negation.{IsNegation, negation_in, true_count};
ghost use Rattle.hint_rup.specs.Propagation.{Propagates, forced};

use crate::propagation::propagate_sum;
use pb_lin::Constraint;
use scut_base::{Lit, Partial};

/// The negation of what is to be shown. That of a clause needn't be made: it makes each of its literals false.
#[derive(Clone, Copy, Debug)]
pub enum Negated<'a> {
    /// This constraint.
    Made(&'a Constraint),
    /// The negation of this clause.
    OfClause(&'a Constraint),
}

// What `propagate` does of the negation where every variable is open. Costs one pass over a clause.
pub(crate) fn propagate_first(scratch: &mut Partial, negated: Negated<'_>) -> bool
    requires negation { IsNegation negated }
    requires within { UpTo (length scratch.old) (negation_in negated) }
    requires cleared { scratch.old ≡ replicate (length scratch.old) None }
    ensures propagates { Propagates scratch.old scratch.new (negation_in negated.entry) result }
    ensures length { length scratch.new ≡ length scratch.old }
{
    match negated {
        Negated::Made(line) => propagate_sum(scratch, line),
        Negated::OfClause(clause) => {
            deny(scratch, clause);
            false
        }
    }
}

// What `propagate` does of the negation. Costs two passes over a clause.
pub(crate) fn propagate_negated(scratch: &mut Partial, negated: Negated<'_>) -> bool
    requires negation { IsNegation negated }
    requires within { UpTo (length scratch.old) (negation_in negated) }
    ensures propagates { Propagates scratch.old scratch.new (negation_in negated.entry) result }
    ensures length { length scratch.new ≡ length scratch.old }
{
    match negated {
        Negated::Made(line) => propagate_sum(scratch, line),
        Negated::OfClause(clause) => {
            if has_true(scratch, clause.literals()) {
                return true;
            }
            deny(scratch, clause);
            false
        }
    }
}

// Whether some literal is true.
fn has_true(scratch: &Partial, lits: &[Lit]) -> bool
    requires { All (λ l. l.var ≤ length scratch.now) lits.now }
    ensures { IsTrue result ↔ 0 < true_count scratch.now lits.now }
{
    for lit in lits {
        if scratch.get(*lit) == Some(true) {
            return true;
        }
    }
    false
}

// Makes each literal of a clause false that is open, where none is true.
fn deny(scratch: &mut Partial, clause: &Constraint)
    requires within { UpTo (length scratch.old) clause.now }
    requires ones { AreOnes clause.now.terms }
    requires slack { slack scratch.old (negation clause.now) ≡ pos 0 }
    ensures forced { scratch.new ≡ forced scratch.old (negation clause.now) }
    ensures length { length scratch.new ≡ length scratch.old }
{
    for lit in clause.literals() {
        if scratch.get(*lit).is_none() {
            scratch.set(lit.not());
        }
    }
}
