// Constraints under assignments.
ghost use Rattle.std.specs.Prelude.{◌≡◌, ◌≤◌, ◌^◌, ◌↔◌, length, sum_by, count_by, All, IsTrue};
ghost use Rattle.scut_base.specs.Assignment.{lit_true, partial_truth};
ghost use Rattle.pb_lin.specs.Constraint.{UpTo, Holds, total, term_value, value, possible_value, slack, unless_false};

use crate::Constraint;
use scut_base::{Assignment, Lit, Partial};

impl Constraint {
    /// The coefficients of the literals that aren't false, minus the degree: what the sum can lose
    /// before the constraint is false. Costs one pass over the terms; where all coefficients are 1
    /// it only counts literals.
    pub fn slack(&self, part: &Partial) -> i128
        requires { UpTo (length part.now) self.now }
        ensures { result ≡ slack part.now self.now }
    {
        self.possible(part) as i128 - self.degree() as i128
    }

    /// Whether the constraint is true. Costs one pass over the terms; where all coefficients are 1
    /// it only counts literals.
    pub fn holds(&self, a: &Assignment) -> bool
        requires { UpTo (length a.now) self.now }
        ensures { IsTrue result ↔ Holds a.now self.now }
    {
        self.degree() <= self.value(a)
    }

    // The sum of the coefficients of the literals that aren't false.
    fn possible(&self, part: &Partial) -> u128
        requires { UpTo (length part.now) self.now }
        ensures value { result ≡ sum_by (possible_value part.now) self.now.terms }
        ensures small { result ≤ 2 ^ 100 }
    {
        if self.is_cardinality() {
            return possible_count(self.literals(), part) as u128;
        }
        let mut sum = 0;
        for at in 0..self.len() {
            sum += possible_value(self.term(at), part);
        }
        sum
    }

    // The sum of the coefficients of the true literals.
    fn value(&self, a: &Assignment) -> u128
        requires { UpTo (length a.now) self.now }
        ensures { result ≡ value a.now self.now.terms }
    {
        if self.is_cardinality() {
            return true_count(self.literals(), a) as u128;
        }
        let mut sum = 0;
        for at in 0..self.len() {
            sum += term_value(self.term(at), a);
        }
        sum
    }
}

// The number of the literals that aren't false.
fn possible_count(lits: &[Lit], part: &Partial) -> usize
    requires { All (λ l. l.var ≤ length part.now) lits.now }
    ensures value { result ≡ sum_by (λ l. unless_false (partial_truth part.now l) 1) lits.now }
    ensures short { result ≤ length lits.now }
{
    let mut count = 0;
    for lit in lits {
        if part.get(*lit) != Some(false) {
            count += 1;
        }
    }
    count
}

// The coefficient where the literal is true or open, and else 0.
fn possible_value(term: (Lit, u128), part: &Partial) -> u128
    requires { term.0.var ≤ length part.now }
    ensures value { result ≡ possible_value part.now term }
    ensures bound { result ≤ term.1 }
{
    match part.get(term.0) {
        Some(false) => 0,
        _ => term.1,
    }
}

// The number of the true literals.
fn true_count(lits: &[Lit], a: &Assignment) -> usize
    requires { All (λ l. l.var ≤ length a.now) lits.now }
    ensures { result ≡ count_by (lit_true a.now) lits.now }
{
    let mut count = 0;
    for lit in lits {
        if a.value(*lit) {
            count += 1;
        }
    }
    count
}

// The coefficient where the literal is true, and else 0.
fn term_value(term: (Lit, u128), a: &Assignment) -> u128
    requires { term.0.var ≤ length a.now }
    ensures value { result ≡ term_value a.now term }
    ensures bound { result ≤ term.1 }
{
    if a.value(term.0) { term.1 } else { 0 }
}
