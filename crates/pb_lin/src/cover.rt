// Whether one constraint is so strong that another follows from it term by term.
ghost use Rattle.std.specs.Prelude.{◌≡◌, ℕ, ◌+◌, ◌<◌, ◌≤◌, ◌^◌, ◌↔◌, AllPairs, IsTrue, length};
ghost use Rattle.std.specs.List.{slice_index_or};
ghost use Rattle.scut_base.specs.Literal.{Literal};
ghost use Rattle.pb_lin.specs.Constraint.{ConstraintValue, Covers, Implies};
ghost use Rattle.pb_lin.specs.Cover.{coefficient, greatest_excess};
ghost use Rattle.pb_lin.specs.Place.{IsPlace};

use crate::Constraint;
use scut_base::Lit;

impl Constraint {
    /// Whether at every assignment this left side is above the other's by at most what this degree
    /// is above the other's (syntactic implication). Such a constraint implies the other. Costs one
    /// pass over both, whose variables rise.
    pub fn covers(&self, other: &Constraint) -> bool
        ensures { IsTrue result ↔ Covers self.now other.now }
    {
        greatest_excess(self, other) + other.degree() <= self.degree()
    }
}

/// Law: a constraint that covers another implies it.
pub fn covering_implies()
    ensures { (p q : ConstraintValue) → Covers p q → Implies p q }
{}

// The greatest value of the one left side above the other.
fn greatest_excess(left: &Constraint, right: &Constraint) -> u128
    ensures value { result ≡ greatest_excess left.now.terms right.now.terms }
    ensures small { result ≤ 2 ^ 100 }
{
    let mut excess: u128 = 0;
    let mut place = 0;
    for at in 0..left.len() {
        let term = left.term(at);
        place = place_from(right, place, term.0.var());
        excess += term.1.saturating_sub(coefficient_at(right, place, term.0));
    }
    excess
}

// The first place whose variable isn't below the given one, where all before `from` are.
fn place_from(c: &Constraint, from: usize, var: u64) -> usize
    requires within { from ≤ length c.now.terms }
    requires below { (k : ℕ) (d : Literal × ℕ) → k < from
        → (slice_index_or c.now.terms k d).0.var < var }
    ensures { IsPlace (λ t. t.0.var) c.now.terms var result }
{
    let mut place = from;
    while place < c.len() && c.term(place).0.var() < var {
        place += 1;
    }
    place
}

// The coefficient of a literal, or 0, from the first place whose variable isn't below its own.
fn coefficient_at(c: &Constraint, place: usize, literal: Lit) -> u128
    requires { IsPlace (λ t. t.0.var) c.now.terms literal.var place }
    ensures { result ≡ coefficient c.now.terms literal }
{
    if c.len() <= place {
        return 0;
    }
    let term = c.term(place);
    if term.0 == literal { term.1 } else { 0 }
}
