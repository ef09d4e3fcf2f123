// What one line does to a trail.
ghost use Rattle.std.specs.Prelude.{◌≡◌, ◌≤◌, ◌<ℤ◌, ◌&&◌, ◌^◌, ◌↔◌, IsTrue, Some, None, false, true, pos, int_lt, All, length, sum_by};
ghost use Rattle.std.specs.Option.{is_none};
ghost use Rattle.std.specs.FinMap.{get};
ghost use Rattle.scut_base.specs.Assignment.{partial_truth};
ghost use Rattle.pb_lin.specs.Constraint.{AreOnes, UpTo, possible_value, slack, unless_false};
ghost use Rattle.pb_lin.specs.LineMap.{LineMap};
ghost use Rattle.pb_lin.specs.Propagation.{IsClosedUnder};
ghost use Rattle.clause_prop.specs.Steps.{last_level, partial, with_step};
ghost use Rattle.clause_prop.specs.Propagating.{Extends};

use crate::{Step, StoredLine, Trail};
use scut_base::Lit;

// The coefficients of the literals that aren't false, minus the degree. Costs one pass over the line; where
// all coefficients are 1 it only counts literals.
pub(crate) fn slack_under(line: &StoredLine, trail: &Trail) -> i128
    requires { UpTo trail.now.vars line.now }
    ensures { result ≡ slack (partial trail.now) line.now }
{
    possible(line, trail) as i128 - line.degree() as i128
}

// Whether the line is violated, which is a negative slack, and then the trail stays; where it isn't, makes
// every open literal true whose coefficient exceeds the slack. The line is their reason, and forces nothing
// more afterwards. Costs two passes over the line; where all coefficients are 1 the second is left out if
// the slack is above 0.
pub(crate) fn visit(line: &StoredLine, id: u64, trail: &mut Trail) -> bool
    requires { UpTo trail.old.vars line.now }
    ensures violated { IsTrue result ↔ slack (partial trail.old) line.now <ℤ pos 0 }
    ensures stays { IsTrue result → trail.new ≡ trail.old }
    ensures closed { result ≡ false → IsClosedUnder (partial trail.new) line.now }
    ensures extends { (store : LineMap) → get store id ≡ Some line.now
        → Extends store trail.old trail.new }
{
    let slack = slack_under(line, trail);
    if slack < 0 {
        return true;
    }
    force(line, slack as u128, id, trail);
    false
}

// Makes every open literal true whose coefficient exceeds the slack. A literal that is made true was counted
// in the slack as an open one, so the slack stays, and one serves for the whole line.
fn force(line: &StoredLine, line_slack: u128, id: u64, trail: &mut Trail)
    requires within { UpTo trail.old.vars line.now }
    requires slack { slack (partial trail.old) line.now ≡ pos line_slack }
    ensures closed { IsClosedUnder (partial trail.new) line.now }
    ensures extends { (store : LineMap) → get store id ≡ Some line.now
        → Extends store trail.old trail.new }
{
    if !line.is_cardinality() {
        force_terms(line, line_slack, id, trail);
        return;
    }
    // A coefficient of 1 exceeds only the slack 0.
    if line_slack > 0 {
        return;
    }
    force_literals(line, id, trail);
}

// The same, by the coefficients.
fn force_terms(line: &StoredLine, line_slack: u128, id: u64, trail: &mut Trail)
    requires within { UpTo trail.old.vars line.now }
    requires slack { slack (partial trail.old) line.now ≡ pos line_slack }
    ensures closed { IsClosedUnder (partial trail.new) line.now }
    ensures extends { (store : LineMap) → get store id ≡ Some line.now
        → Extends store trail.old trail.new }
{
    for at in 0..line.len() {
        let term = line.term(at);
        if is_forced(&term, line_slack, trail) {
            push_forced(term.0, id, trail);
        }
    }
}

// The same where all coefficients are 1 and the slack is 0: every open literal is made true.
fn force_literals(line: &StoredLine, id: u64, trail: &mut Trail)
    requires within { UpTo trail.old.vars line.now }
    requires ones { AreOnes line.now.terms }
    requires slack { slack (partial trail.old) line.now ≡ pos 0 }
    ensures closed { IsClosedUnder (partial trail.new) line.now }
    ensures extends { (store : LineMap) → get store id ≡ Some line.now
        → Extends store trail.old trail.new }
{
    for lit in line.literals() {
        if is_open(*lit, trail) {
            push_forced(*lit, id, trail);
        }
    }
}

/// Makes an open literal true that the line of this id forces, at the level of the step before it. Takes no
/// memory, and constant time.
pub fn push_forced(lit: Lit, id: u64, trail: &mut Trail)
    requires within { lit.var ≤ trail.old.vars }
    requires open { partial_truth (partial trail.old) lit ≡ None }
    ensures { trail.new ≡ with_step trail.old
        (record { lit = lit; level = last_level trail.old.steps; reason = id }) }
{
    let level = trail.level();
    trail.push(Step {
        lit,
        level,
        reason: id,
    });
}

/// Whether the literal is open, with a coefficient above the slack. Takes no memory, and constant time.
pub fn is_forced(term: &(Lit, u128), line_slack: u128, trail: &Trail) -> bool
    requires { term.now.0.var ≤ trail.now.vars }
    ensures value { result ≡ (is_none (partial_truth (partial trail.now) term.now.0)
        && int_lt (pos line_slack) (pos term.now.1)) }
    ensures open { IsTrue result → partial_truth (partial trail.now) term.now.0 ≡ None }
{
    line_slack < term.1 && is_open(term.0, trail)
}

fn is_open(lit: Lit, trail: &Trail) -> bool
    requires { lit.var ≤ trail.now.vars }
    ensures value { result ≡ is_none (partial_truth (partial trail.now) lit) }
    ensures open { IsTrue result → partial_truth (partial trail.now) lit ≡ None }
{
    trail.value(lit).is_none()
}

/// The sum of the coefficients of the literals that aren't false. Takes no memory, and constant time a literal.
pub fn possible(line: &StoredLine, trail: &Trail) -> u128
    requires { UpTo trail.now.vars line.now }
    ensures value { result ≡ sum_by (possible_value (partial trail.now)) line.now.terms }
    ensures small { result ≤ 2 ^ 100 }
{
    if line.is_cardinality() {
        return possible_count(line.literals(), trail) as u128;
    }
    let mut sum = 0;
    for at in 0..line.len() {
        sum += possible_value(line.term(at), trail);
    }
    sum
}

// The number of the literals that aren't false.
fn possible_count(lits: &[Lit], trail: &Trail) -> usize
    requires { All (λ l. l.var ≤ trail.now.vars) lits.now }
    ensures value { result
        ≡ sum_by (λ l. unless_false (partial_truth (partial trail.now) l) 1) lits.now }
    ensures short { result ≤ length lits.now }
{
    let mut count = 0;
    for lit in lits {
        if trail.value(*lit) != Some(false) {
            count += 1;
        }
    }
    count
}

// The coefficient where the literal is true or open, and else 0.
fn possible_value(term: (Lit, u128), trail: &Trail) -> u128
    requires { term.0.var ≤ trail.now.vars }
    ensures value { result ≡ possible_value (partial trail.now) term }
    ensures bound { result ≤ term.1 }
{
    match trail.value(term.0) {
        Some(false) => 0,
        _ => term.1,
    }
}
