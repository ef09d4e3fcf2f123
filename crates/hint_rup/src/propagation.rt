// Propagation of one line.
ghost use Rattle.std.specs.Prelude.{◌≡◌, ◌≤◌, ◌↔◌, ◌&&◌, pos, ◌<ℤ◌, int_lt, true, false, length, All, IsTrue};
ghost use Rattle.std.specs.Option.{is_none};
ghost use Rattle.scut_base.specs.Assignment.{partial_truth};
ghost use Rattle.pb_lin.specs.Constraint.{AreOnes, UpTo, slack};
ghost use Rattle.hint_rup.specs.ClauseFate.{IsFate};
ghost use Rattle.hint_rup.specs.Propagation.{forced};

use pb_lin::Constraint;
use scut_base::{Lit, Partial};

// What becomes of a clause under a partial assignment.
#[derive(Clone, Copy)]
enum Fate {
    // All its literals are false.
    Falsified,
    // This literal is open, and all others are false.
    Unit(Lit),
    // It forces nothing.
    Quiet,
}

// Whether the line is in conflict, which is a negative slack; where it isn't, makes every open literal
// true whose coefficient exceeds the slack. Costs one pass over a clause and two over other lines; where all
// coefficients are 1 these only count, and the second is left out where the slack is above 0.
pub(crate) fn propagate(scratch: &mut Partial, line: &Constraint) -> bool
    requires { UpTo (length scratch.old) line.now }
    ensures conflict { IsTrue result ↔ slack scratch.old line.now <ℤ pos 0 }
    ensures forced { result ≡ false → scratch.new ≡ forced scratch.old line.now }
    ensures length { length scratch.new ≡ length scratch.old }
{
    if line.is_clause() {
        return propagate_clause(scratch, line);
    }
    propagate_sum(scratch, line)
}

// The same, by the slack, whatever the line is. A function by itself, so that few registers are saved for a clause.
pub(crate) fn propagate_sum(scratch: &mut Partial, line: &Constraint) -> bool
    requires { UpTo (length scratch.old) line.now }
    ensures conflict { IsTrue result ↔ slack scratch.old line.now <ℤ pos 0 }
    ensures forced { result ≡ false → scratch.new ≡ forced scratch.old line.now }
    ensures length { length scratch.new ≡ length scratch.old }
{
    let slack = line.slack(scratch);
    if slack < 0 {
        return true;
    }
    force(scratch, line, slack as u128);
    false
}

// The same of a clause.
fn propagate_clause(scratch: &mut Partial, line: &Constraint) -> bool
    requires within { UpTo (length scratch.old) line.now }
    requires ones { AreOnes line.now.terms }
    requires degree { line.now.degree ≡ 1 }
    ensures conflict { IsTrue result ↔ slack scratch.old line.now <ℤ pos 0 }
    ensures forced { result ≡ false → scratch.new ≡ forced scratch.old line.now }
    ensures length { length scratch.new ≡ length scratch.old }
{
    match clause_fate(scratch, line.literals()) {
        Fate::Falsified => true,
        Fate::Unit(lit) => {
            scratch.set(lit);
            false
        }
        Fate::Quiet => false,
    }
}

// What becomes of a clause of these literals. Ends at the first true literal, and at the second open one.
fn clause_fate(scratch: &Partial, lits: &[Lit]) -> Fate
    requires { All (λ l. l.var ≤ length scratch.now) lits.now }
    ensures { IsFate scratch.now lits.now result }
{
    let mut unit = None;
    for lit in lits {
        match scratch.get(*lit) {
            Some(true) => return Fate::Quiet,
            Some(false) => {}
            None => {
                if unit.is_some() {
                    return Fate::Quiet;
                }
                unit = Some(*lit);
            }
        }
    }
    match unit {
        Some(lit) => Fate::Unit(lit),
        None => Fate::Falsified,
    }
}

// Makes every open literal true whose coefficient exceeds the slack.
fn force(scratch: &mut Partial, line: &Constraint, line_slack: u128)
    requires within { UpTo (length scratch.old) line.now }
    requires slack { slack scratch.old line.now ≡ pos line_slack }
    ensures forced { scratch.new ≡ forced scratch.old line.now }
    ensures length { length scratch.new ≡ length scratch.old }
{
    if !line.is_cardinality() {
        force_terms(scratch, line, line_slack);
        return;
    }
    if line_slack > 0 {
        return;
    }
    force_literals(scratch, line);
}

// The same, by the coefficients. The line's variables are distinct, so making one of these literals true
// closes no other.
fn force_terms(scratch: &mut Partial, line: &Constraint, line_slack: u128)
    requires within { UpTo (length scratch.old) line.now }
    requires slack { slack scratch.old line.now ≡ pos line_slack }
    ensures forced { scratch.new ≡ forced scratch.old line.now }
    ensures length { length scratch.new ≡ length scratch.old }
{
    for at in 0..line.len() {
        let term = line.term(at);
        if is_forced(scratch, &term, line_slack) {
            scratch.set(term.0);
        }
    }
}

// The same where all coefficients are 1 and the slack is 0: every open literal is made true.
fn force_literals(scratch: &mut Partial, line: &Constraint)
    requires within { UpTo (length scratch.old) line.now }
    requires ones { AreOnes line.now.terms }
    requires slack { slack scratch.old line.now ≡ pos 0 }
    ensures forced { scratch.new ≡ forced scratch.old line.now }
    ensures length { length scratch.new ≡ length scratch.old }
{
    for lit in line.literals() {
        if is_open(scratch, *lit) {
            scratch.set(*lit);
        }
    }
}

// Whether the literal is open, with a coefficient above the slack.
fn is_forced(scratch: &Partial, term: &(Lit, u128), line_slack: u128) -> bool
    requires { term.now.0.var ≤ length scratch.now }
    ensures value { result ≡ (is_none (partial_truth scratch.now term.now.0)
        && int_lt (pos line_slack) (pos term.now.1)) }
    ensures open { IsTrue result → is_none (partial_truth scratch.now term.now.0) ≡ true }
{
    is_open(scratch, term.0) && line_slack < term.1
}

fn is_open(scratch: &Partial, lit: Lit) -> bool
    requires { lit.var ≤ length scratch.now }
    ensures { result ≡ is_none (partial_truth scratch.now lit) }
{
    scratch.get(lit).is_none()
}
