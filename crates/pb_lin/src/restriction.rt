// What is left of a constraint where some literals are true.
ghost use Rattle.std.specs.Prelude.{◌≡◌, ◌≢◌, ◌<◌, ◌≤◌, ◌^◌, ◌↔◌, true, false, not, filter, sum_by, count_by, length, Bool, List, All, AllPairs, IfOk, IsTrue};
ghost use Rattle.std.specs.List.Sorted.{IsPermutation};
ghost use Rattle.scut_base.specs.Literal.{Literal};
ghost use Rattle.scut_base.specs.Assignment.{lit_true};
ghost use Rattle.pb_lin.specs.Constraint.{AreOnes, ConstraintValue, Holds, total};
ghost use Rattle.pb_lin.specs.Restriction.{restriction, is_set, is_among, met_value};
ghost use Rattle.pb_lin.specs.Place.{IsPlace};

use crate::Constraint;
use scut_base::{Items, Lit, NoMemory};
use std::alloc::Global;

impl Constraint {
    /// What is left where these literals, of distinct variables, are true: the terms of the other
    /// variables, and a degree that is lowered by the coefficients that are met, to no less than 0.
    /// Takes the time of a sort of the literals and of a search in them for each term.
    pub fn restricted(&self, alloc: Global, truths: &[Lit]) -> Result<Constraint, NoMemory>
        requires { AllPairs (λ l m. l.var ≢ m.var) truths.now }
        ensures { IfOk result (λ c. c ≡ restriction self.now truths.now) }
    {
        let sorted = sorted_literals(alloc, truths)?;
        if self.is_cardinality() {
            let rest = self.restricted_ones(alloc, &sorted)?;
            return Ok(rest);
        }
        let rest = self.restricted_terms(alloc, &sorted)?;
        Ok(rest)
    }

    // The same where all coefficients are 1, over literals of rising variables.
    fn restricted_ones(&self, alloc: Global, truths: &[Lit]) -> Result<Constraint, NoMemory>
        requires ones { AreOnes self.now.terms }
        requires rising { AllPairs (λ l m. l.var < m.var) truths.now }
        ensures { IfOk result (λ c. c ≡ restriction self.now truths.now) }
    {
        let (kept, met) = literals_left(alloc, self.literals(), truths)?;
        let degree = self.degree().saturating_sub(met as u128);
        Ok(Constraint::at_least(kept, degree))
    }

    // The same of any constraint, over literals of rising variables.
    fn restricted_terms(&self, alloc: Global, truths: &[Lit]) -> Result<Constraint, NoMemory>
        requires { AllPairs (λ l m. l.var < m.var) truths.now }
        ensures { IfOk result (λ c. c ≡ restriction self.now truths.now) }
    {
        let terms = self.to_terms(alloc)?;
        let (kept, met) = terms_left(alloc, terms.as_slice(), truths)?;
        let degree = self.degree().saturating_sub(met);
        let rest = Constraint::from_terms(alloc, kept.as_slice(), degree)?;
        Ok(rest)
    }
}

/// Law: at an assignment under which the given literals are true, what is left holds exactly where
/// the constraint does.
pub fn restriction_holds()
    ensures { (c : ConstraintValue) (truths : List Literal) (a : List Bool)
        → All (λ l. IsTrue (lit_true a l)) truths
        → (Holds a (restriction c truths) ↔ Holds a c) }
{}

// What becomes of a term.
#[derive(Clone, Copy, Debug, PartialEq, Eq)]
enum Fate {
    // Its variable stays open.
    Open,
    // Its literal is true.
    Met,
    // Its literal is false.
    Lost,
}

// These literals in rising order of variables.
fn sorted_literals(alloc: Global, truths: &[Lit]) -> Result<Vec<Lit>, NoMemory>
    requires { AllPairs (λ l m. l.var ≢ m.var) truths.now }
    ensures same { IfOk result (λ v. IsPermutation truths.now v.items) }
    ensures rising { IfOk result (λ v. AllPairs (λ l m. l.var < m.var) v.items) }
{
    let mut sorted = Vec::from_slice(alloc, truths)?;
    sorted.sort_unstable_by_key(|literal| literal.var());
    Ok(sorted)
}

// What becomes of a term of this literal.
fn fate_of(truths: &[Lit], literal: Lit) -> Fate
    requires { AllPairs (λ l m. l.var < m.var) truths.now }
    ensures open { (result ≡ Fate.Open) ↔ (is_set truths.now literal.var ≡ false) }
    ensures met { (result ≡ Fate.Met) ↔ (is_among truths.now literal ≡ true) }
{
    let place = literal_place(truths, literal.var());
    if place == truths.len() || truths[place].var() != literal.var() {
        return Fate::Open;
    }
    if truths[place].is_neg() == literal.is_neg() {
        Fate::Met
    } else {
        Fate::Lost
    }
}

// The first place whose variable isn't below the given one, by binary search.
fn literal_place(literals: &[Lit], var: u64) -> usize
    requires { AllPairs (λ l m. l.var < m.var) literals.now }
    ensures { IsPlace (λ l. l.var) literals.now var result }
{
    literals.partition_point(|literal| literal.var() < var)
}

// The literals that stay, and the number of those that are met.
fn literals_left(
    alloc: Global,
    literals: &[Lit],
    truths: &[Lit],
) -> Result<(Items<Lit>, usize), NoMemory>
    requires { AllPairs (λ l m. l.var < m.var) truths.now }
    ensures kept { IfOk result
        (λ r. r.0 ≡ filter (λ l. not (is_set truths.now l.var)) literals.now) }
    ensures met { IfOk result (λ r. r.1 ≡ count_by (is_among truths.now) literals.now) }
{
    let mut kept = Items::new(alloc);
    let mut met: usize = 0;
    for literal in literals {
        match fate_of(truths, *literal) {
            Fate::Open => kept.push(*literal)?,
            Fate::Met => met += 1,
            Fate::Lost => {}
        }
    }
    Ok((kept, met))
}

// The terms that stay, and the sum of the coefficients that are met.
fn terms_left(
    alloc: Global,
    terms: &[(Lit, u128)],
    truths: &[Lit],
) -> Result<(Items<(Lit, u128)>, u128), NoMemory>
    requires rising { AllPairs (λ l m. l.var < m.var) truths.now }
    requires small { total terms.now ≤ 2 ^ 100 }
    ensures kept { IfOk result
        (λ r. r.0 ≡ filter (λ t. not (is_set truths.now t.0.var)) terms.now) }
    ensures met { IfOk result (λ r. r.1 ≡ sum_by (met_value truths.now) terms.now) }
{
    let mut kept = Items::new(alloc);
    let mut met: u128 = 0;
    for term in terms {
        match fate_of(truths, term.0) {
            Fate::Open => kept.push(*term)?,
            Fate::Met => met += term.1,
            Fate::Lost => {}
        }
    }
    Ok((kept, met))
}
