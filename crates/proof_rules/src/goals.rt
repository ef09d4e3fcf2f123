// What a substitution has to keep, as constraints.
ghost use Rattle.std.specs.Prelude.{◌≡◌, ◌+◌, ◌*◌, ◌≤◌, ◌<◌, ◌^◌, ℕ, List, Bool, if◌then◌else◌, pos, ◌+ℤ◌, ◌-ℤ◌, IfOk, OnOk, sum_by, unsigned_abs};
ghost use Rattle.pb_lin.specs.Constraint.{IsNormal, IsVariable, TermsUpTo, UpTo, term_value, value};
ghost use Rattle.pb_lin.specs.NormalForm.{IsNormalForm, magnitude, sum_value};
ghost use Rattle.pb_lin.specs.Substitution.{true_under, value_under};
ghost use Rattle.proof_laws.specs.Substituted.{IsGoalOf, not_risen, has_fallen};
ghost use Rattle.proof_rules.specs.Verdict.{ImagesUpTo, LiteralsUpTo};

use pb_lin::{Constraint, CostRow, Image, LinFault, PbProblem, Witness};
use scut_base::{Lit, NoMemory};
use std::alloc::Global;

// That the row hasn't risen: its terms minus these under the substitution are at least 0.
pub(crate) fn not_risen(alloc: Global, row: &CostRow, w: &Witness) -> Result<Constraint, NoMemory>
    ensures goal { IfOk result (λ g. (i : ℕ) → IsGoalOf g (not_risen w.now i row.now)) }
    ensures variables { IfOk result (λ g. (n : ℕ)
        → TermsUpTo n row.now.terms → ImagesUpTo n w.now → UpTo n g) }
{
    let mut terms = Vec::new(alloc);
    let met = push_fall(&mut terms, row, w)?;
    normal_form(alloc, &terms, met as i128)
}

// That the sum of all rows has fallen: their terms minus these under the substitution are at least 1.
pub(crate) fn has_fallen(
    alloc: Global,
    problem: &PbProblem,
    w: &Witness,
) -> Result<Constraint, NoMemory>
    ensures goal { IfOk result (λ g. IsGoalOf g (has_fallen w.now problem.now)) }
    ensures variables { IfOk result (λ g. (n : ℕ)
        → problem.now.vars ≤ n → ImagesUpTo n w.now → UpTo n g) }
{
    let _limits = problem.vars();
    let rows = problem.costs();
    let mut terms = Vec::new(alloc);
    let mut met: u128 = 0;
    for row in rows {
        met += push_fall(&mut terms, row, w)?;
    }
    normal_form(alloc, &terms, met as i128 + 1)
}

// Puts the terms of a row there, and those under the substitution with the sign changed; answers the
// coefficients of the literals that the substitution makes true.
fn push_fall(terms: &mut Vec<(i128, Lit)>, row: &CostRow, w: &Witness) -> Result<u128, NoMemory>
    ensures value { IfOk result (λ met. (a : List Bool)
        → sum_value a terms.new.items -ℤ pos met ≡ sum_value a terms.old.items
        +ℤ (pos (value a row.now.terms) -ℤ pos (value_under w.now a row.now.terms))) }
    ensures met { IfOk result (λ met. met < 2 ^ 63) }
    ensures small { OnOk result (sum_by (λ t. unsigned_abs t.0) terms.new.items
        ≤ sum_by (λ t. unsigned_abs t.0) terms.old.items + 2 ^ 64) }
    ensures variables { OnOk result ((n : ℕ) → TermsUpTo n row.now.terms → ImagesUpTo n w.now
        → LiteralsUpTo n terms.old.items → LiteralsUpTo n terms.new.items) }
{
    let given = row.terms();
    let mut met: u128 = 0;
    for term in given {
        met += push_difference(terms, *term, w)?;
    }
    Ok(met)
}

// Puts a term there, and what stands for it with the sign changed; answers its coefficient where the
// substitution makes its literal true. A term without an image changes nothing, and isn't put there.
fn push_difference(
    terms: &mut Vec<(i128, Lit)>,
    term: (Lit, u64),
    w: &Witness,
) -> Result<u128, NoMemory>
    ensures value { IfOk result (λ met. (a : List Bool)
        → sum_value a terms.new.items -ℤ pos met ≡ sum_value a terms.old.items
        +ℤ (pos (term_value a term) -ℤ pos (if true_under w.now a term.0 then term.1 else 0))) }
    ensures met { IfOk result (λ met. met ≤ term.1) }
    ensures small { OnOk result (sum_by (λ t. unsigned_abs t.0) terms.new.items
        ≤ sum_by (λ t. unsigned_abs t.0) terms.old.items + 2 * term.1) }
    ensures variables { OnOk result ((n : ℕ) → IsVariable n term.0.var → ImagesUpTo n w.now
        → LiteralsUpTo n terms.old.items → LiteralsUpTo n terms.new.items) }
{
    if !w.has_image(term.0.var()) {
        return Ok(0);
    }
    let coefficient = term.1 as i128;
    terms.push((coefficient, term.0))?;
    match w.image_of(term.0) {
        Image::Zero => Ok(0),
        Image::One => Ok(term.1 as u128),
        Image::Lit(literal) => {
            terms.push((-coefficient, literal))?;
            Ok(0)
        }
    }
}

// The normal form of terms that are small enough for one.
fn normal_form(alloc: Global, terms: &[(i128, Lit)], degree: i128) -> Result<Constraint, NoMemory>
    requires { magnitude terms.now degree ≤ 2 ^ 99 }
    ensures normal { IfOk result (λ c. IsNormal c.terms c.degree) }
    ensures form { IfOk result (λ c. IsNormalForm c terms.now degree) }
{
    match Constraint::normal(alloc, terms, degree) {
        Ok(c) => {
            let _normal = c.len();
            Ok(c)
        }
        Err(LinFault::Overflow) => unreachable!(),
        Err(LinFault::NoMemory) => Err(NoMemory),
    }
}
