// Constraints under substitutions.
ghost use Rattle.std.specs.Prelude.{◌≡◌, ℕ, ◌+◌, ◌*◌, ◌<◌, ◌≤◌, ◌^◌, ◌↔◌, Bool, List, All, IfOk, IsErrOf};
ghost use Rattle.scut_base.specs.Assignment.{value_of};
ghost use Rattle.pb_lin.specs.Constraint.{ConstraintValue, IsNormal, IsVariable, Holds, UpTo, size, total, value};
ghost use Rattle.pb_lin.specs.Substitution.{Images, ImageUpTo, IsUnder, value_under, variable_under};

use crate::normal::{LARGEST, normal_form_of_positive};
use crate::{Constraint, Image, LinFault, Witness};
use scut_base::{Lit, NoMemory};
use std::alloc::Global;

impl Constraint {
    /// The normal form of the constraint with each variable replaced by what stands for it. Takes
    /// the time of a sort of the terms and of a search in the images for each.
    /// `Overflow` where twice the sum of the coefficients and the degree is above 2^100, also where
    /// nothing is replaced; `NoMemory` where memory is refused.
    pub fn under(&self, alloc: Global, w: &Witness) -> Result<Constraint, LinFault>
        ensures under { IfOk result (λ c. IsUnder c w.now self.now) }
        ensures overflow { IsErrOf result LinFault.Overflow ↔ (2 ^ 100 < 2 * size self.now) }
    {
        if self.size() > LARGEST {
            return Err(LinFault::Overflow);
        }
        let terms = self.to_terms(alloc)?;
        let (terms, met) = replaced(alloc, terms.as_slice(), w)?;
        let least = self.degree() as i128 - met as i128;
        let constraint = normal_form_of_positive(alloc, terms, least)?;
        Ok(constraint)
    }
}

/// Law: the constraint under a substitution holds exactly where the constraint does under the
/// substituted assignment, which gives each of its variables the truth of what stands for it.
pub fn substitution_holds()
    ensures { (result c : ConstraintValue) (images : Images) → IsUnder result images c
        → (a b : List Bool)
        → All (λ t. value_of b t.0.var ≡ variable_under images a t.0.var) c.terms
        → (Holds a result ↔ Holds b c) }
{}

/// Law: a constraint under a substitution has no variable that the constraint and the literals that
/// stand for its variables lack.
pub fn substitution_variables()
    ensures { (result c : ConstraintValue) (images : Images) (n : ℕ)
        → IsNormal result.terms result.degree → IsUnder result images c
        → All (λ t. IsVariable n t.0.var) c.terms → All (λ i. ImageUpTo n i.1) images
        → UpTo n result }
{}

// The terms with their literals replaced, and the sum of the coefficients of those that are true.
fn replaced(
    alloc: Global,
    terms: &[(Lit, u128)],
    w: &Witness,
) -> Result<(Vec<(Lit, u128)>, u128), NoMemory>
    requires positive { All (λ t. 0 < t.1) terms.now }
    requires small { total terms.now ≤ 2 ^ 100 }
    ensures value { IfOk result
        (λ r. (a : List Bool) → value a r.0.items + r.1 ≡ value_under w.now a terms.now) }
    ensures total { IfOk result (λ r. total r.0.items + r.1 ≤ total terms.now) }
    ensures positive { IfOk result (λ r. All (λ t. 0 < t.1) r.0.items) }
{
    let mut replaced = Vec::new(alloc);
    let mut met: u128 = 0;
    for term in terms {
        match w.image_of(term.0) {
            Image::Zero => {}
            Image::One => met += term.1,
            Image::Lit(literal) => replaced.push((literal, term.1))?,
        }
    }
    Ok((replaced, met))
}
