// Sizes of constraints.
ghost use Rattle.std.specs.Prelude.{◌≡◌};
ghost use Rattle.pb_lin.specs.Constraint.{IsNormal, size, total};

use crate::Constraint;

/// The largest size of a constraint, 2^100. Twice a size, and a slack with its sign, stay within 128
/// bits, so that no sum of coefficients is tested on the way.
pub const SIZE_LIMIT: u128 = 1 << 100;

impl Constraint {
    /// The sum of the coefficients. Costs one pass over them, and constant time where all are 1.
    pub fn total(&self) -> u128
        ensures value { result ≡ total self.now.terms }
        ensures normal { IsNormal self.now.terms self.now.degree }
    {
        if self.is_cardinality() {
            return self.len() as u128;
        }
        let mut total = 0;
        for at in 0..self.len() {
            total += self.term(at).1;
        }
        total
    }

    /// The coefficients and the degree, summed: at most 2^100. Costs as much as `total`.
    pub fn size(&self) -> u128
        ensures value { result ≡ size self.now }
        ensures normal { IsNormal self.now.terms self.now.degree }
    {
        self.total() + self.degree()
    }
}
