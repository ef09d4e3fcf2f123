// Tokens of a derivation.
use scut_base::{Duplicate, Lit, NoMemory};
use std::alloc::Global;

/// What is done to a stack of constraints.
#[derive(Clone, Copy, Debug, PartialEq, Eq)]
pub enum PolToken {
    /// Pushes the line of this id.
    Id(u64),
    /// Pushes that the literal is at least 0.
    Axiom(Lit),
    /// Pushes the first given constraint, the negation of what is to be proved.
    Negated,
    /// Pushes the second given constraint.
    Denied,
    /// Puts the sum of the two topmost in their place.
    Add,
    /// Multiplies the topmost.
    Mul(i128),
    /// Divides the topmost, rounding each number up.
    Div(i128),
    /// Cuts each coefficient of the topmost to its degree.
    Saturate,
    /// Drops the term of this variable from the topmost, and lowers its degree by the coefficient.
    Weaken(u64),
}

impl Duplicate for PolToken {
    fn copy(&self, _alloc: Global) -> Result<PolToken, NoMemory> {
        Ok(*self)
    }
}
