// What is kept of a literal that stands for a sum.
use scut_base::Lit;

/// A literal that stands for "the sum of a node's terms is at least `sum`".
#[derive(Clone, Copy, Debug)]
pub struct SumOutput {
    /// One of the sums that some of the weights have.
    pub sum: u64,
    /// No such sum is from this number on and below `sum`.
    pub from: u64,
    /// What stands for the sum: of a node of one term its own literal, else a new variable.
    pub lit: Lit,
    /// The id of the line "where the literal is true, the sum is reached"; 0 where the node has one term.
    pub lower: u64,
    /// The id of the line "where the literal is false, the sum isn't reached"; 0 where the node has one term.
    pub upper: u64,
}
