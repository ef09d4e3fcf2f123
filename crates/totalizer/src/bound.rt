// What stands for "the sum is at least k".
use scut_base::Lit;

/// What stands for "the sum is at least k".
#[derive(Clone, Copy, Debug, PartialEq, Eq)]
pub enum Bound {
    /// It is so at every assignment, as the line of this id says; 0 stands for `0 >= 0`.
    Always { lower_line: u64 },
    /// It is so at none.
    Never,
    /// It is so only where the literal is true, by the line of this id, and wherever it is so the rows and
    /// kept clauses make the literal true.
    At { lit: Lit, lower_line: u64 },
}
