//! Linear programs with bounds on each column and each row, by the dual simplex method over sparse rows and columns
//! of floats.
//!
//! Its public contract: `LinearProgram::solve` returns within the given number of pivots, and answers lists of
//! the right length. Nothing of their numbers is promised: they are rounded, and whoever uses them judges what
//! he makes of them. The same calls in the same order give the same answers: there is no clock in it, and no
//! random source. The crate knows no constraint and no proof.
//!
//! Sources: triangular factors with changes in middle product form (Huangfu and Hall 2015), dual steepest edge (Forrest and
//! Goldfarb 1992), bound flipping (Maros 2003), ratios within a tolerance (Harris 1973), and how they go together
//! (Koberstein 2005).
#![tactic(auto)]

mod basis;
mod dropping;
mod factors;
mod flipping;
mod limits;
mod lists;
mod matrix;
mod numbers;
mod ordering;
mod passing;
mod pivoting;
mod pricing;
mod program;
mod ratios;
mod rebuilding;
mod refuting;
mod simplex;
mod solving;
mod sparse_numbers;
mod variables;

pub use basis::Basis;
pub use limits::{MOST_ENTRIES, MOST_ROWS};
pub use program::{LinearProgram, Range, Term};
pub use solving::{Answer, Solved};
