//! Searches that take turns on one board.
//!
//! Its public contract: a `Cycle` of two or three searches that are lent to it is a `Search` itself; each of its turns is
//! one of the search that its list of turns names, in the list's order, and leaves the others as they were. `run_turns`
//! goes on until a search proves that nothing is left.
#![tactic(auto)]

mod cycle;
mod running;

pub use cycle::Cycle;
pub use running::run_turns;
