//! What an oracle is: a recorder that is asked whether some literals can be true together.
//!
//! Its public contract is the trait `Oracle`: an answer is an assignment that satisfies the rows, every live
//! clause and the assumptions, or some of the assumptions with a live line by which they can't all be true;
//! what a call adds to the proof are learned clauses, each earned, reductions of these, and at most one
//! implied clause. `solve_limited` is the same with fewer clauses that may be learned, and `core_of` says what a clause
//! tells of assumptions. No search is here.
#![tactic(auto)]

mod answer;
mod cores;
mod fault;
mod solving;

pub use answer::{Answer, Core};
pub use cores::core_of;
pub use fault::OracleFault;
pub use solving::Oracle;
