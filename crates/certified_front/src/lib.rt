//! The front of an instance by search, with a proof.
//!
//! Its public contract: what `certified_front` calls complete, by any search that serves the problem, is a list of
//! models with their costs, and a proof that has ended and whose logged vectors they cover; so the list is the front,
//! by the checker's law, and whatever order the search had. The proof's lines are what a plan asks for, then derived
//! and redundant constraints, then those of turns, then the end.
#![tactic(auto)]

mod boosting;
mod certifying;
mod ending;
mod limits;
mod preparing;
mod searching;
mod sharing;
mod term_order;

pub use certifying::certified_front;
pub use ending::{Ending, Found};
pub use preparing::Plan;
