//! Cost vectors, and the minimal ones of all that were inserted.
//!
//! Its public contract: after any list of inserts a `FrontSet` holds the vectors that no inserted
//! vector dominates, each once, each with an assignment that was inserted with it. Here a vector
//! weakly dominates another where each of its numbers is at most the other's. The text of a list of
//! entries is defined here too, beside the vectors. It knows no instance and no senses.
#![tactic(auto)]

mod cost_vec;
mod entry;
mod order;
mod set;

pub use cost_vec::CostVec;
pub use entry::Entry;
pub use order::sort_entries;
pub use set::{FrontSet, Inserted};
