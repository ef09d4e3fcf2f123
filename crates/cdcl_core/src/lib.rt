//! A solver by conflict-driven clause learning that writes a proof as it goes.
//!
//! Its public contract: `Solver` is an `Oracle` over any recorder and any propagator. Each learned
//! clause is a line with the hints that replay it, reductions let go of learned clauses at fixed
//! places, and an answer that assumptions can't be true names a live line that says so.
#![tactic(auto)]

mod answering;
mod choosing;
mod cores;
mod deciding;
mod distance;
mod learning;
mod ledger;
mod progress;
mod recording;
mod reducing;
mod schedule;
mod solver;
mod solving;
mod taking;

pub use schedule::{reduce_due, restart_due};
pub use solver::{NoRoom, Solver};
