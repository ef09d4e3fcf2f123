//! A search for a model of clauses and linear rows that learns from conflicts, and whose answers come with the few
//! derived clauses that they stand on.
//!
//! Its public contract: only that it returns, with `NoMemory` where memory was refused. Nothing of what it answers is
//! believed: whoever uses it judges each model and each derived clause. The same calls in the same order give the same
//! answers: there is no clock in it, and no random source.
//!
//! Sources stand where each technique is; how they go together: Een and Sorensson 2003; Biere and Fleury 2020.
#![tactic(auto)]

mod adding;
mod analysis;
mod antecedents;
mod arena;
mod aside;
mod backtracking;
mod components;
mod elimination;
mod engine;
mod equivalences;
mod heap;
mod limits;
mod literals;
mod minimising;
mod needed;
mod occurrences;
mod phases;
mod propagation;
mod queue;
mod records;
mod reducing;
mod resolvents;
mod restarts;
mod restoring;
mod rounds;
mod rows;
mod searching;
mod trail;
mod watches;
mod work;

pub use engine::{Engine, Outcome};
