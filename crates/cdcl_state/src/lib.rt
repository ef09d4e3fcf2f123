//! The state of a search, and what it learns: stored lines, a trail, a propagator and an order of variables, in step with
//! each other.
//!
//! Its public contract: each move of `Search` changes the lines and the trail as it says, and leaves the trail one of a
//! search; from a conflict it answers the clause that forces a literal after a jump back, the decisions that are to blame for
//! a false literal, or the refutation. Contracts see the lines and the trail. No proof is kept here, and the crate doesn't say
//! when which move is made.
//!
//! Begin with `search`, which has the moves. The walk back from a conflict is in `walk`, over the marks of `marks`, and
//! `minimising` drops what other literals imply; which variable is decided next, by their activity, is in `order`.
#![tactic(auto)]

mod heap;
mod implied;
mod lesson;
mod marks;
mod minimising;
mod order;
mod outcome;
mod places;
mod reach;
mod search;
mod steps;
mod waiting;
mod waiting_laws;
mod walk;

pub use lesson::{Blame, Lesson};
pub use search::Search;
pub use waiting_laws::{
    cut_keeps_waiting, decision_keeps_waiting, growth_keeps_waiting, longer_trail_keeps_waiting,
};
