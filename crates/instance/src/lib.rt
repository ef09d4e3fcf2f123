//! Instances: hard clauses and linear rows over 0-1 variables, and objectives that are minimised or
//! maximised.
//!
//! Its public contract: `is_model` and `costs` are the definitions of a model and of its costs, and
//! `listed` gives a set of pairs as a list shows them. The definition of the front stands here too,
//! and the law that a front is empty exactly where the instance has no model. The limits, and what a
//! reader of instance files answers where it refuses one, are shared by all readers. The crate reads no
//! file and searches nothing.
#![tactic(auto)]

mod clauses;
mod evaluate;
mod fault;
mod front;
mod instance;
mod listing;
mod objective;
mod row;
mod sense;

pub use clauses::Clauses;
pub use fault::{
    BadKind, InstanceLimit, MAX_MAGNITUDE, MAX_OBJECTIVES, MAX_VARS, PlaceFault, ReadFault,
};
pub use front::empty_front;
pub use instance::Instance;
pub use listing::listed;
pub use objective::{Objective, Sense, Soft};
pub use row::{Linear, Rel};
