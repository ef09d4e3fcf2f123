//! Representatives by search: up to some number of models that serve a vector, and a log where these are all.
//!
//! Its public contract: what `gather` answers are different models that serve the vector: as many as were asked for, or fewer and then
//! all; the log that it leaves shows the latter. It begins the log anew for each model.
#![tactic(auto)]

mod ending;
mod gathering;
mod relaxing;
mod seeking;

pub use gathering::gather;
