//! Representatives: several models for each vector of a list, so that who plans can choose among them.
//!
//! Its public contract: `bounded_problem` gives the problem whose models are those that serve a vector and aren't listed, and
//! `check_reps` judges the models of an entry, up to its log. Laws say that a model of the bounded problem is one more that serves the
//! vector, that an ended proof over it which logs nothing leaves none, and that at a vector of the front each has exactly its costs.
//! No search is here, and no file.
#![tactic(auto)]

mod bounded;
mod checking;
mod fault;
mod laws;

pub use bounded::bounded_problem;
pub use checking::check_reps;
pub use fault::{RepsFault, RepsWhy};
pub use laws::{
    bounded_model_serves, ended_log_lists_all, no_fault_where_serving, one_bounded_problem,
    one_reps_fault, serving_front_costs,
};
