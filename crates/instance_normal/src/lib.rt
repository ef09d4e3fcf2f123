//! The normal form of an instance: constraints in normal form, and sums to be minimised.
//!
//! Its public contract: `normalise` gives the problem that is the instance's normal form. Each model of
//! the instance extends to a model of it with equal costs; each model of it, cut to the instance's
//! variables, is a model of the instance that costs no more; and an instance has one normal form. These
//! are laws about the definition alone. `tighten` gives, for a model of the problem, the one that costs
//! what its model of the instance costs.
//! The crate searches nothing and writes no proof.
#![tactic(auto)]

mod clause;
mod cost;
mod draft;
mod laws;
mod normal;
mod objective;
mod rows;
mod soft;
mod tight;

pub use laws::{models_extend, models_restrict, normal_form_is_problem, one_normal_form};
pub use normal::normalise;
pub use tight::tighten;
