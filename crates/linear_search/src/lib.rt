//! Questions whether literals can be true together, answered by branch and bound: the leaves and inner nodes of a tree that closed
//! are lines, each judged before it is recorded.
//!
//! Its public contract: `LinearSearch::ask` answers some of the assumptions with a live clause by which they
//! can't all be true, as an oracle does; or literals that may be a model; or neither. It adds only constraints that
//! follow from live lines, and a tree's lines only where it closes. What trees, cuts and walks find is believed nowhere.
#![tactic(auto)]

mod asking;
mod closing;
mod limits;
mod model;
mod reply;
mod search;
mod writing;

pub use model::model_of;
pub use reply::Reply;
pub use search::LinearSearch;
