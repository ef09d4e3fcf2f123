//! What holds of a trail throughout a search, and why a search returns.
//!
//! Its public contract is its laws: decisions, propagation, jumps back, learned clauses and cuts leave a trail one of a
//! search, in which lines force all steps but decisions, and nothing was left to propagate before a decision; and
//! each step raises a trail's rank, as does a jump back with a learned clause, and ranks have a limit. The crate
//! chooses nothing and learns nothing.
#![tactic(auto)]

mod jump;
mod laws;
mod rank;

pub use jump::steps_up_to;
pub use laws::{
    added_line_keeps_search, closed_full_trail_is_a_model, cut_keeps_search, decision_keeps_search,
    dropped_line_keeps_search, empty_trail_is_search, jump_closes, learning_keeps_search,
    more_variables_keep_search, propagation_keeps_search,
};
pub use rank::{learning_raises_rank, rest_falls, steps_raise_rank};
