//! Lists and logs, checked: whatever is accepted is the front, whoever made it.
//!
//! Its public contract: `check_list` and a `Checker`, fed the log piece by piece, accept exactly where
//! the list is that of models with their costs, and the log a proof that misses no compromise; else
//! they name the first entry or line that is wrong, and why. The law `accepted_is_front` says that an
//! accepted list is the front; it speaks of no code, and no search. Further laws say that there is one
//! first fault at most, and none in what is accepted.
#![tactic(auto)]

mod checker;
mod dominance;
mod fault;
mod judging;
mod laws;
mod list;

pub use checker::Checker;
pub use dominance::weakly_dominates;
pub use fault::{CheckFault, ListWhy};
pub use judging::judge_line;
pub use laws::{
    accepted_is_front, no_list_fault_where_right, no_log_fault_where_ended,
    no_refusal_where_accepted, one_list_fault, one_log_fault,
};
pub use list::{check_list, problem_vectors};
