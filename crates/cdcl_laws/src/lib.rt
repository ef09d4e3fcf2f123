//! What the lines of a search do to a proof, and to the lines that the search stores.
//!
//! Its public contract is its laws, with nothing to run: hints make a learned or an implied clause legal; search lines
//! that follow search lines are such lines; a clause that is unit where nothing else is left to force earns its line; the
//! state that lines reach fits the problem; which lines are stored after each line; and an assignment under which all
//! stored lines hold is an answer.
#![tactic(auto)]

mod adding;
mod earning;
mod storing;

pub use adding::{hints_make_legal, search_lines_join};
pub use earning::{
    first_line_is_no_reduction, learned_is_counted, learned_line_is_earned, reduction_is_earned,
    stored_unit_is_new,
};
pub use storing::{
    deleting_line_keeps_stored, learned_line_is_stored, line_is_passed, line_is_taken,
    nothing_is_stored, plain_line_keeps_stored, reached_state_fits, stored_lines_are_normal,
    stored_model_is_solution,
};
