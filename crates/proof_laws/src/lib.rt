//! The rule book: what a line of a proof is, when it is legal in a state, and why no legal line loses a
//! compromise.
//!
//! Its public contract is its laws, with nothing to run: for each line and state either one reason
//! refuses the line or there is one next state, so lines lead to one state at most; each next state still
//! covers every model of the problem; and nothing satisfies a state that has ended. Nothing here says how
//! a line is judged by a program.
#![tactic(auto)]

mod covering;
mod earning;
mod goal;
mod judging;
mod line;
mod replaying;
mod why;

pub use covering::{ended_is_empty, next_covers, next_fits, replay_covers, start_covers};
pub use earning::plain_line_keeps_earned;
pub use goal::{Goal, GoalProof};
pub use judging::{line_is_judged, line_is_judged_once};
pub use line::Line;
pub use replaying::replays_go_on;
pub use why::Why;
