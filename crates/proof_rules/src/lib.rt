//! States of a proof: stepped line by line, or refused with the first condition that fails.
//!
//! Its public contract: `step` succeeds exactly where the line is legal, and then leaves the next state of
//! the rule book; else it names the reason, and changes nothing. `advance` takes a line that is known to
//! be legal, and judges nothing again. A `Judge` judges lines on a state that somebody else keeps. The trait `Recorder` says what it means to keep a proof. The rule
//! book itself is the crate `proof_laws`.
#![tactic(auto)]

mod definition;
mod derivation;
mod fault;
mod goals;
mod judge;
mod judging;
mod proof_state;
mod ranges;
mod reached;
mod recorder;
mod room;
mod row_index;
mod solution;
mod substitution;
mod taking_up;

pub use fault::StepFault;
pub use judge::Judge;
pub use proof_laws::{
    Goal, GoalProof, Line, Why, ended_is_empty, next_covers, next_fits, plain_line_keeps_earned,
    replay_covers, start_covers,
};
pub use proof_state::ProofState;
pub use recorder::{RecordFault, Recorder};
