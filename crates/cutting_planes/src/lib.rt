//! The rules of cutting planes, over a stack of constraints (Cook, Coullard and Turán 1987).
//!
//! Its public contract: what `evaluate` answers is the value of the stack that the tokens describe, or
//! the first token's fault, and it is implied by the lines and the two given constraints. The crate
//! knows no proof and keeps no state.
#![tactic(auto)]

mod additions;
mod evaluation;
mod fault;
mod limits;
mod operand;
mod running_sum;
mod scale;
mod slots;
mod stack;
mod steps;
mod sum;
mod token;
mod weaken;
mod wide;

pub use evaluation::{evaluate, one_value, value_variables};
pub use fault::PolFault;
pub use scale::{multiples_are_implied, quotients_are_implied, saturation_is_implied};
pub use sum::sums_keep_truth;
pub use token::PolToken;
pub use weaken::weakening_is_implied;
