//! Propagation that follows hints: whether the lines that a proof step names lead to a conflict.
//!
//! Its public contract: `replay` answers Ok exactly where the hinted lines conflict in their order, and
//! then no assignment makes the lines, and what was to be refuted, true. The crate knows no format of a
//! proof and keeps no line.
#![tactic(auto)]

mod hint;
mod hinted;
mod negated;
mod propagation;

pub use hint::{Hint, RupFault};
pub use hinted::{conflicts_at_any_length, replay};
pub use negated::Negated;
