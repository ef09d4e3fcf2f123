//! What a recorder was given: lines that are added, by whoever made them, and what stays as it was.
//!
//! Its public contract: `take_advice` adds lines of which nothing is known as far as they are legal, and nothing
//! else; `take_conservative` takes definitions and what follows from live lines alone; `consult` does so with what an `Adviser` proposes, round by round; `is_formed` tells lines that a log can
//! spell; `last_clause` answers what the last line has stated.
#![tactic(auto)]

mod advice;
mod adviser;
mod formed;
mod memory;

pub use advice::{
    ClauseLine, advised_stays_earned, last_clause, take_advice, take_conservative,
    taken_ends_advised,
};
pub use adviser::{Adviser, consult};
pub use formed::is_formed;
pub use memory::in_memory;
