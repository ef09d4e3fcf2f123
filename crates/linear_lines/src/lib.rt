//! Lines by cutting planes: combinations of live lines that make constraints.
//!
//! Its public contract: `add_clause_line` records tokens where they make a clause, and nothing where they don't; `add_line` does
//! so where they make any constraint.
#![tactic(auto)]

mod adding;
mod making;
mod spelling;

pub use adding::{ClauseLine, add_clause_line, add_line};
