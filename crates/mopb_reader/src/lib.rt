//! Reads an instance from a file of linear statements (OPB with several objectives).
//!
//! Its public contract: what `read` answers is the instance that the text spells, by a grammar that
//! speaks of the whole text's tokens, statement by statement, and a refusal names the text's first
//! fault with its line, by a table of what may follow what, or want of memory. A text spells at most
//! one instance, and one of fewer than 2^32 bytes has a first fault exactly where it spells none.
#![tactic(auto)]

mod cut;
mod draft;
mod lines;
mod reader;
mod statement;
mod term;
mod terms;
mod token;
mod tokens;

pub use reader::{
    faults_have_lines, no_fault_where_spelled, one_instance, read, spelled_where_no_fault,
};
