//! Reads an instance from a file of hard and soft clauses (MCNF).
//!
//! Its public contract: what `read` answers is the instance that the text spells, by a grammar that
//! speaks of whole lines and words. A refusal names the first fault of the text, and a text has no
//! fault exactly where it spells an instance.
#![tactic(auto)]

mod draft;
mod line;
mod lines;
mod number;
mod reader;
mod statement;
mod words;

pub use reader::{
    faults_have_lines, no_fault_where_spelled, one_instance, read, spelled_where_no_fault,
};
