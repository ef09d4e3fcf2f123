// What a line says.
use scut_base::{Items, Lit};

/// What a line says.
#[derive(Debug, Drop)]
pub enum Statement {
    /// Nothing: the line has no words, or is a comment.
    Nothing,
    /// A hard clause.
    Hard {
        lits: Items<Lit>,
    },
    /// A soft clause of an objective, counted from 1.
    Soft {
        objective: u64,
        weight: u64,
        lits: Items<Lit>,
    },
}
