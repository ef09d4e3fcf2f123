// What an oracle answers.
use scut_base::{Assignment, Items, Lit};

/// Some assumptions that can't all be true.
#[derive(Debug, Drop)]
pub struct Core {
    /// The assumptions.
    pub lits: Items<Lit>,
    /// The id of the live line that is the clause of their opposites.
    pub id: u64,
}

/// Whether the assumptions can be true together.
#[derive(Debug, Drop)]
pub enum Answer {
    /// They can: an assignment that satisfies the rows, every live clause and the assumptions.
    Sat(Assignment),
    /// They can't: already some of them can't.
    Unsat(Core),
}
