// What a substitution has to keep, and how that is proved.
use cutting_planes::PolToken;
use hint_rup::Hint;
use scut_base::{Duplicate, Items, NoMemory};
use std::alloc::Global;

/// What has to be so after a substitution, of which a line says that it may be made.
#[derive(Clone, Copy, Debug, PartialEq, Eq)]
pub enum Goal {
    /// The line of this id still holds.
    Row(u64),
    /// The constraint that is added holds.
    Itself,
    /// The objective of this number, counted from 1, hasn't risen.
    Objective(u32),
    /// The sum of all objectives has fallen.
    Strict,
}

/// How the negation of a goal is brought to a contradiction.
#[derive(Debug, Drop)]
pub enum GoalProof {
    /// By propagation along these hints.
    Rup(Items<Hint>),
    /// By cutting planes: these tokens make a constraint that nothing satisfies.
    Pol(Items<PolToken>),
}

impl Duplicate for Goal {
    fn copy(&self, _alloc: Global) -> Result<Goal, NoMemory> {
        Ok(*self)
    }
}

impl Duplicate for GoalProof {
    fn copy(&self, alloc: Global) -> Result<GoalProof, NoMemory> {
        match self {
            GoalProof::Rup(hints) => Ok(GoalProof::Rup(hints.copy(alloc)?)),
            GoalProof::Pol(tokens) => Ok(GoalProof::Pol(tokens.copy(alloc)?)),
        }
    }
}
