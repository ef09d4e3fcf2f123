// Hints, and why they lead to no conflict.
use scut_base::{Duplicate, NoMemory};
use std::alloc::Global;
use thiserror::Error;

/// A line to be propagated.
#[derive(Clone, Copy, Debug, PartialEq, Eq)]
pub enum Hint {
    /// The line of this id.
    Id(u64),
    /// The negation of what is to be shown.
    Negated,
    /// What was denied besides, where something was.
    Denied,
}

impl Duplicate for Hint {
    fn copy(&self, _alloc: Global) -> Result<Hint, NoMemory> {
        Ok(*self)
    }
}

/// Why hints lead to no conflict.
#[derive(Clone, Copy, Debug, PartialEq, Eq, Error)]
pub enum RupFault {
    /// A hint names no line: its id, or 0 where nothing was denied.
    #[error("no line has this id")]
    NoSuchId(u64),
    /// All hints are used, and no line is violated.
    #[error("the hints lead to no conflict")]
    Open,
}
