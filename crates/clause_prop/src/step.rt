// Steps of a trail.
use scut_base::Lit;

/// A literal that was made true.
#[derive(Clone, Copy, Debug, PartialEq, Eq)]
pub struct Step {
    /// The literal.
    pub lit: Lit,
    /// How many decisions stand at or before it.
    pub level: u64,
    /// The id of the line that forced it; 0 where none did.
    pub reason: u64,
}
