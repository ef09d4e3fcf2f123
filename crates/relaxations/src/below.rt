// What comes of a question.
use scut_base::{Assignment, Items};

/// Whether a model is left whose costs are at most the limits.
#[derive(Drop)]
pub enum Below {
    /// This one.
    Model(Assignment),
    /// No model at all is left: the line of this id is `0 >= 1`.
    End { id: u64 },
    /// None that keeps to the limits; for each objective, whether its limit stands in the way.
    Above { stands: Items<bool> },
}
