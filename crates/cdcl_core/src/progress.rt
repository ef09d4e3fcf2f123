// What one turn of a search comes to.
use oracle::Answer;

/// What one turn of a search, propagation and then a conflict or a decision, came to.
#[derive(Debug, Drop)]
pub enum Progress {
    /// It found an answer.
    Answered(Answer),
    /// It learned a clause.
    Learned,
    /// It decided a literal.
    Decided,
}
