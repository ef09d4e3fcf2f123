// Why a line is refused.
use crate::Goal;

/// Why a line of a log, or the log's end, is refused.
#[derive(Clone, Copy, Debug, PartialEq, Eq)]
pub enum Why {
    /// It isn't the text of a line.
    Syntax,
    /// No line has this id, or none that may be named here; 0 where a constraint isn't given.
    NoSuchId(u64),
    /// This variable isn't one of the state's, or this place of a model isn't that of its variable.
    VarRange(u64),
    /// This variable isn't the next one.
    NotFresh(u64),
    /// A constraint would be larger than 2^100.
    Overflow,
    /// A token finds too few constraints on the stack, or not exactly one is left.
    Stack,
    /// A factor is below 1.
    BadFactor,
    /// The hints lead to no conflict.
    RupOpen,
    /// The proof of this goal brings no contradiction.
    GoalOpen(Goal),
    /// This goal has no proof.
    GoalMissing(Goal),
    /// The row of this id doesn't hold at the logged model.
    SolRow(u64),
    /// Nothing that is named bounds the objective of this number where the cut's literals are false.
    CutOpen(u32),
    /// What is to be learned isn't a clause.
    NotClause,
    /// The line of this id is no contradiction.
    NotContradiction(u64),
    /// The proof has ended.
    AfterEnd,
    /// The log holds no end.
    NoEnd,
    /// No entry of the list is below this logged solution, counted from 1.
    Uncovered(u64),
    /// The log has 2^61 lines.
    LogLong,
}
