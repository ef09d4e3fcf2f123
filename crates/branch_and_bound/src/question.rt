// What is asked of a relaxation.
use scut_base::Lit;

/// A limit of an objective's cost.
#[derive(Clone, Copy, Debug)]
pub struct Limit {
    /// The objective, counted from 0.
    pub objective: usize,
    /// Its cost is to be at most this.
    pub most: i64,
    /// The id of the line "where the output above the limit is false, the sum isn't reached"; 0 where there is none.
    pub upper_line: u64,
    /// The id of the line "the objective costs at most what the output's terms do"; 0 where these are its own.
    pub reform_line: u64,
}

/// What is assumed, and the limits that it stands for.
#[derive(Clone, Copy)]
pub struct Question<'a> {
    /// Literals that are to be true.
    pub assumed: &'a [Lit],
    /// What objectives are to cost at most; those without a limit aren't named.
    pub limits: &'a [Limit],
}

// The limit of an objective, if it has one.
pub(crate) fn limit_of(limits: &[Limit], objective: usize) -> Option<Limit> {
    for limit in limits {
        if limit.objective == objective {
            return Some(*limit);
        }
    }
    None
}
