// An objective in the terms that a search works on.
use scut_base::{Items, Lit};

/// An objective, said in other terms: it is at least `offset` plus the sum of these weighted literals, as the
/// line of the id `lower_line` says; 0 stands for `0 >= 0`. `upper_line` is the id of a line that it is at most
/// that, of which nothing is promised; 0 where there is none.
#[derive(Debug, Drop)]
pub struct Reform {
    pub offset: i64,
    pub terms: Items<(Lit, u64)>,
    pub lower_line: u64,
    pub upper_line: u64,
}
