// What a search stands on.
use pb_lin::Lines;

/// The lines that a search stands on.
#[derive(Clone, Copy)]
pub struct LiveLines<'a> {
    /// How many variables they may speak of: the problem's, and those that lines have defined.
    pub vars: u64,
    /// Those that are live, by their ids: the problem's rows come first.
    pub lines: &'a Lines,
    /// The id that the next one gets.
    pub next_id: u64,
}
