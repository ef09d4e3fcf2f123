//! The propagator of a search: watched literals for clauses of two literals or more, slack counters for all other lines.
//!
//! Its public contract is that of the trait `Propagator`, which `WatchProp` implements. How it propagates shows in no clause.
//!
//! Begin with `watch_prop`, which joins two halves. Each has calls that keep it in step with a store and a trail, and a
//! `propagate` that extends a trail by what lines of its kind force, and ends with one that is violated, or where none is and
//! none forces a literal. `watches` is the half of clauses, over their literals in `slots` and the lists of who watches what
//! in `watch_lists`; `counters` is the half of all other lines, over `counter_lines` and `occurrence_lists`.
#![tactic(auto)]

mod clause;
mod counter_lines;
mod counters;
mod occurrence_lists;
mod row;
mod short_lit;
mod slot_table;
mod slots;
mod watch_lists;
mod watch_prop;
mod watches;

pub use counters::{dropped_watched_line_keeps_counters, watched_line_keeps_counters};
pub use watch_prop::WatchProp;
pub use watches::other_lines_keep_watches;
