// Numbers that decide when, how long or how large.

// A literal of a variable below this, and a bit more, fits a word.
pub(crate) const MOST_VARIABLES: u64 = 1 << 30;
// An id of a line below this leaves a bit of its word free.
pub(crate) const MOST_LINES: u64 = 1 << 31;
// All coefficients of a row together stay below this, so that no sum of some of them leaves 64 bits.
pub(crate) const MOST_COEFFICIENTS: u64 = 1 << 62;
// The arena and the pool have fewer words than this: a place in them leaves a bit of its word free.
pub(crate) const MOST_WORDS: usize = 1 << 31;

// Each question begins with so many conflicts in focused mode: unrolled machines and decision rules are closed within
// it.
pub(crate) const FIRST_FOCUSED: u64 = 10_000;
// A heap of less than 2^32 variables is no deeper.
pub(crate) const DEEPEST: usize = 32;
// A conflict makes activities decay by this (Een and Sorensson 2003).
pub(crate) const DECAY: f64 = 0.95;
// Activities above this are scaled down, since floats end.
pub(crate) const MOST_ACTIVITY: f64 = 1e100;

pub(crate) const SCALE_DOWN: f64 = 1e-100;
// How much the latest glue counts in the fast and the slow average (Biere and Froehlich 2015).
pub(crate) const FAST_SHARE: f64 = 0.03;

pub(crate) const SLOW_SHARE: f64 = 1e-5;
// Up to so many conflicts the slow average is the plain mean, since it would begin at 0.
pub(crate) const PLAIN_MEAN: u64 = 10_000;
// The fast average is this much above the slow one where it is time for a restart.
pub(crate) const RESTART_ABOVE: f64 = 1.1;
// At least so many conflicts lie between restarts.
pub(crate) const LEAST_BETWEEN_RESTARTS: u64 = 2;
// In stable mode, conflicts between restarts are Luby's sequence times this.
pub(crate) const LUBY_UNIT: u64 = 1024;
// Conflicts before the first rephasing; later ones follow each other by this times their number.
pub(crate) const REPHASE_EVERY: u64 = 1000;
// Conflicts before the first reduction.
pub(crate) const FIRST_REDUCTION: u64 = 1000;
// Conflicts between reductions are this times the root of their number.
pub(crate) const REDUCE_EVERY: u64 = 300;
// Clauses of at most this glue are kept for ever (Audemard and Simon 2009).
pub(crate) const KEPT_GLUE: u32 = 2;
// Clauses of at most this glue stay where they were used since the reduction before the last (Oh 2016).
pub(crate) const MIDDLE_GLUE: u32 = 6;
// Of the clauses that may go, this part stays.
pub(crate) const KEPT_PART: usize = 4;
// At so many conflicts each it's seen whether there is another round of elimination: a round drops learned clauses.
pub(crate) const ELIMINATE_EVERY: u64 = 1000;
// Elimination may take so many ticks at once, some hundredths of a second: the engine is asked where a search took more.
pub(crate) const FREE_TICKS: u64 = 200_000;
// Beside those it may take this part of all.
pub(crate) const ELIMINATION_PART: u64 = 10;
// How many clauses more a variable that goes may leave, one round after the other: what costs nothing comes first.
pub(crate) const GROWTHS: [usize; 3] = [0, 8, 16];
// A variable stays that has more pairs of a clause with it and one with its negation: gates have some ten.
pub(crate) const MOST_PAIRS: usize = 400;
// It stays where a resolvent would have more literals: such clauses propagate nothing.
pub(crate) const MOST_RESOLVENT: usize = 30;
// The pool is collected where it has at least so many words,
pub(crate) const LEAST_COLLECTED: usize = 4 << 20;
// and has grown to so many times what was left last time.
pub(crate) const GROWN_TIMES: usize = 2;
// A watch list of so many entries counts as one touch of memory: a line of the cache holds them.
pub(crate) const WATCHES_PER_TICK: u64 = 8;
// The same of places of a variable in rows.
pub(crate) const USES_PER_TICK: u64 = 2;
// The sequence of phases begins here.
pub(crate) const FIRST_OF_SEQUENCE: u64 = 88_172_645_463_325_252;
