// Numbers that decide when, or how much.

// A value is between 0 and 1 where it's further than this from both.
pub(crate) const BETWEEN: f64 = 1e-6;
// A row takes part in zero-half cuts where it has less slack than this: a cut loses half of its rows' slack, and the most
// that it can be violated by is a half.
pub(crate) const TIGHT: f64 = 0.2;
// A sum of rows is made a zero-half cut where it would be violated by at least this.
pub(crate) const LEAST_HALF: f64 = 0.04;
// So many zero-half cuts are made at a point at most: a round takes a third of them.
pub(crate) const MOST_HALVES: usize = 60;
// The elimination takes at most so many tight rows: it costs their square.
pub(crate) const MOST_TIGHT: usize = 4_000;
// Rows of the table are worth asking for columns that are at least so far from whole, and for so many of them.
pub(crate) const LEAST_FRACTION: f64 = 0.02;

pub(crate) const MOST_TABLE_ROWS: usize = 60;
// A multiplier of a row of the table of at most this size is none, and one that is this close below a whole number is whole.
pub(crate) const NO_MULTIPLIER: f64 = 1e-9;

pub(crate) const WHOLE: f64 = 1e-7;
// What is left of a multiplier beside its whole part counts from here on.
pub(crate) const LEAST_PART: f64 = 1e-6;
// A sum of more rows than this makes a line that is too long for what it brings.
pub(crate) const MOST_FACTORS: usize = 300;
// The denominators that are tried, and how far multiples may be from whole numbers: by small ones they are exact, or they
// aren't the right ones.
pub(crate) const MOST_DENOMINATOR: u32 = 120;

pub(crate) const SMALL_DENOMINATOR: u32 = 30;

pub(crate) const NEAR_WHOLE: f64 = 1e-4;

pub(crate) const ABOUT_WHOLE: f64 = 5e-3;
// Where none of them serves, parts are rounded by this one: sums stay whole numbers below 2^53, and what that changes is small
// beside LEAST_VIOLATION.
pub(crate) const FINE_DENOMINATOR: u32 = 1 << 20;
// A cut is kept where the point is at least so far from it, and its coefficients are no larger than this: larger ones make
// roundings of the linear program.
pub(crate) const LEAST_VIOLATION: f64 = 1e-2;

pub(crate) const MOST_COEFFICIENT: f64 = 20_000.0;
// Two cuts of which the cosine is above this say about the same.
pub(crate) const MOST_COSINE: f64 = 0.7;
// A row is rounded by at most so many of its coefficients, the largest first, and by these halved so often.
pub(crate) const MOST_DIVISORS: usize = 8;

pub(crate) const HALVINGS: u32 = 2;
