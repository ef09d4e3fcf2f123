// Numbers that decide when, or how much.

/// How many numbers other than 0 all rows have together at most: with both orders, 128 MB.
pub const MOST_ENTRIES: usize = 4_000_000;
/// How many rows there are at most: each pivot passes over all of them at least once.
pub const MOST_ROWS: usize = 20_000;

// A variable is outside of its range from this much on.
pub(crate) const FEASIBLE: f64 = 1e-7;
// A row with large coefficients is outside from this part of the largest on: roundings are no smaller.
pub(crate) const FEASIBLE_PART: f64 = 1e-9;
// A range whose ends cross by at most this much is a point: ends may come out of sums of floats.
pub(crate) const CROSSED: f64 = 1e-9;
// A range of at most this width is a point, and its variable never enters the basis.
pub(crate) const POINT: f64 = 1e-12;
// A reduced cost of at most this size has no sign: its variable stays at the end where it is.
pub(crate) const NO_COST: f64 = 1e-9;
// A coefficient of the pivot's row of at most this size is none: a pivot by it would blow up roundings.
pub(crate) const NO_COEFFICIENT: f64 = 1e-7;
// Of a row of the inverse, a number of at most this size is 0.
pub(crate) const NO_MULTIPLIER: f64 = 1e-13;
// Of a factor, a number of at most this size is left out.
pub(crate) const NO_ENTRY: f64 = 1e-14;
// In a solve, a number of at most this size is what roundings have left of 0.
pub(crate) const NO_NUMBER: f64 = 1e-14;
// What stands for 0 where a sparse list names the place: far less than any rounding.
pub(crate) const LISTED_ZERO: f64 = 1e-50;
// Ratios are about the same where they differ by at most this cost over the coefficient (Harris 1973): far less than what
// perturbs costs, or ties that this has broken are ties again, and a roster takes ten times the pivots.
pub(crate) const HARRIS: f64 = 1e-11;
// The coefficient counts as no less than this there: a tiny one would make all ratios the same.
pub(crate) const LEAST_HARRIS: f64 = 1e-3;
// What is left of an excess below this has been made up for by flips.
pub(crate) const NO_EXCESS: f64 = 1e-9;
// The pivot as its row tells it and as its column does may differ by this part before roundings are too many.
pub(crate) const AGREEMENT: f64 = 1e-6;
// A pivot of at most this size isn't divided by: a column has no place, and the basis is singular without it.
pub(crate) const NO_PIVOT: f64 = 1e-9;
// The only place that is left for a column is taken where its number is at least this part of the largest one.
pub(crate) const LONE_PART: f64 = 0.01;
// Where there is a choice, the shortest row is, among the places of at least this part (threshold pivoting).
pub(crate) const CHOSEN_PART: f64 = 0.1;
// A number that is reached by its place takes as long as so many that are passed over in order.
pub(crate) const TIMES_PASSED: u64 = 4;
// After so many pivots the factors are built anew, since roundings add up,
pub(crate) const MOST_CHANGES: usize = 100;
// or as soon as changes have cost as much as that: in a pivot each of their numbers is reached about twice.
pub(crate) const LOAD_OF_A_CHANGE: u64 = 2 * TIMES_PASSED;
// A steepest-edge weight is at least this: below it roundings decide.
pub(crate) const LEAST_WEIGHT: f64 = 1e-4;
// The square of a row of the inverse is at least this.
pub(crate) const LEAST_SQUARE: f64 = 1e-12;
// Whether the bound is beyond `stop` is asked once in so many pivots: a sum over all columns.
pub(crate) const STOP_EVERY: u64 = 8;
// By what part costs are perturbed, so that ties are rare and no basis comes again.
pub(crate) const SPREAD: f64 = 1e-7;
// The same where all costs are 0: any values are the least then, and more breaks more ties.
pub(crate) const SPREAD_WITHOUT_COSTS: f64 = 1e-2;
// The sequence that perturbs costs begins here.
pub(crate) const FIRST_OF_SEQUENCE: u32 = 1;
// A heap of no more than 2^64 elements is at most so deep.
pub(crate) const DEEPEST: usize = 64;
// So many halvings or doublings lead from any float to 1.
pub(crate) const MOST_DOUBLINGS: usize = 2200;
