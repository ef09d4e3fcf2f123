// Limits of the work on tokens, each with its reason.

// The least number of additions that are made in place together. Each of the topmost's terms is put into
// its slot first, which costs as much as 10 to 15 ordinary sums, as measured.
pub(crate) const LEAST_ADDITIONS: usize = 16;

// How many times the terms of a line the topmost has at least where the line is added in place. A term
// that is looked up costs as much as 10 to 20 that an ordinary sum passes, as measured.
pub(crate) const LEAST_RATIO: usize = 16;

// The most terms of lines whose literals are gathered for one running sum, where the topmost hasn't
// more: they take 8 bytes each, and 32 more for a variable that the topmost lacks, so 40 MB.
pub(crate) const GATHERED_TERMS: usize = 1_000_000;
