// How long an engine is asked.

// So many ticks may questions take that stay open, all together: hours. Beyond that a search goes on by its oracle alone.
pub(crate) const MOST_TICKS: u64 = 1_000_000_000_000;
