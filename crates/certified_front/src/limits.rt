// When the terms of an objective stay in their order (DECISIONS, term-order).

// Terms are neighbours up to this distance.
pub(crate) const NEAR: usize = 2;

// How many times as often as other pairs neighbours share a constraint, where their order is kept. Measured on planning
// problems: the orders that were worth keeping had 2.4 to 18, the others 0.8 to 1.2.
pub(crate) const CLEARLY: u128 = 2;
