//! Tests of the crates of a search: what no clause says of them. Propagators, solvers and totalizers succeed where there
//! is memory; long chains of lines take a time that only a propagator that watches can keep; and small problems that are
//! worked out by hand have these answers, these cores and so many outputs. It has nothing but tests.
#![tactic(auto)]

#[cfg(test)]
mod binary;
#[cfg(test)]
mod chain;
#[cfg(test)]
mod fixture;
#[cfg(test)]
mod lines;
#[cfg(test)]
mod problems;
#[cfg(test)]
mod solver;
#[cfg(test)]
mod totals;
