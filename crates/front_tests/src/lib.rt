//! Tests of what searches for fronts stand on, where no clause tells: the order of turns, and that hardening and boosting
//! answer, and hand on a recorder's fault. It has nothing but tests.
#![tactic(auto)]

#[cfg(test)]
mod noting;
#[cfg(test)]
mod tasks;
