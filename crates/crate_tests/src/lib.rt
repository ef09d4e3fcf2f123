//! Tests of the lowest crates, all in one crate: a crate that has tests of its own is proved a second time with
//! them. They show what no clause says: what the real files do, and that calls succeed, up to the one that was
//! planned to fail. It has nothing but tests.
#![tactic(auto)]

#[cfg(test)]
mod real_files;
#[cfg(test)]
mod shelves_in_memory;
