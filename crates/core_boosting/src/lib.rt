//! Core-guided lower bounding of objectives before a search (OLL: Andres, Kaufmann, Matheis and Schaub 2012; before a
//! search for a front: Jabs, Berg and Järvisalo 2024): cores of an objective's literals raise its offset, and outputs over
//! each core take its place.
//!
//! Its public contract: `boost` answers an objective in other terms whose offset some assignment reaches that satisfies
//! the rows and every live clause; `boost_all` does so for each objective, after which the proof bounds each by its least
//! value. Either ends early where nothing is left, or where there are more than 2^40 variables.
//!
//! Read `boosting` first. `cores` asks for cores; `counting` makes a core's outputs, and the line that more of the core's
//! literals are true than of its outputs; `bounding` makes the line that at most one more is; `exchanging` takes a core up.
#![tactic(auto)]

mod boosting;
mod bounding;
mod cores;
mod counting;
mod exchanging;
mod laws;
mod terms;

pub use boosting::{boost, boost_all};
pub use laws::boosted_stays;
