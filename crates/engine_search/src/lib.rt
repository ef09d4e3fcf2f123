//! Questions whether literals can be true together, answered by a clause engine whose derived clauses become lines.
//!
//! Its public contract: `EngineSearch::ask` answers as an oracle does, with an assignment that satisfies the rows, every
//! live clause and the assumptions, or with some of the assumptions and a live clause by which they can't all be true; or
//! it doesn't answer; `solution_by` tries a model that anybody proposes. It adds implied clauses alone, each judged before it is recorded. Nothing of the engine is believed.
#![tactic(auto)]

mod asking;
mod limits;
mod models;
mod taking;
mod writing;

pub use asking::EngineSearch;
pub use models::solution_by;
