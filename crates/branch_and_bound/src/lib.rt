//! Branch and bound (Land and Doig 1960) over the linear relaxation of a problem: the best values within limits where literals are
//! true, or the lines of a tree by which there are none. The root of a tree that has grown gets cuts (Crowder, Johnson and
//! Padberg 1983). From a node's values a walk over whole ones may meet a model.
//!
//! Its public contract: only that it returns. What it finds is a proposal, and so is each line of a tree: whoever adds that judges
//! it. Nothing of the floats is believed. The same calls in the same order find the same: there is no clock in it, and no random
//! source. The crate knows the lines that a search stands on, but no proof and no rule by which one is added.
#![tactic(auto)]

mod broken_rows;
mod combining;
mod counting;
mod cut_lines;
mod cuts;
mod cutting;
mod exploring;
mod factors;
mod leaf;
mod limits;
mod live_lines;
mod nodes;
mod pending;
mod question;
mod relaxation;
mod roots;
mod rounding;
mod scale;
mod search;
mod target;
mod tree;
mod tree_lines;
mod trial;
mod visiting;
mod walking;

pub use counting::wants_more_than_one;
pub use exploring::Found;
pub use live_lines::LiveLines;
pub use nodes::Node;
pub use question::{Limit, Question};
pub use search::BranchAndBound;
pub use target::Target;
pub use tree_lines::TreeLine;
