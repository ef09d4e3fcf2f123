//! Outputs of weighted sums: literals that stand for "this sum is at least k", made where they are asked for,
//! with the lines that prove what they mean, for the nodes of a generalised totalizer (Joshi, Martins and
//! Manquinho 2015): a binary tree over the terms, where each node has an output for sums of its terms' weights.
//!
//! Its public contract: `push_nodes` makes the tree of a list of terms; `extend_all` makes the outputs of
//! all nodes below the root up to a bound, and no more; `ask` makes one output of the root, where it isn't
//! there. The literal of each of these outputs is true where the rows and the clauses that stay hold and the sum
//! is reached. They only add definitions, one for each new output, and lines by cutting planes. `define` adds a
//! definition alone.
//!
//! Read `node` and `inner` first: the tree, and a node with what its children have. The main function is
//! `ask`, in `root`; `extend_all`, in `below_root`, makes what it stands on. Both make each output by
//! `make_output`, in `output`: a definition, and the clauses of `clauses`.
#![tactic(auto)]

mod adding;
mod below_root;
mod clause;
mod clauses;
mod definition;
mod falling;
mod inner;
mod laws;
mod leaf;
mod node;
mod node_outputs;
mod output;
mod root;
mod sum_output;
mod sums;
mod tokens;

pub use adding::record;
pub use below_root::extend_all;
pub use clauses::place_of;
pub use definition::define;
pub use inner::Inner;
pub use laws::{pol_may_be_added, sum_may_be_added};
pub use leaf::leaf_output;
pub use node::{Node, push_nodes, total_of};
pub use recording::in_memory;
pub use root::ask;
pub use sum_output::SumOutput;
