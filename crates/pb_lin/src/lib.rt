//! Pseudo-Boolean constraints in normal form, and what can be said and made of them.
//!
//! Its public contract: `normal`, `restricted` and `under` are the normal forms of what they are given,
//! `negated` holds exactly where the constraint doesn't, and a constraint that covers another implies
//! it. `Lines` is a finite map from ids to constraints. The crate knows no rule of a proof.
#![tactic(auto)]

mod constraint;
mod cost_row;
mod cover;
mod evaluate;
mod fault;
mod id_table;
mod lines;
mod negation;
mod normal;
mod parts;
mod problem;
mod propagation;
mod restriction;
mod size;
mod substitution;
mod witness;

pub use constraint::Constraint;
pub use cost_row::{CostRow, row_cost};
pub use cover::covering_implies;
pub use fault::LinFault;
pub use lines::Lines;
pub use negation::negation_holds_elsewhere;
pub use normal::{
    add_terms, normal_form_holds, normal_form_is_unique, normal_form_variables, same_excess,
};
pub use problem::PbProblem;
pub use propagation::{closed_at_any_length, conflicts_at_one_length};
pub use restriction::restriction_holds;
pub use size::SIZE_LIMIT;
pub use substitution::{substitution_holds, substitution_variables};
pub use witness::{Image, Witness};
