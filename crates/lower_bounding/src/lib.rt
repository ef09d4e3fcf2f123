//! A search for the front from below: a fence of upper bounds on the costs, which cores push outwards (the
//! core-guided search of Cortes, Lynce and Manquinho 2023).
//!
//! Its public contract: `LowerBounding` is a `Search`, whose turns say besides what each makes of its fence.
#![tactic(auto)]

mod fence;
mod limits;
mod lower_bounding;
mod raising;
mod tops;

pub use lower_bounding::LowerBounding;
