//! The generalised totalizer (Joshi, Martins and Manquinho 2015): literals that stand for "this weighted sum
//! is at least k", made where they are asked for, with the lines that prove what they mean.
//!
//! Its public contract: `Totalizer::build` takes the terms; `Totalizer::output` answers what stands for
//! "the sum is at least k". Only the outputs that it stands on are made, and stay for later calls.
#![tactic(auto)]

mod answering;
mod asking;
mod bound;
mod building;
mod laws;
mod reform;
mod totalizer;

pub use bound::Bound;
pub use laws::{bounds_stay, fitting_stays, own_lines_stay, own_terms_serve, reform_stays};
pub use reform::Reform;
pub use totalizer::Totalizer;
