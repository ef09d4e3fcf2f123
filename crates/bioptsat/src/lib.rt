//! A search for the front of two objectives: the least first cost, then the least second cost at that first
//! cost, then it starts afresh (BiOptSat: Jabs, Berg, Niskanen and Järvisalo 2022).
//!
//! Its public contract: `BiOpt` is a `Search`, whose turns say besides what each makes of its aim. `BiOpt::new` asks
//! the oracle alone, and `BiOpt::relaxed` asks linear relaxations first; what they don't know goes to the oracle.
#![tactic(auto)]

mod aim;
mod bi_opt;

pub use bi_opt::BiOpt;
