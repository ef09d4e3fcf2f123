//! A search for the front that improves one vector after another (P-minimal models: Soh, Banbara, Tamura and
//! Le Berre 2017).
//!
//! Its public contract: `PMinimal` is a `Search`, whose turns say besides what each makes of its aim. `PMinimal::new` asks
//! the oracle alone, and `PMinimal::relaxed` asks linear relaxations first; what they don't know goes to the oracle.
#![tactic(auto)]

mod aim;
mod p_minimal;

pub use p_minimal::PMinimal;
