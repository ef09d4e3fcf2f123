//! Relaxations of a problem, and the question that all searches ask: is a model left whose costs are at most given limits?
//! Linear relaxations are asked first, box by box; what they don't tell, the oracle does, and a clause engine beside it.
//!
//! Its public contract: `Relaxations::ask` answers a model that is wanted, or that none at all is left, or the limits that
//! stand in the way; it keeps a good state good and logs nothing. `Relaxations::turn` is the one turn of searches by `Aims`.
//! `Relaxations::begin` finds of the front what relaxations alone do, over outputs that are only defined: it keeps a good
//! state good, and answers an end line only where the oracle derives from what was closed that nothing is left. Nothing of
//! the relaxations, the boxes and these outputs is believed. Begin in `relaxations.rt`; when, how long and how large is in
//! `limits.rt`.
#![tactic(auto)]

mod aims;
mod allowance;
mod arranging;
mod asking;
mod below;
mod box_parts;
mod cliques;
mod defined_outputs;
mod ending;
mod extending;
mod finding;
mod limits;
mod linear_boxes;
mod open_boxes;
mod opening;
mod question;
mod relaxations;
mod relaxing;
mod row_sizes;
mod row_totalizers;
mod seeking;
mod solving;
mod standing;
mod wanted;

pub use aims::Aims;
pub use below::Below;
pub use relaxations::Relaxations;
pub use wanted::Wanted;
