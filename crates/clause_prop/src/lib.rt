//! Propagation: the trail of a search, the store of its lines, and what follows from them.
//!
//! Its public contract is that of the trait `Propagator`: `propagate` extends a trail by literals that
//! stored lines force under the steps before them, and ends with a line that is violated, or where no line
//! is violated and none forces a literal. `PlainProp` goes through all lines, takes no memory and so always
//! answers. The crate decides nothing and learns nothing.
#![tactic(auto)]

mod code;
mod line;
mod place_table;
mod plain;
mod propagator;
mod step;
mod store;
mod stored_line;
mod trail;
mod truth;

pub use code::literal_code;
pub use line::{is_forced, possible, push_forced};
pub use plain::PlainProp;
pub use propagator::Propagator;
pub use step::Step;
pub use store::ClauseStore;
pub use stored_line::StoredLine;
pub use trail::Trail;
