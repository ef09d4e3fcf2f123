//! What every other crate stands on: copies that may want memory, small lists, literals, total and
//! partial assignments, numbers read from text, and the outside as a program sees it.
//!
//! Its public contract: an assignment is a list of truth values, a number is read exactly where the
//! text is one, and a `Shelf` keeps the files that it is given, with a count of faults for each
//! kind of call and each name. It knows no instance, no constraint and no format.
#![tactic(auto)]

mod assignment;
mod file_map;
mod host_shelf;
mod items;
mod literal;
mod mem_shelf;
mod memory;
mod number;
mod partial;
mod shelf;

pub use assignment::Assignment;
pub use host_shelf::HostShelf;
pub use items::Items;
pub use literal::Lit;
pub use mem_shelf::{MemShelf, PlannedFault};
pub use memory::{Duplicate, NoMemory, boxed};
pub use number::{NumberFault, read_i64, read_i128, read_u64};
pub use partial::Partial;
pub use shelf::{Shelf, ShelfCall, ShelfFault};
