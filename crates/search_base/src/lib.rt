//! What searches for a front stand on: bounds of objectives as literals, the board that they share, and
//! what a search is.
//!
//! Its public contract: `Bounds::new` takes the objectives as reforms, of which `own_reforms` are the first;
//! `Bounds::at_least` answers a literal that stands for "this objective's cost is at least a value";
//! `Board::take` logs a model and puts it onto the board; a `Search` begins and takes turns, and `run_search`
//! goes on until a line says that nothing is left. All keep a good state good: the board has a model for each
//! logged vector, and whatever is left is new. `Board::take_by_cut` takes models by cuts of which nothing is
//! known, and `Board::settle` makes the state good again after them. It knows no order of search.
#![tactic(auto)]

mod asking;
mod board;
mod bounds;
mod costs;
mod cut;
mod laws;
mod logging;
mod naming;
mod objective_bound;
mod pending;
mod reforms;
mod running;
mod search;
mod turn;

pub use board::Board;
pub use bounds::Bounds;
pub use costs::costs_at;
pub use laws::{
    adding_stays_good, adding_stays_good_but, advised_stays_prepared, asking_stays_good,
    asking_stays_good_but, beginning_is_good, bounding_stays_good, deriving_stays_good,
    end_is_good, good_but_for_none, logged_is_reached, no_lines_are_prepared, turn_lines_join,
    turn_lines_keep_own,
};
pub use objective_bound::{ObjectiveBound, ObjectiveLine};
pub use reforms::own_reforms;
pub use running::run_search;
pub use search::Search;
pub use turn::Turn;
