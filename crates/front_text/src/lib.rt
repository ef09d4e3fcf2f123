//! The text of a list of entries, and that of models by entries, both ways.
//!
//! Its public contract: `print_list` writes the text of a list, `list_lines` the same line by line,
//! and `read_list` reads a list exactly where the bytes are its text, and else names the entry at
//! which they go wrong. A text is that of one list at most. `print_models` and `read_models` do the
//! same for each entry's models, some or all that serve it. The crate knows no instance.
//!
//! Begin with `reader` and `print`, for lists; `models_reader` and `models_print` have the same for
//! models. Both read by the `Cursor` of `cursor`, and have a model's line from `entry` and `print`.
#![tactic(auto)]

mod cursor;
mod entry;
mod head;
mod list;
mod models_head;
mod models_print;
mod models_reader;
mod print;
mod reader;
mod reps;

pub use list::{FrontList, ListFault};
pub use models_print::print_models;
pub use models_reader::{
    no_models_fault_where_spelled, one_models_fault, one_models_text, read_models,
};
pub use print::{list_lines, print_list};
pub use reader::{no_fault_where_spelled, one_fault, one_list, read_back, read_list};
pub use reps::{ModelsFault, Reps};
