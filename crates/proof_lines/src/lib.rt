//! The text of a line of a log, both ways, with its ids in digits or counted back from the next one.
//!
//! Its public contract: `read_line` reads a line exactly where the bytes are its text, and `append_line`
//! puts that text at the end of another. A text is that of one line at most. It knows no log and no state.
#![tactic(auto)]

mod append;
mod body;
mod constraint;
mod deleted;
mod goals;
mod hints;
mod ids;
mod images;
mod kind;
mod laws;
mod lists;
mod next_id;
mod number;
mod print;
mod reader;
mod runs;
mod short;
mod spelling;
mod terms;
mod tokens;
mod witnessed;
mod words;

pub use laws::one_line;
pub use next_id::made;
pub use number::plain_id;
pub use print::append_line;
pub use reader::{LineFault, read_line};
pub use spelling::Spelling;
