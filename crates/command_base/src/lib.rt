//! What the commands stand on: what a command is, how it ends, and the stages that commands share.
//!
//! Its public contract: a command answers by a table of its own, over the files and what was said before and after
//! (`Command`, `Answered`), and `run_asked` runs whatever words ask of any command and warns of how it ended, which
//! changes nothing of that. A stage reads a file and changes none: `read_input` gives the instance that a file spells,
//! with its normal form, `read_listed` the list of right entries too, `take_log` hands a log on in pieces to whatever
//! takes its lines; each names the first fault of its file in a stop of its own, which comes to a `Status`. `rewrite_log`
//! writes a log into another file, each line as it is answered (`AnswersLine`). `say` says how a command ended, and
//! answers that. What is said and warned of each status stands in `said_of` and `warning_text`. `read_by` gives what
//! `clap` makes of the words of a command, `read_files` those of one that is given files alone.
#![tactic(auto)]

mod checker;
mod command;
mod file_words;
mod input;
mod instance_file;
mod list_file;
mod log_file;
mod messages;
mod refusals;
mod rewriting;
mod saying;
mod status;
mod stops;
mod whole_file;
mod words;

pub use command::{Command, run_asked};
pub use file_words::{FileNames, read_files};
pub use input::{Input, Listed, read_input, read_instance, read_listed};
pub use instance_file::{Format, format_of, format_of_three};
pub use log_file::{LineFault, MOST_BYTES, TakesLog, has_more, take_log};
pub use messages::warn_of;
pub use rewriting::{AnswersLine, rewrite_log};
pub use saying::say;
pub use status::Status;
pub use stops::{InputStop, ListStop, LogStop};
pub use whole_file::{PIECE, read_whole, write_lines, zeros};
pub use words::{file, flag, is_set, number_up_to, option, optional, read_by, value, with_arg};
