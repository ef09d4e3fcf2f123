//! The text of a log, both ways, and what keeps a log while a search runs.
//!
//! Its public contract: a `LineReader` gives the lines that the bytes fed to it spell, in either
//! version and however they were cut, and names the first line that is wrong; a `FileRecorder` keeps a
//! file that always holds the header and the text of its lines, in the version that is asked; a
//! `MemRecorder` keeps the lines alone; a `LogWriter` puts the header and lines into a file, and keeps none of
//! them. No line is judged here.
#![tactic(auto)]

mod fault;
mod file_recorder;
mod keeping;
mod kept_lines;
mod laws;
mod line_feeds;
mod line_reader;
mod log_writer;
mod mem_recorder;
mod opening;
mod pending;
mod printing;
mod version;

pub use fault::TextFault;
pub use file_recorder::{FileRecorder, NotBegun};
pub use laws::{no_fault_where_spelled, one_fault, one_log, printed_back};
pub use line_reader::LineReader;
pub use log_writer::LogWriter;
pub use mem_recorder::MemRecorder;
pub use printing::{print, print_header, print_relative};
pub use proof_lines::{Spelling, made};
pub use version::{LogVersion, after_line, first_of};
