//! The program: every best compromise of an instance, written as a list; and a list and its log, checked.
//!
//! Its public contract is that of `run`, by what the words ask for: after Complete the list file holds
//! exactly the front of the instance, after Accepted list and log are accepted for it, after Done the new
//! log spells the lines of the old one, after Trimmed it is accepted as the old one is, and every other answer has its stated cause.
//! Each command is a crate with a table of its own; here stand the first words, and `main`, which runs them over the real files.
#![tactic(auto)]

mod names;
mod running;

use command_base::{Status, warn_of};
use running::run;
use scut_base::{HostShelf, Shelf};
use std::alloc::Global;
use std::io::ErrorKind;
use std::process::ExitCode;
use std::{env, io};

// The words of the command line, without the program's name.
fn words_of(rt: &HostRuntime) -> io::Result<Vec<String>> {
    Ok(env::args(rt)?.skip(1).collect(rt.alloc())?)
}

// Answers for words that could not be collected: want of memory, or words that are no command.
fn without_words<H: Shelf>(alloc: Global, fault: ErrorKind, shelf: &mut H) -> Status {
    if fault == ErrorKind::OutOfMemory {
        let _ = warn_of(alloc, Status::NoMemory, shelf);
        return Status::NoMemory;
    }
    run(alloc, &[], shelf)
}

fn main(rt: HostRuntime) -> ExitCode {
    let alloc = rt.alloc();
    let words = words_of(&rt);
    let mut shelf = HostShelf::new(rt);
    let status = match &words {
        Ok(words) => run(alloc, words, &mut shelf),
        Err(fault) => without_words(alloc, fault.kind(), &mut shelf),
    };
    ExitCode::from(status.number())
}

#[cfg(test)]
mod tests;
