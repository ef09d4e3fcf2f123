//! The command `elaborate IN LOG NEW`: it writes the lines of the log in the file LOG, of either version, into the file NEW in
//! version 1, over the instance in the file IN. Each implied or learned line without hints is given those that it needs.
//!
//! Its public contract: what it answers goes by its table (`ElaborateTable`), and what its words ask for is `elaborate_asked`.
//! NEW is begun when IN was accepted, and each line is written as it was answered; the first that is refused ends it. A line
//! is answered, by one that is legal by the rule book, exactly where it is loosely legal, and else the reason is named; laws
//! say the same of whole lists of lines. No order of propagation shows in it.
//!
//! Begin here, with the words and `run`, or with `elaborator`, which finds hints: a proof that is stepped line by line. What
//! it does with a line is in `adding`, the search for hints in `finding`.
#![tactic(auto)]

ghost use Rattle.std.specs.Prelude.{◌≡◌, [], true};
ghost use Rattle.command_base.specs.FileWords.{all_differ, names_of};
ghost use Rattle.command_base.specs.Inputs.{IsInput};
ghost use Rattle.command_elaborate.specs.Elaborating.{HasAnswered};
ghost use Rattle.command_elaborate.specs.Table.{ElaborateRuns};
ghost use Rattle.command_elaborate.specs.Words.{elaborate_of};

mod adding;
mod elaborator;
mod fault;
mod finding;
mod hint_laws;
mod hints;
mod log_elaborator;
mod log_laws;
mod refuting;
mod taking;

use crate::log_elaborator::LogElaborator;
use command_base::{
    Command, FileNames, Format, Input, Status, read_files, read_input, rewrite_log, say,
};
pub use hint_laws::{
    elaborated_lines_replay_loosely, elaboration_goes_on, elaborations_replay,
    hints_conflict_by_propagation, line_is_judged_loosely_once,
};
pub use log_laws::loosely_accepted_where_elaborated;
use proof_text::Spelling;
use scut_base::{NoMemory, Shelf};
use std::alloc::Global;
use std::marker::Model;

/// The command `elaborate`, with its files, which have three different names.
#[derive(Debug, Drop)]
pub struct Elaborate<'a> {
    format: Format,
    input: &'a str,
    log: &'a str,
    output: &'a str,
}

impl<'a> Model for Elaborate<'a> {
    ghost use Rattle.std.specs.Prelude.{◌≢◌};
    ghost use Rattle.command_elaborate.specs.Words.{ElaborateAsked};

    ghost Value = { ElaborateAsked };

    ghost view = { λ c. record {
      format = c.format;
      input = c.input.now;
      log = c.log.now;
      output = c.output.now;
    } };

    ghost invariant = { λ c. c.log.now ≢ c.output.now };
}

// The command of three files.
fn elaborate_of<'a>(files: &FileNames<'a>) -> Option<Elaborate<'a>>
    requires { all_differ (names_of files.now).names ≡ true }
    ensures { result ≡ elaborate_of (names_of files.now) }
{
    match files.names.as_slice() {
        [input, log, output] => Some(Elaborate {
            format: files.format,
            input,
            log,
            output,
        }),
        _ => None,
    }
}

impl<'a> Command<'a> for Elaborate<'a> {
    ghost use Rattle.std.proofs.Common.{inl, refl};
    ghost use Rattle.command_elaborate.specs.Table.{ElaborateTable, elaborate_calls};
    ghost use Rattle.command_elaborate.specs.Words.{ElaborateAsked, elaborate_asked};

    ghost Asked = { ElaborateAsked };

    ghost request = { λ c. c };

    ghost asked_by = { elaborate_asked };

    ghost table = { ElaborateTable };

    ghost own = { elaborate_calls };

    ghost undone = { λ a v. inl refl };

    fn read(alloc: Global, words: &'a [String]) -> Result<Option<Elaborate<'a>>, NoMemory> {
        match read_files(alloc, "elaborate", &["IN", "LOG", "NEW"], words)? {
            Some(files) => Ok(elaborate_of(&files)),
            None => Ok(None),
        }
    }

    fn run<H: Shelf>(&self, alloc: Global, shelf: &mut H) -> Status {
        match read_input(alloc, self.format, self.input, shelf) {
            Ok(input) => self.begin(alloc, &input, shelf),
            Err(stop) => Status::from(stop),
        }
    }
}

impl<'a> Elaborate<'a> {
    // Makes what answers the lines.
    fn begin<H: Shelf>(&self, alloc: Global, input: &Input, shelf: &mut H) -> Status
        requires { IsInput (H.world shelf.old).files self.now.format self.now.input
            input.now.inst input.now.problem }
        ensures { ElaborateRuns self.now result (H.world shelf.old) (H.world shelf.new) }
    {
        match LogElaborator::new(alloc, &input.problem) {
            Ok(mut lines) => self.write(alloc, input, &mut lines, shelf),
            Err(fault) => Status::from(fault),
        }
    }

    // Writes the new log, by an elaborator to which no line was given.
    fn write<H: Shelf>(
        &self,
        alloc: Global,
        input: &Input,
        lines: &mut LogElaborator,
        shelf: &mut H,
    ) -> Status
        requires of_file { IsInput (H.world shelf.old).files self.now.format self.now.input
            input.now.inst input.now.problem }
        requires problem { lines.old.elaborator.problem ≡ input.now.problem }
        requires fresh { HasAnswered lines.old.elaborator [] [] }
        ensures { ElaborateRuns self.now result (H.world shelf.old) (H.world shelf.new) }
    {
        match rewrite_log(alloc, lines, self.log, self.output, Spelling::Plain, shelf) {
            Ok(()) => say(alloc, Status::Done, shelf),
            Err(stop) => Status::from(stop),
        }
    }
}
