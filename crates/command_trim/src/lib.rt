//! The command `trim IN LIST LOG NEW`: it judges the list and the log in the files LIST and LOG for the instance in the file IN,
//! as `check` does, and writes into the file NEW, in version 1, the lines of the log that its end needs.
//!
//! Its public contract: what it answers goes by its table (`TrimTable`), and what its words ask for is `trim_asked`. NEW is
//! begun when list and log were accepted. The law `trimmed_texts_are_accepted` says that each text of the trimmed lines is
//! accepted for the same list. The trimmed lines are exactly `trimmed`, which is defined on lists of lines; the law
//! `trimmed_proof_replays` says that those of a proof are a proof, which has ended where the old one has, and logs none but its
//! vectors; the law `trimmed_lines_come_of_old`, that they are some of the old lines in their order, under new ids.
//!
//! Begin here, with the words and `run`. The log is judged and kept in `keeping`, and trimmed in `trimming`: `needing` says
//! which lines are needed, `renamed` has what is left of each under new ids; `trimming_laws` has what trimming keeps.
#![tactic(auto)]

ghost use Rattle.std.specs.Prelude.{◌≡◌, length, option_map};
ghost use Rattle.proof_lines.specs.declared.spelling.Spelling.TheVariants.{Plain};
ghost use Rattle.proof_text.specs.Versions.{log_text};
ghost use Rattle.command_base.specs.FileWords.{names_of};
ghost use Rattle.command_base.specs.Inputs.{IsListed};
ghost use Rattle.command_trim.specs.Keeping.{IsProved};
ghost use Rattle.command_trim.specs.Table.{IsTextOf, TrimRuns};
ghost use Rattle.command_trim.specs.Words.{asked, trim_of};

mod ids;
mod keeping;
mod log_file;
mod marks;
mod needing;
mod renamed;
mod renames;
mod text_laws;
mod trimming;
mod trimming_laws;
mod writing;

use crate::log_file::proved_lines;
use crate::trimming::trim;
use crate::writing::write_log;
use command_base::{
    Command, FileNames, Format, Input, Listed, Status, read_files, read_listed, say,
};
use proof_laws::Line;
use scut_base::{NoMemory, Shelf};
use std::alloc::Global;
pub use text_laws::trimmed_texts_are_accepted;
pub use trimming_laws::{
    goals_are_simulated, hints_are_simulated, legal_lines_are_simulated, lines_are_carried,
    requirements_are_simulated, tokens_are_simulated, trimmed_lines_come_of_old,
    trimmed_proof_replays,
};

/// The command `trim`, with its files.
#[derive(Clone, Copy, Debug)]
pub struct Trim<'a> {
    pub format: Format,
    pub input: &'a str,
    pub list: &'a str,
    pub log: &'a str,
    pub output: &'a str,
}

// The command of four files.
fn trim_of<'a>(files: &FileNames<'a>) -> Option<Trim<'a>>
    ensures { option_map asked result ≡ trim_of (names_of files.now) }
{
    match files.names.as_slice() {
        [input, list, log, output] => Some(Trim {
            format: files.format,
            input,
            list,
            log,
            output,
        }),
        _ => None,
    }
}

impl<'a> Command<'a> for Trim<'a> {
    ghost use Rattle.std.proofs.Common.{inl, refl};
    ghost use Rattle.command_trim.specs.Table.{TrimTable, trim_calls};
    ghost use Rattle.command_trim.specs.Words.{TrimAsked, asked, trim_asked};

    ghost Asked = { TrimAsked };

    ghost request = { asked };

    ghost asked_by = { trim_asked };

    ghost table = { TrimTable };

    ghost own = { trim_calls };

    ghost undone = { λ a v. inl refl };

    fn read(alloc: Global, words: &'a [String]) -> Result<Option<Trim<'a>>, NoMemory> {
        match read_files(alloc, "trim", &["IN", "LIST", "LOG", "NEW"], words)? {
            Some(files) => Ok(trim_of(&files)),
            None => Ok(None),
        }
    }

    fn run<H: Shelf>(&self, alloc: Global, shelf: &mut H) -> Status {
        match read_listed(alloc, self.format, self.input, self.list, shelf) {
            Ok(listed) => self.judge(alloc, &listed, shelf),
            Err(stop) => Status::from(stop),
        }
    }
}

impl<'a> Trim<'a> {
    // Trims the log that is accepted with the entries that were read.
    fn judge<H: Shelf>(&self, alloc: Global, listed: &Listed, shelf: &mut H) -> Status
        requires { IsListed (H.world shelf.old).files self.now.format self.now.input.now
            self.now.list.now listed.now.input.inst listed.now.input.problem listed.now.entries }
        ensures { TrimRuns (asked self.now) result (H.world shelf.old) (H.world shelf.new) }
    {
        let Input { inst, problem } = &listed.input;
        let entries = listed.entries.as_slice();
        match proved_lines(alloc, inst, entries, problem, self.log, shelf) {
            Ok(lines) => self.trim(alloc, listed, lines.as_slice(), shelf),
            Err(stop) => Status::from(stop),
        }
    }

    // Trims the lines of a log that is accepted.
    fn trim<H: Shelf>(
        &self,
        alloc: Global,
        listed: &Listed,
        lines: &[Line],
        shelf: &mut H,
    ) -> Status
        requires { IsProved (H.world shelf.old).files (asked self.now) listed.now.input.inst
            listed.now.entries listed.now.input.problem lines.now }
        ensures { TrimRuns (asked self.now) result (H.world shelf.old) (H.world shelf.new) }
    {
        match trim(alloc, &listed.input.problem, lines) {
            Ok(kept) => self.write(alloc, kept.as_slice(), lines.len() as u64, shelf),
            Err(fault) => Status::from(fault),
        }
    }

    // Writes the trimmed lines, of so many.
    fn write<H: Shelf>(&self, alloc: Global, kept: &[Line], total: u64, shelf: &mut H) -> Status
        requires { IsTextOf (H.world shelf.old).files (asked self.now) (log_text Plain kept.now)
            (length kept.now) total }
        ensures { TrimRuns (asked self.now) result (H.world shelf.old) (H.world shelf.new) }
    {
        match write_log(alloc, self.output, kept, shelf) {
            Ok(()) => {}
            Err(fault) => return Status::from(fault),
        }
        let status = Status::Trimmed {
            kept: kept.len() as u64,
            total,
        };
        say(alloc, status, shelf)
    }
}
