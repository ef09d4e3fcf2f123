//! The command `front IN LIST`: the front of the instance in the file IN, as a list in the file LIST, by going through all
//! assignments of at most 20 variables.
//!
//! Its public contract: what it answers goes by its table (`FrontTable`), and what its words ask for is `front_asked`.
#![tactic(auto)]

ghost use Rattle.std.specs.Prelude.{◌≡◌, true, option_map};
ghost use Rattle.front_text.specs.Lines.{list_lines};
ghost use Rattle.command_base.specs.Causes.{HasText};
ghost use Rattle.command_base.specs.FileWords.{names_of};
ghost use Rattle.command_base.specs.InstanceFile.{IsTextOf};
ghost use Rattle.command_front.specs.Table.{FrontRuns, IsFrontOf};
ghost use Rattle.command_front.specs.Words.{asked, front_of};

mod enumeration;

use command_base::{
    Command, FileNames, Format, Status, read_files, read_instance, say, write_lines,
};
use enumeration::enumerated_front;
use front_set::Entry;
use front_text::list_lines;
use instance::{Instance, InstanceLimit};
use scut_base::{Items, NoMemory, Shelf};
use std::alloc::Global;

// How many variables the command takes: it goes through all 2^20 assignments in seconds, and each
// variable more doubles that.
const MOST_VARS: u64 = 20;

/// The command `front`, with its files.
#[derive(Clone, Copy, Debug)]
pub struct Front<'a> {
    pub format: Format,
    pub input: &'a str,
    pub list: &'a str,
}

// The command of two files.
fn front_of<'a>(files: &FileNames<'a>) -> Option<Front<'a>>
    ensures { option_map asked result ≡ front_of (names_of files.now) }
{
    match files.names.as_slice() {
        [input, list] => Some(Front {
            format: files.format,
            input,
            list,
        }),
        _ => None,
    }
}

impl<'a> Command<'a> for Front<'a> {
    ghost use Rattle.std.proofs.Common.{inl, refl};
    ghost use Rattle.command_front.specs.Table.{FrontTable, front_calls};
    ghost use Rattle.command_front.specs.Words.{FrontAsked, asked, front_asked};

    ghost Asked = { FrontAsked };

    ghost request = { asked };

    ghost asked_by = { front_asked };

    ghost table = { FrontTable };

    ghost own = { front_calls };

    ghost undone = { λ a v. inl (refl, inl refl) };

    fn read(alloc: Global, words: &'a [String]) -> Result<Option<Front<'a>>, NoMemory> {
        match read_files(alloc, "front", &["IN", "LIST"], words)? {
            Some(files) => Ok(front_of(&files)),
            None => Ok(None),
        }
    }

    fn run<H: Shelf>(&self, alloc: Global, shelf: &mut H) -> Status {
        match read_instance(alloc, self.format, self.input, shelf) {
            Ok(inst) => self.enumerate(alloc, &inst, shelf),
            Err(stop) => Status::from(stop),
        }
    }
}

impl<'a> Front<'a> {
    // Writes the front of an instance, where it has few enough variables.
    fn enumerate<H: Shelf>(&self, alloc: Global, inst: &Instance, shelf: &mut H) -> Status
        requires { HasText (H.world shelf.old).files self.now.input.now
            (IsTextOf self.now.format inst.now) }
        ensures { FrontRuns (asked self.now) result (H.world shelf.old) (H.world shelf.new) }
    {
        if inst.vars() > MOST_VARS {
            return Status::TooLarge {
                line: 0,
                which: InstanceLimit::Vars,
            };
        }
        match enumerated_front(alloc, inst) {
            Ok(entries) => self.print(alloc, &entries, shelf),
            Err(fault) => Status::from(fault),
        }
    }

    // Writes the front and says its size.
    fn print<H: Shelf>(&self, alloc: Global, entries: &[Entry], shelf: &mut H) -> Status
        requires { IsFrontOf (H.world shelf.old).files (asked self.now) entries.now }
        ensures { FrontRuns (asked self.now) result (H.world shelf.old) (H.world shelf.new) }
    {
        match list_lines(alloc, true, entries) {
            Ok(lines) => self.write(alloc, entries, lines.as_slice(), shelf),
            Err(fault) => Status::from(fault),
        }
    }

    // The same where the front's lines are these.
    fn write<H: Shelf>(
        &self,
        alloc: Global,
        entries: &[Entry],
        lines: &[Items<u8>],
        shelf: &mut H,
    ) -> Status
        requires front { IsFrontOf (H.world shelf.old).files (asked self.now) entries.now }
        requires lines { lines.now ≡ list_lines true entries.now }
        ensures { FrontRuns (asked self.now) result (H.world shelf.old) (H.world shelf.new) }
    {
        match write_lines(shelf, self.list, lines) {
            Ok(()) => {}
            Err(fault) => return Status::from(fault),
        }
        let status = Status::Complete {
            size: entries.len() as u64,
        };
        say(alloc, status, shelf)
    }
}
