//! The command `upgrade IN LOG NEW`: it writes the lines of the log in the file LOG, of either version, into the file NEW in
//! version 2, over the rows of the instance in the file IN. It judges no line.
//!
//! Its public contract: what it answers goes by its table (`UpgradeTable`), and what its words ask for is `upgrade_asked`.
//! NEW is begun when IN was accepted, and each line is written as it was read.
#![tactic(auto)]

ghost use Rattle.std.specs.Prelude.{◌≡◌, true};
ghost use Rattle.command_base.specs.FileWords.{all_differ, names_of};
ghost use Rattle.command_base.specs.Inputs.{IsInput};
ghost use Rattle.command_upgrade.specs.Table.{UpgradeRuns};
ghost use Rattle.command_upgrade.specs.Words.{upgrade_of};

mod unchanged;

use crate::unchanged::Unchanged;
use command_base::{
    Command, FileNames, Format, Input, Status, read_files, read_input, rewrite_log, say,
};
use proof_text::{LogVersion, first_of};
use scut_base::{NoMemory, Shelf};
use std::alloc::Global;
use std::marker::Model;

/// The command `upgrade`, with its files, which have three different names.
#[derive(Debug, Drop)]
pub struct Upgrade<'a> {
    format: Format,
    input: &'a str,
    log: &'a str,
    output: &'a str,
}

impl<'a> Model for Upgrade<'a> {
    ghost use Rattle.std.specs.Prelude.{◌≢◌};
    ghost use Rattle.command_upgrade.specs.Words.{UpgradeAsked};

    ghost Value = { UpgradeAsked };

    ghost view = { λ c. record {
      format = c.format;
      input = c.input.now;
      log = c.log.now;
      output = c.output.now;
    } };

    ghost invariant = { λ c. c.log.now ≢ c.output.now };
}

// The command of three files.
fn upgrade_of<'a>(files: &FileNames<'a>) -> Option<Upgrade<'a>>
    requires { all_differ (names_of files.now).names ≡ true }
    ensures { result ≡ upgrade_of (names_of files.now) }
{
    match files.names.as_slice() {
        [input, log, output] => Some(Upgrade {
            format: files.format,
            input,
            log,
            output,
        }),
        _ => None,
    }
}

impl<'a> Command<'a> for Upgrade<'a> {
    ghost use Rattle.std.proofs.Common.{inl, refl};
    ghost use Rattle.command_upgrade.specs.Table.{UpgradeTable, upgrade_calls};
    ghost use Rattle.command_upgrade.specs.Words.{UpgradeAsked, upgrade_asked};

    ghost Asked = { UpgradeAsked };

    ghost request = { λ c. c };

    ghost asked_by = { upgrade_asked };

    ghost table = { UpgradeTable };

    ghost own = { upgrade_calls };

    ghost undone = { λ a v. inl refl };

    fn read(alloc: Global, words: &'a [String]) -> Result<Option<Upgrade<'a>>, NoMemory> {
        match read_files(alloc, "upgrade", &["IN", "LOG", "NEW"], words)? {
            Some(files) => Ok(upgrade_of(&files)),
            None => Ok(None),
        }
    }

    fn run<H: Shelf>(&self, alloc: Global, shelf: &mut H) -> Status {
        match read_input(alloc, self.format, self.input, shelf) {
            Ok(input) => self.write(alloc, &input, shelf),
            Err(stop) => Status::from(stop),
        }
    }
}

impl<'a> Upgrade<'a> {
    // Writes the new log.
    fn write<H: Shelf>(&self, alloc: Global, input: &Input, shelf: &mut H) -> Status
        requires { IsInput (H.world shelf.old).files self.now.format self.now.input
            input.now.inst input.now.problem }
        ensures { UpgradeRuns self.now result (H.world shelf.old) (H.world shelf.new) }
    {
        let first = first_of(LogVersion::Two, &input.problem);
        match rewrite_log(alloc, &mut Unchanged, self.log, self.output, first, shelf) {
            Ok(()) => say(alloc, Status::Done, shelf),
            Err(stop) => Status::from(stop),
        }
    }
}
