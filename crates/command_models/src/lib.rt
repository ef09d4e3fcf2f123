//! The command `models IN LIST K BASE`: up to K models for each entry of the list in the file LIST, for the instance in the file IN. They
//! go to the file BASE.models, and to the file BASE.n.log for entry n a log that shows where these are all.
//!
//! Its public contract: what it answers goes by its table (`ModelsTable`), and what its words ask for is `models_asked`. The logs are written in
//! order, and BASE.models last.
#![tactic(auto)]

ghost use Rattle.command_check_models.specs.Entries.{IsPosed};
ghost use Rattle.command_models.specs.Table.{ModelsRuns};

mod gathering;
mod laws;
mod writing;

use crate::writing::write_all;
use command_base::{Command, Status, read_listed, say};
use command_check_models::{ModelsRequest, read_request};
use front_set::Entry;
use instance::Instance;
pub use laws::listed_are_acceptable;
use pb_lin::PbProblem;
use scut_base::{NoMemory, Shelf};
use std::alloc::Global;
use std::marker::Model;

/// The command `models`, with what it is asked.
#[derive(Debug, Drop)]
pub struct Models<'a> {
    request: ModelsRequest<'a>,
}

impl<'a> Model for Models<'a> {
    ghost use Rattle.command_check_models.specs.Words.{ModelsAsked};

    ghost Value = { ModelsAsked };

    ghost view = { λ c. c.request };
}

impl<'a> Command<'a> for Models<'a> {
    ghost use Rattle.std.proofs.Common.{inl, refl};
    ghost use Rattle.command_models.specs.Table.{ModelsTable, models_calls};
    ghost use Rattle.command_models.specs.Words.{models_asked};
    ghost use Rattle.command_check_models.specs.Words.{ModelsAsked};

    ghost Asked = { ModelsAsked };

    ghost request = { λ c. c };

    ghost asked_by = { models_asked };

    ghost table = { ModelsTable };

    ghost own = { models_calls };

    ghost undone = { λ a v. inl refl };

    fn read(alloc: Global, words: &'a [String]) -> Result<Option<Models<'a>>, NoMemory> {
        match read_request(alloc, "models", words)? {
            Some(request) => Ok(Some(Models { request })),
            None => Ok(None),
        }
    }

    fn run<H: Shelf>(&self, alloc: Global, shelf: &mut H) -> Status {
        let asked = &self.request;
        match read_listed(alloc, asked.format(), asked.input(), asked.list(), shelf) {
            Ok(listed) => {
                let input = &listed.input;
                let entries = listed.entries.as_slice();
                self.gather(alloc, &input.inst, entries, &input.problem, shelf)
            }
            Err(stop) => Status::from(stop),
        }
    }
}

impl<'a> Models<'a> {
    // Gathers models for these entries.
    fn gather<H: Shelf>(
        &self,
        alloc: Global,
        inst: &Instance,
        entries: &[Entry],
        problem: &PbProblem,
        shelf: &mut H,
    ) -> Status
        requires { IsPosed (H.world shelf.old).files self.now inst.now entries.now problem.now }
        ensures { ModelsRuns self.now result (H.world shelf.old) (H.world shelf.new) }
    {
        match write_all(alloc, &self.request, inst, entries, problem, shelf) {
            Ok(()) => {}
            Err(fault) => return Status::from(fault),
        }
        let status = Status::Models {
            entries: entries.len() as u64,
        };
        say(alloc, status, shelf)
    }
}
