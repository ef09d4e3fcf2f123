//! The command `check-models IN LIST K BASE`: it judges the models that stand in the file BASE.models for each entry of the list in
//! the file LIST, for the instance in the file IN, and the logs that show which of them are all. It changes no file.
//!
//! Its public contract: what it answers goes by its table (`CheckModelsTable`), and what its words ask for is `check_models_asked`.
//! What is accepted are representatives of each entry's vector, whoever wrote them. The words of `models` are read here too
//! (`read_request`), since they are the same but for the first.
#![tactic(auto)]

ghost use Rattle.command_check_models.specs.Entries.{IsPosed};
ghost use Rattle.command_check_models.specs.Judging.{IsModelsText};
ghost use Rattle.command_check_models.specs.Table.{CheckModelsRuns};

mod files;
mod judging;
mod reading;
mod stop;
mod words;

use crate::judging::judge_entries;
use crate::reading::read_all_models;
use command_base::{Command, Status, read_listed, say};
pub use files::{log_name, models_name};
use front_set::Entry;
use front_text::Reps;
use instance::Instance;
use pb_lin::PbProblem;
use scut_base::{NoMemory, Shelf};
use std::alloc::Global;
use std::marker::Model;
pub use words::{ModelsRequest, read_request};

/// The command `check-models`, with what it is asked.
#[derive(Debug, Drop)]
pub struct CheckModels<'a> {
    request: ModelsRequest<'a>,
}

impl<'a> Model for CheckModels<'a> {
    ghost use Rattle.command_check_models.specs.Words.{ModelsAsked};

    ghost Value = { ModelsAsked };

    ghost view = { λ c. c.request };
}

impl<'a> Command<'a> for CheckModels<'a> {
    ghost use Rattle.std.proofs.Common.{inl, refl};
    ghost use Rattle.command_check_models.specs.Table.{CheckModelsTable, check_models_calls};
    ghost use Rattle.command_check_models.specs.Words.{ModelsAsked, check_models_asked};

    ghost Asked = { ModelsAsked };

    ghost request = { λ c. c };

    ghost asked_by = { check_models_asked };

    ghost table = { CheckModelsTable };

    ghost own = { check_models_calls };

    ghost undone = { λ a v. record { files = refl; said = inl refl } };

    fn read(alloc: Global, words: &'a [String]) -> Result<Option<CheckModels<'a>>, NoMemory> {
        match read_request(alloc, "check-models", words)? {
            Some(request) => Ok(Some(CheckModels { request })),
            None => Ok(None),
        }
    }

    fn run<H: Shelf>(&self, alloc: Global, shelf: &mut H) -> Status {
        let asked = &self.request;
        match read_listed(alloc, asked.format(), asked.input(), asked.list(), shelf) {
            Ok(listed) => {
                let input = &listed.input;
                let entries = listed.entries.as_slice();
                self.read_models(alloc, &input.inst, entries, &input.problem, shelf)
            }
            Err(stop) => Status::from(stop),
        }
    }
}

impl<'a> CheckModels<'a> {
    // Reads the models of these entries.
    fn read_models<H: Shelf>(
        &self,
        alloc: Global,
        inst: &Instance,
        entries: &[Entry],
        problem: &PbProblem,
        shelf: &mut H,
    ) -> Status
        requires { IsPosed (H.world shelf.old).files self.now inst.now entries.now problem.now }
        ensures { CheckModelsRuns self.now result (H.world shelf.old) (H.world shelf.new) }
    {
        match read_all_models(alloc, self.request.base(), shelf) {
            Ok(reps) => self.judge(alloc, inst, entries, problem, reps.as_slice(), shelf),
            Err(stop) => Status::from(stop),
        }
    }

    // The same where the models are these.
    fn judge<H: Shelf>(
        &self,
        alloc: Global,
        inst: &Instance,
        entries: &[Entry],
        problem: &PbProblem,
        reps: &[Reps],
        shelf: &mut H,
    ) -> Status
        requires posed { IsPosed (H.world shelf.old).files self.now inst.now entries.now problem.now }
        requires read { IsModelsText (H.world shelf.old).files self.now.base reps.now }
        ensures { CheckModelsRuns self.now result (H.world shelf.old) (H.world shelf.new) }
    {
        match judge_entries(alloc, &self.request, inst, entries, problem, reps, shelf) {
            Ok(()) => say(alloc, Status::Accepted, shelf),
            Err(stop) => Status::from(stop),
        }
    }
}
