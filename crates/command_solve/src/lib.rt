//! The command `solve IN LIST LOG [--search S] [--turns T] [--learn N] [--log-version V] [--harden] [--boost]`: the front of the
//! instance in the file IN by search, as a list in the file LIST, with a log in the file LOG.
//!
//! Its public contract: what it answers goes by its table (`SolveTable`), and what its words ask for is `solve_asked`. The
//! log is begun before the search, and the list after it.
#![tactic(auto)]

ghost use Rattle.std.specs.Prelude.{◌≡◌, IfOk, option_map};
ghost use Rattle.clap.specs.Words.{app_of, found_of, rows_of};
ghost use Rattle.instance.specs.Shape.{IsWithinLimits};
ghost use Rattle.command_base.specs.Inputs.{IsInput};
ghost use Rattle.command_solve.specs.Table.{IsProblemOf, SolveRuns};
ghost use Rattle.command_solve.specs.Words.{asked, solve_app, solve_files, solve_of_rows, solve_options};

mod listing;
mod logging;
mod options;
mod turns;

use crate::listing::write_found;
use crate::logging::search_with_log;
use crate::options::{limit_of, search_with, takes, version_of};
use bioptsat::BiOpt;
pub use certified_front::Plan;
use clap::ArgMatches;
use command_base::{
    Command, Format, Input, Status, file, flag, format_of_three, is_set, option, optional, read_by,
    read_input, value, with_arg,
};
use instance::Instance;
use lower_bounding::LowerBounding;
pub use options::SearchKind;
use p_minimal::PMinimal;
use pb_lin::PbProblem;
use proof_text::LogVersion;
use scut_base::{NoMemory, Shelf};
use search_base::Search;
use std::alloc::Global;

/// The command `solve`, with its files, its search, how many clauses it may learn, the version of
/// its log, and what is done before the search.
#[derive(Clone, Copy, Debug)]
pub struct Solve<'a> {
    pub format: Format,
    pub input: &'a str,
    pub list: &'a str,
    pub log: &'a str,
    pub search: SearchKind,
    /// The digits of a search in turns.
    pub turns: Option<&'a str>,
    pub limit: Option<u64>,
    pub version: LogVersion,
    pub plan: Plan,
}

// The words of the command, as clap reads them.
fn solve_words<'a>(alloc: Global) -> Result<clap::Command<'a>, NoMemory>
    ensures { IfOk result (λ c. app_of c ≡ solve_app) }
{
    let command = option_words(alloc)?;
    let command = with_arg(command, flag(alloc, "harden"))?;
    with_arg(command, flag(alloc, "boost"))
}

// The command's files, and its options that have a value.
fn option_words<'a>(alloc: Global) -> Result<clap::Command<'a>, NoMemory>
    ensures { IfOk result (λ c. app_of c ≡ solve_options) }
{
    let command = file_words(alloc)?;
    let command = with_arg(command, option(alloc, "search"))?;
    let command = with_arg(command, option(alloc, "turns"))?;
    let command = with_arg(command, option(alloc, "learn"))?;
    with_arg(command, option(alloc, "log-version"))
}

// The command's files.
fn file_words<'a>(alloc: Global) -> Result<clap::Command<'a>, NoMemory>
    ensures { IfOk result (λ c. app_of c ≡ solve_files) }
{
    let command = clap::Command::new(alloc, "solve");
    let command = with_arg(command, file(alloc, "IN"))?;
    let command = with_arg(command, file(alloc, "LIST"))?;
    with_arg(command, file(alloc, "LOG"))
}

// The command of three different names, the first of an instance file, and of options that are there.
fn solve_of_matches<'a>(matches: &ArgMatches<'a>) -> Option<Solve<'a>>
    ensures { option_map asked result ≡ solve_of_rows (rows_of (found_of matches.now)) }
{
    let input = value(matches, "IN");
    let list = value(matches, "LIST");
    let log = value(matches, "LOG");
    let turns = optional(matches, "turns");
    Some(Solve {
        format: format_of_three(input, list, log)?,
        input,
        list,
        log,
        search: search_with(optional(matches, "search"), turns)?,
        turns,
        limit: limit_of(optional(matches, "learn"))?,
        version: version_of(optional(matches, "log-version"))?,
        plan: Plan {
            harden: is_set(matches, "harden"),
            boost: is_set(matches, "boost"),
        },
    })
}

impl<'a> Command<'a> for Solve<'a> {
    ghost use Rattle.std.proofs.Common.{inl, refl};
    ghost use Rattle.command_solve.specs.Table.{SolveTable, solve_calls};
    ghost use Rattle.command_solve.specs.Words.{SolveAsked, asked, solve_asked};

    ghost Asked = { SolveAsked };

    ghost request = { asked };

    ghost asked_by = { solve_asked };

    ghost table = { SolveTable };

    ghost own = { solve_calls };

    ghost undone = { λ a v. inl refl };

    fn read(alloc: Global, words: &'a [String]) -> Result<Option<Solve<'a>>, NoMemory> {
        let command = solve_words(alloc)?;
        match read_by(command, words)? {
            Some(matches) => Ok(solve_of_matches(&matches)),
            None => Ok(None),
        }
    }

    fn run<H: Shelf>(&self, alloc: Global, shelf: &mut H) -> Status {
        match read_input(alloc, self.format, self.input, shelf) {
            Ok(input) => self.search(alloc, &input, shelf),
            Err(stop) => Status::from(stop),
        }
    }
}

impl<'a> Solve<'a> {
    // Searches for the front of an instance, if the search that is asked for takes it.
    fn search<H: Shelf>(&self, alloc: Global, input: &Input, shelf: &mut H) -> Status
        requires { IsInput (H.world shelf.old).files self.now.format self.now.input.now
            input.now.inst input.now.problem }
        ensures { SolveRuns (asked self.now) result (H.world shelf.old) (H.world shelf.new) }
    {
        let Input { inst, problem } = input;
        if !takes(self.search, self.turns, inst.objectives.len()) {
            return Status::Usage;
        }
        self.search_for(alloc, inst, problem, shelf)
    }

    // Makes the search that is asked for, and searches by it.
    fn search_for<H: Shelf>(
        &self,
        alloc: Global,
        inst: &Instance,
        problem: &PbProblem,
        shelf: &mut H,
    ) -> Status
        requires problem { IsProblemOf (H.world shelf.old).files (asked self.now) inst.now problem.now }
        requires limits { IsWithinLimits inst.now }
        ensures { SolveRuns (asked self.now) result (H.world shelf.old) (H.world shelf.new) }
    {
        match self.search {
            SearchKind::PMinimal => {
                let made = PMinimal::relaxed(alloc, problem);
                self.search_made(alloc, inst, problem, made, shelf)
            }
            SearchKind::LowerBounding => {
                let made = LowerBounding::new(alloc, problem);
                self.search_made(alloc, inst, problem, made, shelf)
            }
            SearchKind::BiOptSat => {
                let made = BiOpt::relaxed(alloc, problem);
                self.search_made(alloc, inst, problem, made, shelf)
            }
            SearchKind::Turns => self.search_in_turns(alloc, inst, problem, shelf),
        }
    }

    // Searches, if there was memory for the search. It owns a search of any type, whose parts it doesn't see.
    fn search_made<S: Search + Drop, H: Shelf>(
        &self,
        alloc: Global,
        inst: &Instance,
        problem: &PbProblem,
        made: Result<S, NoMemory>,
        shelf: &mut H,
    ) -> Status
        requires problem { IsProblemOf (H.world shelf.old).files (asked self.now) inst.now problem.now }
        requires limits { IsWithinLimits inst.now }
        requires serves { IfOk made (λ search. S.serves search problem.now) }
        ensures { SolveRuns (asked self.now) result (H.world shelf.old) (H.world shelf.new) }
    {
        match made {
            Ok(mut search) => self.search_by(alloc, inst, problem, &mut search, shelf),
            Err(fault) => Status::from(fault),
        }
    }

    // Searches with a log, and writes what is found.
    pub(crate) fn search_by<S: Search, H: Shelf>(
        &self,
        alloc: Global,
        inst: &Instance,
        problem: &PbProblem,
        search: &mut S,
        shelf: &mut H,
    ) -> Status
        requires problem { IsProblemOf (H.world shelf.old).files (asked self.now) inst.now problem.now }
        requires limits { IsWithinLimits inst.now }
        requires serves { S.serves search.old problem.now }
        ensures { SolveRuns (asked self.now) result (H.world shelf.old) (H.world shelf.new) }
    {
        match search_with_log(
            alloc,
            inst,
            problem,
            self.log,
            self.version,
            self.limit,
            self.plan,
            search,
            shelf,
        ) {
            Ok(found) => write_found(alloc, &found, self.list, shelf),
            Err(fault) => Status::from(fault),
        }
    }
}
