//! The command `trial NUMBER VARS OBJECTIVES BASE`: an instance of so many items and objectives is made from a number, in
//! the file BASE.mcnf, solved, in BASE.list and BASE.log, and list and log are checked. It says three short lines, the same
//! for the same words.
//!
//! Its public contract: what it answers goes by its table (`TrialTable`), and what its words ask for is `trial_asked`. The
//! parts are the commands `gen`, `solve` and `check`, each by its own table.
#![tactic(auto)]

ghost use Rattle.std.specs.Prelude.{◌≡◌, ◌++◌, IfOk, option_map, string_bytes};
ghost use Rattle.clap.specs.Words.{app_of, found_of, rows_of};
ghost use Rattle.command_check.specs.Words.{asked as check_values};
ghost use Rattle.command_gen.specs.Words.{asked as gen_values};
ghost use Rattle.command_solve.specs.Words.{asked as solve_values};
ghost use Rattle.command_trial.specs.Table.{TrialRuns, goes_on};
ghost use Rattle.command_trial.specs.Words.{AreNames, asked, check_in, gen_in, instance_name, list_name, solve_in, trial_app, trial_of_rows, trial_sizes};

use clap::ArgMatches;
use command_base::{Command, Format, Status, file, read_by, value, with_arg};
use command_check::Check;
use command_gen::{Gen, Origin};
use command_solve::{Plan, SearchKind, Solve};
use proof_text::LogVersion;
use scut_base::{NoMemory, Shelf};
use std::alloc::Global;

/// The command `trial`: what it makes an instance from, and how the names of its files begin.
#[derive(Clone, Copy, Debug)]
pub struct Trial<'a> {
    pub origin: Origin,
    pub base: &'a str,
}

// The words of the command, as clap reads them.
fn trial_words<'a>(alloc: Global) -> Result<clap::Command<'a>, NoMemory>
    ensures { IfOk result (λ c. app_of c ≡ trial_app) }
{
    let command = size_words(alloc)?;
    with_arg(command, file(alloc, "BASE"))
}

// The command's numbers. A required word is a file's name to clap, whatever it says.
fn size_words<'a>(alloc: Global) -> Result<clap::Command<'a>, NoMemory>
    ensures { IfOk result (λ c. app_of c ≡ trial_sizes) }
{
    let command = clap::Command::new(alloc, "trial");
    let command = with_arg(command, file(alloc, "NUMBER"))?;
    let command = with_arg(command, file(alloc, "VARS"))?;
    with_arg(command, file(alloc, "OBJECTIVES"))
}

// The command of three numbers and the beginning of names.
fn trial_of_matches<'a>(matches: &ArgMatches<'a>) -> Option<Trial<'a>>
    ensures { option_map asked result ≡ trial_of_rows (rows_of (found_of matches.now)) }
{
    let number = value(matches, "NUMBER");
    let vars = value(matches, "VARS");
    let objectives = value(matches, "OBJECTIVES");
    let base = value(matches, "BASE");
    let origin = Origin::read(number, vars, objectives)?;
    Some(Trial { origin, base })
}

impl<'a> Command<'a> for Trial<'a> {
    ghost use Rattle.std.proofs.Common.{inl, refl};
    ghost use Rattle.command_trial.specs.Table.{TrialTable, trial_calls};
    ghost use Rattle.command_trial.specs.Words.{TrialAsked, asked, trial_asked};

    ghost Asked = { TrialAsked };

    ghost request = { asked };

    ghost asked_by = { trial_asked };

    ghost table = { TrialTable };

    ghost own = { trial_calls };

    ghost undone = { λ a v. inl (inl (record { files = inl refl; said = refl })) };

    fn read(alloc: Global, words: &'a [String]) -> Result<Option<Trial<'a>>, NoMemory> {
        let command = trial_words(alloc)?;
        match read_by(command, words)? {
            Some(matches) => Ok(trial_of_matches(&matches)),
            None => Ok(None),
        }
    }

    fn run<H: Shelf>(&self, alloc: Global, shelf: &mut H) -> Status {
        match name_of(alloc, self.base, ".mcnf") {
            Ok(input) => self.name_list(alloc, input.as_str(), shelf),
            Err(fault) => Status::from(fault),
        }
    }
}

impl<'a> Trial<'a> {
    // The same, where this is the name of the instance file.
    fn name_list<H: Shelf>(&self, alloc: Global, input: &str, shelf: &mut H) -> Status
        requires input { input.now ≡ instance_name (asked self.now) }
        ensures { TrialRuns (asked self.now) result (H.world shelf.old) (H.world shelf.new) }
    {
        match name_of(alloc, self.base, ".list") {
            Ok(list) => self.name_log(alloc, input, list.as_str(), shelf),
            Err(fault) => Status::from(fault),
        }
    }

    // The same, where this is the name of the list besides.
    fn name_log<H: Shelf>(&self, alloc: Global, input: &str, list: &str, shelf: &mut H) -> Status
        requires input { input.now ≡ instance_name (asked self.now) }
        requires list { list.now ≡ list_name (asked self.now) }
        ensures { TrialRuns (asked self.now) result (H.world shelf.old) (H.world shelf.new) }
    {
        match name_of(alloc, self.base, ".log") {
            Ok(log) => self.run_parts(alloc, input, list, log.as_str(), shelf),
            Err(fault) => Status::from(fault),
        }
    }

    // Runs the parts in turn, as far as each goes on.
    fn run_parts<H: Shelf>(
        &self,
        alloc: Global,
        input: &str,
        list: &str,
        log: &str,
        shelf: &mut H,
    ) -> Status
        requires { AreNames (asked self.now) input.now list.now log.now }
        ensures { TrialRuns (asked self.now) result (H.world shelf.old) (H.world shelf.new) }
    {
        let gen_part = gen_in(self.origin, input);
        let made = gen_part.run(alloc, shelf);
        if !goes_on(made) {
            return made;
        }
        let solve_part = solve_in(input, list, log);
        let solved = solve_part.run(alloc, shelf);
        if !goes_on(solved) {
            return solved;
        }
        let check_part = check_in(input, list, log);
        check_part.run(alloc, shelf)
    }
}

// The name of a file: the beginning, and then its ending.
fn name_of(alloc: Global, base: &str, ending: &str) -> Result<String, NoMemory>
    ensures { IfOk result (λ name. string_bytes name ≡ base.now ++ ending.now) }
{
    let mut name = String::from_str(alloc, base)?;
    name.push_str(ending)?;
    Ok(name)
}

// Whether the next part is run after this one has ended so.
fn goes_on(status: Status) -> bool
    ensures { result ≡ goes_on status }
{
    match status {
        Status::Done | Status::Complete { .. } => true,
        _ => false,
    }
}

// The part that makes an instance.
fn gen_in<'a>(origin: Origin, input: &'a str) -> Gen<'a>
    ensures { gen_values result ≡ gen_in origin input.entry.now }
{
    Gen { origin, out: input }
}

// The part that solves it, by the search that is taken where none is named.
fn solve_in<'a>(input: &'a str, list: &'a str, log: &'a str) -> Solve<'a>
    ensures { solve_values result ≡ solve_in input.entry.now list.entry.now log.entry.now }
{
    Solve {
        format: Format::Mcnf,
        input,
        list,
        log,
        search: SearchKind::PMinimal,
        turns: None,
        limit: None,
        version: LogVersion::One,
        plan: Plan {
            harden: false,
            boost: false,
        },
    }
}

// The part that checks list and log.
fn check_in<'a>(input: &'a str, list: &'a str, log: &'a str) -> Check<'a>
    ensures { check_values result ≡ check_in input.entry.now list.entry.now log.entry.now }
{
    Check {
        format: Format::Mcnf,
        input,
        list,
        log,
    }
}
