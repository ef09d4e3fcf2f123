//! The command `check IN LIST LOG`: it judges the list and the log in the files LIST and LOG for the instance in the file IN,
//! and changes no file.
//!
//! Its public contract: what it answers goes by its table (`CheckTable`), and what its words ask for is `check_asked`.
#![tactic(auto)]

ghost use Rattle.std.specs.Prelude.{◌≡◌, IfOk, [], false, option_map};
ghost use Rattle.instance.specs.ParetoFront.{AreProblemVectors};
ghost use Rattle.instance_normal.specs.NormalForm.{IsNormalFormOf};
ghost use Rattle.log_checker.specs.Checking.{StandsFor};
ghost use Rattle.command_base.specs.FileWords.{names_of};
ghost use Rattle.command_base.specs.Inputs.{IsListed};
ghost use Rattle.command_base.specs.Judging.{judged_by};
ghost use Rattle.command_check.specs.Stages.{IsJudgedFor};
ghost use Rattle.command_check.specs.Table.{CheckRuns};
ghost use Rattle.command_check.specs.Words.{asked, check_of};

use command_base::{
    Command, FileNames, Format, Input, Listed, Status, read_files, read_listed, say, take_log,
};
use front_set::Entry;
use log_checker::{Checker, problem_vectors};
use scut_base::{NoMemory, Shelf};
use std::alloc::Global;

/// The command `check`, with its files.
#[derive(Clone, Copy, Debug)]
pub struct Check<'a> {
    pub format: Format,
    pub input: &'a str,
    pub list: &'a str,
    pub log: &'a str,
}

// The command of three files.
fn check_of<'a>(files: &FileNames<'a>) -> Option<Check<'a>>
    ensures { option_map asked result ≡ check_of (names_of files.now) }
{
    match files.names.as_slice() {
        [input, list, log] => Some(Check {
            format: files.format,
            input,
            list,
            log,
        }),
        _ => None,
    }
}

impl<'a> Command<'a> for Check<'a> {
    ghost use Rattle.std.proofs.Common.{inl, refl};
    ghost use Rattle.command_check.specs.Table.{CheckTable, check_calls};
    ghost use Rattle.command_check.specs.Words.{CheckAsked, asked, check_asked};

    ghost Asked = { CheckAsked };

    ghost request = { asked };

    ghost asked_by = { check_asked };

    ghost table = { CheckTable };

    ghost own = { check_calls };

    ghost undone = { λ a v. record { files = refl; said = inl refl } };

    fn read(alloc: Global, words: &'a [String]) -> Result<Option<Check<'a>>, NoMemory> {
        match read_files(alloc, "check", &["IN", "LIST", "LOG"], words)? {
            Some(files) => Ok(check_of(&files)),
            None => Ok(None),
        }
    }

    fn run<H: Shelf>(&self, alloc: Global, shelf: &mut H) -> Status {
        match read_listed(alloc, self.format, self.input, self.list, shelf) {
            Ok(listed) => self.begin(alloc, &listed, shelf),
            Err(stop) => Status::from(stop),
        }
    }
}

impl<'a> Check<'a> {
    // Judges the log with the entries that were read.
    fn begin<H: Shelf>(&self, alloc: Global, listed: &Listed, shelf: &mut H) -> Status
        requires { IsListed (H.world shelf.old).files self.now.format self.now.input.now
            self.now.list.now listed.now.input.inst listed.now.input.problem listed.now.entries }
        ensures { CheckRuns (asked self.now) result (H.world shelf.old) (H.world shelf.new) }
    {
        match begun(alloc, &listed.input, listed.entries.as_slice()) {
            Ok(mut checker) => self.judge(alloc, listed, &mut checker, shelf),
            Err(fault) => Status::from(fault),
        }
    }

    // The same by a checker that has read nothing.
    fn judge<H: Shelf>(
        &self,
        alloc: Global,
        listed: &Listed,
        checker: &mut Checker,
        shelf: &mut H,
    ) -> Status
        requires listed { IsListed (H.world shelf.old).files self.now.format self.now.input.now
            self.now.list.now listed.now.input.inst listed.now.input.problem listed.now.entries }
        requires by { IsJudgedFor listed.now.input.inst listed.now.entries (judged_by checker.old) }
        requires stands { StandsFor checker.old [] }
        requires open { checker.old.finished ≡ false }
        ensures { CheckRuns (asked self.now) result (H.world shelf.old) (H.world shelf.new) }
    {
        match take_log(alloc, checker, self.log, shelf) {
            Ok(()) => say(alloc, Status::Accepted, shelf),
            Err(stop) => Status::from(stop),
        }
    }
}

// A checker of a log, with the vectors of these entries.
fn begun(alloc: Global, input: &Input, entries: &[Entry]) -> Result<Checker, NoMemory>
    requires entries { AreProblemVectors input.now.inst entries.now }
    requires normal { IsNormalFormOf input.now.inst input.now.problem }
    ensures by { IfOk result (λ c. IsJudgedFor input.now.inst entries.now (judged_by c)) }
    ensures stands { IfOk result (λ c. StandsFor c []) }
    ensures open { IfOk result (λ c. c.finished ≡ false) }
{
    let vectors = problem_vectors(alloc, &input.inst, entries)?;
    Checker::new(alloc, &input.problem, vectors)
}
