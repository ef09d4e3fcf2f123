// Judging the models of entries one after another.
ghost use Rattle.std.specs.Prelude.{◌≡◌, ◌<◌, ◌^◌, [], length, true, IfErr, OnOk};
ghost use Rattle.log_checker.specs.Accepted.{IsEndedProof};
ghost use Rattle.log_checker.specs.LogFaults.{IsLogFault, IsWholeFault};
ghost use Rattle.command_base.specs.Causes.{HasText};
ghost use Rattle.command_base.specs.Stops.{IsLogStop};
ghost use Rattle.command_base.specs.Views.{OnlyReads};
ghost use Rattle.command_check_models.specs.Entries.{AreLogsTakenFrom, AreRightFrom, IsLogTaken};
ghost use Rattle.command_check_models.specs.Entries.{IsPosed, IsRightEntry};
ghost use Rattle.command_check_models.specs.Judging.{IsEntryStop, IsGivenEntry, IsJudgingStop, stop_of};
ghost use Rattle.representatives.specs.Representatives.{AreServing};

use crate::ModelsRequest;
use crate::files::log_name;
use crate::stop::ModelsStop;
use command_base::{LogStop, take_log};
use front_set::Entry;
use front_text::Reps;
use instance::Instance;
use log_checker::Checker;
use pb_lin::PbProblem;
use representatives::{RepsFault, RepsWhy, bounded_problem, check_reps, ended_log_lists_all};
use scut_base::{Items, Shelf};
use std::alloc::Global;

// Judges the models of all entries in order, up to the first that are wrong.
pub(crate) fn judge_entries<H: Shelf>(
    alloc: Global,
    request: &ModelsRequest<'_>,
    inst: &Instance,
    entries: &[Entry],
    problem: &PbProblem,
    reps: &[Reps],
    shelf: &mut H,
) -> Result<(), ModelsStop>
    requires { IsPosed (H.world shelf.old).files request.now inst.now entries.now problem.now }
    ensures right { OnOk result (AreRightFrom (H.world shelf.old).files request.now inst.now
        problem.now 1 entries.now reps.now) }
    ensures taken { OnOk result (AreLogsTakenFrom (H.world shelf.old).files request.now 1 reps.now) }
    ensures stop { IfErr result (λ stop. IsJudgingStop stop (H.world shelf.old).files request.now
        inst.now problem.now entries.now reps.now
        (H.world shelf.old).faults (H.world shelf.new).faults) }
    ensures only_reads { OnlyReads (H.world shelf.old) (H.world shelf.new) }
{
    if reps.len() != entries.len() {
        return Err(ModelsStop::Refused {
            entry: 0,
            why: RepsWhy::Count,
        });
    }
    for at in 0..entries.len() {
        let number = at as u64 + 1;
        judge_entry(
            alloc,
            request,
            inst,
            &entries[at],
            problem,
            number,
            &reps[at],
            shelf,
        )?;
    }
    Ok(())
}

// Judges the models of entry `number`, and their log where they are to be all.
fn judge_entry<H: Shelf>(
    alloc: Global,
    request: &ModelsRequest<'_>,
    inst: &Instance,
    entry: &Entry,
    problem: &PbProblem,
    number: u64,
    reps: &Reps,
    shelf: &mut H,
) -> Result<(), ModelsStop>
    requires given { IsGivenEntry inst.now problem.now entry.now }
    ensures right { OnOk result (IsRightEntry (H.world shelf.old).files request.now inst.now
        problem.now number entry.now reps.now) }
    ensures taken { OnOk result (IsLogTaken (H.world shelf.old).files request.now number reps.now) }
    ensures stop { IfErr result (λ stop. IsEntryStop stop (H.world shelf.old).files request.now
        inst.now problem.now number entry.now reps.now
        (H.world shelf.old).faults (H.world shelf.new).faults) }
    ensures only_reads { OnlyReads (H.world shelf.old) (H.world shelf.new) }
{
    match check_reps(alloc, inst, &entry.costs, request.most(), reps) {
        Ok(()) => {}
        Err(RepsFault::Refused(why)) => {
            return Err(ModelsStop::Refused { entry: number, why });
        }
        Err(RepsFault::NoMemory) => return Err(ModelsStop::NoMemory),
    }
    if reps.all {
        return judge_log(alloc, request, inst, entry, problem, number, reps, shelf);
    }
    Ok(())
}

// Judges the log that is to show that the models are all.
fn judge_log<H: Shelf>(
    alloc: Global,
    request: &ModelsRequest<'_>,
    inst: &Instance,
    entry: &Entry,
    problem: &PbProblem,
    number: u64,
    reps: &Reps,
    shelf: &mut H,
) -> Result<(), ModelsStop>
    requires given { IsGivenEntry inst.now problem.now entry.now }
    requires serving { AreServing inst.now entry.now.costs request.now.most reps.now.all reps.now.models }
    requires all { reps.now.all ≡ true }
    ensures right { OnOk result (IsRightEntry (H.world shelf.old).files request.now inst.now
        problem.now number entry.now reps.now) }
    ensures taken { OnOk result (IsLogTaken (H.world shelf.old).files request.now number reps.now) }
    ensures stop { IfErr result (λ stop. IsEntryStop stop (H.world shelf.old).files request.now
        inst.now problem.now number entry.now reps.now
        (H.world shelf.old).faults (H.world shelf.new).faults) }
    ensures only_reads { OnlyReads (H.world shelf.old) (H.world shelf.new) }
{
    ended_log_lists_all();
    // Tells that the number of models is one that is taken.
    let _most = request.most();
    let name = log_name(alloc, request.base(), number)?;
    let models = reps.models.as_slice();
    let bounded = bounded_problem(alloc, inst, problem, &entry.costs, models)?;
    match take_ended(alloc, &bounded, name.as_str(), shelf) {
        Ok(()) => Ok(()),
        Err(stop) => Err(stop_of(number, stop)),
    }
}

// Takes a log that is an ended proof over a problem and logs nothing.
fn take_ended<H: Shelf>(
    alloc: Global,
    problem: &PbProblem,
    log: &str,
    shelf: &mut H,
) -> Result<(), LogStop>
    ensures ended { OnOk result (HasText (H.world shelf.old).files log.now
        (λ bytes. (length bytes < 2 ^ 62) × IsEndedProof problem.now [] bytes)) }
    ensures stop { IfErr result (λ stop. IsLogStop (IsWholeFault problem.now [])
        (IsLogFault problem.now []) log.now stop (H.world shelf.old).files
        (H.world shelf.old).faults (H.world shelf.new).faults) }
    ensures only_reads { OnlyReads (H.world shelf.old) (H.world shelf.new) }
{
    match Checker::new(alloc, problem, Items::new(alloc)) {
        Ok(mut checker) => take_log(alloc, &mut checker, log, shelf),
        Err(fault) => Err(LogStop::from(fault)),
    }
}

// Why the models of entry `number` aren't accepted, by why their log isn't taken.
fn stop_of(number: u64, stop: LogStop) -> ModelsStop
    ensures { result ≡ stop_of number stop }
{
    match stop {
        LogStop::Refused { line, why } => ModelsStop::Refused {
            entry: number,
            why: RepsWhy::Log { line, why },
        },
        LogStop::Large => ModelsStop::Large,
        LogStop::NoMemory => ModelsStop::NoMemory,
        LogStop::ShelfFailed => ModelsStop::ShelfFailed,
    }
}
