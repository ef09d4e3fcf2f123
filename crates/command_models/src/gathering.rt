// Gathering the models of entries one after another.
ghost use Rattle.std.specs.Prelude.{◌≡◌, IfOk, IfErr};
ghost use Rattle.scut_base.specs.Faults.{NoneFell};
ghost use Rattle.command_check_models.specs.Entries.{IsPosed};
ghost use Rattle.command_check_models.specs.Judging.{IsGivenEntry};
ghost use Rattle.command_models.specs.Gathering.{AreGathered, IsEntryGathered, IsEntryStop, IsGatheringStop};

use command_check_models::{ModelsRequest, log_name};
use front_set::Entry;
use front_text::Reps;
use instance::Instance;
use pb_lin::PbProblem;
use proof_rules::RecordFault;
use representative_search::gather;
use scut_base::{Items, NoMemory, Shelf};
use std::alloc::Global;

// The models of all entries, each with its log.
pub(crate) fn gather_all<H: Shelf>(
    alloc: Global,
    request: &ModelsRequest<'_>,
    inst: &Instance,
    entries: &[Entry],
    problem: &PbProblem,
    shelf: &mut H,
) -> Result<Items<Reps>, RecordFault>
    requires { IsPosed (H.world shelf.old).files request.now inst.now entries.now problem.now }
    ensures gathered { IfOk result (AreGathered (H.world shelf.old).files (H.world shelf.new).files
        request.now inst.now problem.now entries.now) }
    ensures stop { IfErr result (λ fault. IsGatheringStop fault (H.world shelf.old).files
        (H.world shelf.new).files request.now inst.now problem.now entries.now
        (H.world shelf.old).faults (H.world shelf.new).faults) }
    ensures said { (H.world shelf.new).said ≡ (H.world shelf.old).said }
    ensures warned { (H.world shelf.new).warned ≡ (H.world shelf.old).warned }
    ensures later { NoneFell (H.world shelf.old).faults (H.world shelf.new).faults }
{
    let mut all = Items::new(alloc);
    for at in 0..entries.len() {
        let number = at as u64 + 1;
        let reps = gather_entry(alloc, request, inst, &entries[at], problem, number, shelf)?;
        match all.push(reps) {
            Ok(()) => {}
            Err(NoMemory) => return Err(RecordFault::NoMemory),
        }
    }
    Ok(all)
}

// The models of entry `number`, with its log.
fn gather_entry<H: Shelf>(
    alloc: Global,
    request: &ModelsRequest<'_>,
    inst: &Instance,
    entry: &Entry,
    problem: &PbProblem,
    number: u64,
    shelf: &mut H,
) -> Result<Reps, RecordFault>
    requires given { IsGivenEntry inst.now problem.now entry.now }
    ensures gathered { IfOk result (IsEntryGathered (H.world shelf.old).files
        (H.world shelf.new).files request.now inst.now problem.now number entry.now) }
    ensures stop { IfErr result (λ fault. IsEntryStop fault (H.world shelf.old).files
        (H.world shelf.new).files request.now inst.now problem.now number entry.now
        (H.world shelf.old).faults (H.world shelf.new).faults) }
    ensures said { (H.world shelf.new).said ≡ (H.world shelf.old).said }
    ensures warned { (H.world shelf.new).warned ≡ (H.world shelf.old).warned }
    ensures later { NoneFell (H.world shelf.old).faults (H.world shelf.new).faults }
{
    let most = request.most();
    match log_name(alloc, request.base(), number) {
        Ok(name) => gather(
            alloc,
            shelf,
            name.as_str(),
            inst,
            problem,
            &entry.costs,
            most,
        ),
        Err(NoMemory) => Err(RecordFault::NoMemory),
    }
}
