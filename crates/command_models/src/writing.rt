// Writing the models of all entries.
ghost use Rattle.std.specs.Prelude.{◌≡◌, IfErr, IsErrOf, OnErr, OnOk};
ghost use Rattle.scut_base.specs.Faults.{NoneFell, WritingFailed};
ghost use Rattle.scut_base.specs.Files.{IsPrefixOf, IsTouched, with_file};
ghost use Rattle.front_text.specs.ModelsText.{models_text};
ghost use Rattle.command_check_models.specs.Entries.{IsPosed};
ghost use Rattle.command_check_models.specs.Words.{models_name};
ghost use Rattle.command_models.specs.Gathering.{IsWritingStop};
ghost use Rattle.command_models.specs.Table.{AreWritten};

use crate::gathering::gather_all;
use command_base::write_lines;
use command_check_models::{ModelsRequest, models_name};
use front_set::Entry;
use front_text::{Reps, print_models};
use instance::Instance;
use pb_lin::PbProblem;
use proof_rules::RecordFault;
use scut_base::{Items, Shelf, ShelfFault};
use std::alloc::Global;

// Writes the logs of all entries, and then the text of their models.
pub(crate) fn write_all<H: Shelf>(
    alloc: Global,
    request: &ModelsRequest<'_>,
    inst: &Instance,
    entries: &[Entry],
    problem: &PbProblem,
    shelf: &mut H,
) -> Result<(), RecordFault>
    requires { IsPosed (H.world shelf.old).files request.now inst.now entries.now problem.now }
    ensures written { OnOk result (AreWritten (H.world shelf.old).files (H.world shelf.new).files
        request.now inst.now problem.now entries.now) }
    ensures stop { IfErr result (λ fault. IsWritingStop fault (H.world shelf.old).files
        (H.world shelf.new).files request.now inst.now problem.now entries.now
        (H.world shelf.old).faults (H.world shelf.new).faults) }
    ensures said { (H.world shelf.new).said ≡ (H.world shelf.old).said }
    ensures warned { (H.world shelf.new).warned ≡ (H.world shelf.old).warned }
    ensures later { NoneFell (H.world shelf.old).faults (H.world shelf.new).faults }
{
    let reps = gather_all(alloc, request, inst, entries, problem, shelf)?;
    match write_models(alloc, request.base(), reps.as_slice(), shelf) {
        Ok(()) => Ok(()),
        Err(ShelfFault::Failed) => Err(RecordFault::Failed),
        Err(ShelfFault::NoMemory) => Err(RecordFault::NoMemory),
    }
}

// Writes the text of all models.
fn write_models<H: Shelf>(
    alloc: Global,
    base: &str,
    reps: &[Reps],
    shelf: &mut H,
) -> Result<(), ShelfFault>
    ensures ok { OnOk result ((H.world shelf.new).files
        ≡ with_file (H.world shelf.old).files (models_name base.now) (models_text reps.now)) }
    ensures err { OnErr result (IsTouched (H.world shelf.old).files (H.world shelf.new).files
        (models_name base.now) (λ bytes. IsPrefixOf bytes (models_text reps.now))) }
    ensures failed { IsErrOf result ShelfFault.Failed → WritingFailed (H.world shelf.old).faults
        (H.world shelf.new).faults (models_name base.now) }
    ensures said { (H.world shelf.new).said ≡ (H.world shelf.old).said }
    ensures warned { (H.world shelf.new).warned ≡ (H.world shelf.old).warned }
    ensures later { NoneFell (H.world shelf.old).faults (H.world shelf.new).faults }
{
    let name = models_name(alloc, base)?;
    let text = Items::from_vec(print_models(alloc, reps)?);
    let mut lines = Items::new(alloc);
    lines.push(text)?;
    write_lines(shelf, name.as_str(), lines.as_slice())
}
