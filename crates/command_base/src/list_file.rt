// Reading and checking a list file.
ghost use Rattle.std.specs.Prelude.{◌<◌, ◌^◌, true, length, IfOk, IfErr};
ghost use Rattle.front_text.specs.Spelling.{Spells};
ghost use Rattle.instance.specs.ParetoFront.{AreProblemVectors};
ghost use Rattle.log_checker.specs.Accepted.{IsRightList};
ghost use Rattle.command_base.specs.Causes.{HasText};
ghost use Rattle.command_base.specs.Stops.{IsListStop};
ghost use Rattle.command_base.specs.Views.{OnlyReads};

use crate::ListStop;
use crate::whole_file::read_whole;
use front_text::FrontList;
use instance::Instance;
use log_checker::{CheckFault, check_list};
use scut_base::Shelf;
use std::alloc::Global;

/// The list of a file, where it is one of right entries; else its first fault, or that the file is too large.
pub(crate) fn read_right_list<H: Shelf>(
    alloc: Global,
    inst: &Instance,
    list: &str,
    shelf: &mut H,
) -> Result<FrontList, ListStop>
    ensures read { IfOk result (λ found. HasText (H.world shelf.old).files list.now
        (λ listed. (length listed < 2 ^ 32) × Spells listed true found.entries)) }
    ensures right { IfOk result (λ found. IsRightList inst.now found.entries) }
    ensures vectors { IfOk result (λ found. AreProblemVectors inst.now found.entries) }
    ensures stop { IfErr result (λ stop. IsListStop inst.now list.now stop
        (H.world shelf.old).files (H.world shelf.old).faults (H.world shelf.new).faults) }
    ensures only_reads { OnlyReads (H.world shelf.old) (H.world shelf.new) }
{
    let Some(bytes) = read_whole(alloc, list, shelf)? else {
        return Err(ListStop::Large);
    };
    match check_list(alloc, inst, &bytes) {
        Ok(found) => Ok(found),
        Err(CheckFault::ListRefused { entry, why }) => Err(ListStop::Refused { entry, why }),
        Err(_) => Err(ListStop::NoMemory),
    }
}
