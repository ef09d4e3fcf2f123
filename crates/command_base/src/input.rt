// Reading what a command stands on: its instance file, and its list.
ghost use Rattle.std.specs.Prelude.{◌≡◌, ◌<◌, ◌^◌, true, length, IfOk, IfErr};
ghost use Rattle.front_text.specs.Spelling.{Spells};
ghost use Rattle.instance.specs.ParetoFront.{AreProblemVectors};
ghost use Rattle.instance.specs.Shape.{IsWithinLimits};
ghost use Rattle.log_checker.specs.Accepted.{IsRightList};
ghost use Rattle.command_base.specs.Causes.{HasText};
ghost use Rattle.command_base.specs.Inputs.{IsInput, IsListed};
ghost use Rattle.command_base.specs.InstanceFile.{IsTextOf};
ghost use Rattle.command_base.specs.Stops.{IsInputStop, IsListStop, IsListedStop};
ghost use Rattle.command_base.specs.Views.{OnlyReads};

use crate::instance_file::{Format, read_text};
use crate::list_file::read_right_list;
use crate::whole_file::read_whole;
use crate::{InputStop, ListStop};
use front_set::Entry;
use instance::Instance;
use instance_normal::normalise;
use pb_lin::PbProblem;
use scut_base::{Items, Shelf};
use std::alloc::Global;

/// An instance, and its normal form.
#[derive(Debug, Drop)]
pub struct Input {
    pub inst: Instance,
    pub problem: PbProblem,
}

/// An instance with its normal form, and the right entries of a list.
#[derive(Debug, Drop)]
pub struct Listed {
    pub input: Input,
    pub entries: Items<Entry>,
}

/// The instance of a file, with its normal form; else the first fault of its text, or that the file is too large.
pub fn read_input<H: Shelf>(
    alloc: Global,
    format: Format,
    input: &str,
    shelf: &mut H,
) -> Result<Input, InputStop>
    ensures read { IfOk result (λ it. IsInput (H.world shelf.old).files format input.now
        it.inst it.problem) }
    ensures stop { IfErr result (λ stop. IsInputStop format input.now stop
        (H.world shelf.old).files (H.world shelf.old).faults (H.world shelf.new).faults) }
    ensures only_reads { OnlyReads (H.world shelf.old) (H.world shelf.new) }
{
    let inst = read_instance(alloc, format, input, shelf)?;
    match normalise(alloc, &inst) {
        Ok(problem) => Ok(Input { inst, problem }),
        Err(fault) => Err(InputStop::from(fault)),
    }
}

/// The same, and then the list of a file, if it is one of right entries; else its first fault, or that it is too large.
pub fn read_listed<H: Shelf>(
    alloc: Global,
    format: Format,
    input: &str,
    list: &str,
    shelf: &mut H,
) -> Result<Listed, ListStop>
    ensures read { IfOk result (λ it. IsListed (H.world shelf.old).files format input.now
        list.now it.input.inst it.input.problem it.entries) }
    ensures stop { IfErr result (λ stop. IsListedStop format input.now list.now stop
        (H.world shelf.old).files (H.world shelf.old).faults (H.world shelf.new).faults) }
    ensures only_reads { OnlyReads (H.world shelf.old) (H.world shelf.new) }
{
    match read_input(alloc, format, input, shelf) {
        Ok(input) => with_list(alloc, input, list, shelf),
        Err(stop) => Err(ListStop::Input(stop)),
    }
}

// This instance, with the list of a file.
fn with_list<H: Shelf>(
    alloc: Global,
    input: Input,
    list: &str,
    shelf: &mut H,
) -> Result<Listed, ListStop>
    ensures input { IfOk result (λ it. it.input ≡ input) }
    ensures listed { IfOk result (λ it. HasText (H.world shelf.old).files list.now
        (λ listed. (length listed < 2 ^ 32) × Spells listed true it.entries)) }
    ensures right { IfOk result (λ it. IsRightList input.inst it.entries) }
    ensures vectors { IfOk result (λ it. AreProblemVectors input.inst it.entries) }
    ensures stop { IfErr result (λ stop. IsListStop input.inst list.now stop
        (H.world shelf.old).files (H.world shelf.old).faults (H.world shelf.new).faults) }
    ensures only_reads { OnlyReads (H.world shelf.old) (H.world shelf.new) }
{
    match read_right_list(alloc, &input.inst, list, shelf) {
        Ok(found) => Ok(Listed {
            input,
            entries: found.entries,
        }),
        Err(stop) => Err(stop),
    }
}

/// The instance of a file; else the first fault of its text, or that the file is too large.
pub fn read_instance<H: Shelf>(
    alloc: Global,
    format: Format,
    input: &str,
    shelf: &mut H,
) -> Result<Instance, InputStop>
    ensures read { IfOk result (λ inst.
        HasText (H.world shelf.old).files input.now (IsTextOf format inst)) }
    ensures limits { IfOk result IsWithinLimits }
    ensures stop { IfErr result (λ stop. IsInputStop format input.now stop
        (H.world shelf.old).files (H.world shelf.old).faults (H.world shelf.new).faults) }
    ensures only_reads { OnlyReads (H.world shelf.old) (H.world shelf.new) }
{
    let Some(bytes) = read_whole(alloc, input, shelf)? else {
        return Err(InputStop::Large);
    };
    match read_text(alloc, format, &bytes) {
        Ok(inst) => {
            // Tells that the instance is within its limits.
            let _vars = inst.vars();
            Ok(inst)
        }
        Err(fault) => Err(InputStop::from(fault)),
    }
}
