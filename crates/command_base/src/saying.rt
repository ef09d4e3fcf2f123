// What a command says at its end.
ghost use Rattle.command_base.specs.Saying.{Says};

use crate::Status;
use crate::messages::say_of;
use scut_base::Shelf;
use std::alloc::Global;

/// Says the line of a status, and answers it; else the status of the fault.
pub fn say<H: Shelf>(alloc: Global, status: Status, shelf: &mut H) -> Status
    ensures { Says status result (H.world shelf.old) (H.world shelf.new) }
{
    match say_of(alloc, status, shelf) {
        Ok(()) => status,
        Err(fault) => Status::from(fault),
    }
}
