// Why a line isn't elaborated.

use proof_laws::Why;
use scut_base::NoMemory;
use thiserror::Error;

/// Why a line isn't elaborated.
#[derive(Clone, Copy, Debug, PartialEq, Eq, Error)]
pub enum ElabFault {
    /// The line isn't loosely legal.
    #[error("the line is refused")]
    Refused(Why),
    /// Memory was refused.
    #[error("out of memory")]
    NoMemory,
}

impl From<NoMemory> for ElabFault {
    ghost use Rattle.std.specs.Prelude.{◌≡◌};
    ghost use Rattle.command_elaborate.specs.declared.fault.ElabFault.TheVariants.{NoMemory};

    ghost from_gives = { λ _ e. e ≡ NoMemory };

    fn from(_refused: NoMemory) -> ElabFault {
        ElabFault::NoMemory
    }
}
