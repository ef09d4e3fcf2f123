// Why a constraint wasn't made.
use scut_base::NoMemory;
use thiserror::Error;

/// Why a constraint wasn't made.
#[derive(Clone, Copy, Debug, PartialEq, Eq, Error)]
pub enum LinFault {
    /// It would be too large.
    #[error("the constraint is too large")]
    Overflow,
    /// Memory was refused.
    #[error("memory was refused")]
    NoMemory,
}

impl From<NoMemory> for LinFault {
    ghost use Rattle.std.specs.Prelude.{◌≡◌};
    ghost use Rattle.pb_lin.specs.declared.fault.LinFault.TheVariants.{NoMemory};

    ghost from_gives = { λ _ e. e ≡ NoMemory };

    fn from(_: NoMemory) -> LinFault {
        LinFault::NoMemory
    }
}
