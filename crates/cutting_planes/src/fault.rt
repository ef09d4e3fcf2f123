// Why tokens have no value.
use scut_base::NoMemory;
use thiserror::Error;

/// Why tokens have no value.
#[derive(Clone, Copy, Debug, PartialEq, Eq, Error)]
pub enum PolFault {
    /// This id names no line; 0 stands for a given constraint that isn't there.
    #[error("no line has this id")]
    NoSuchId(u64),
    /// A token finds too few constraints, or not exactly one is left.
    #[error("the stack is too short or too long")]
    Stack,
    /// A factor is below 1.
    #[error("a factor is below 1")]
    BadFactor,
    /// A sum or product would be too large, before terms cancel.
    #[error("the constraint is too large")]
    Overflow,
    /// Memory was refused.
    #[error("memory was refused")]
    NoMemory,
}

impl From<NoMemory> for PolFault {
    ghost use Rattle.std.specs.Prelude.{◌≡◌};
    ghost use Rattle.cutting_planes.specs.declared.fault.PolFault.TheVariants.{NoMemory};

    ghost from_gives = { λ _ e. e ≡ NoMemory };

    fn from(_: NoMemory) -> PolFault {
        PolFault::NoMemory
    }
}
