// Why a step failed.
use proof_laws::Why;
use scut_base::NoMemory;
use thiserror::Error;

/// Why a line wasn't taken up.
#[derive(Clone, Copy, Debug, PartialEq, Eq, Error)]
pub enum StepFault {
    /// The line isn't legal: the first condition that fails.
    #[error("the line isn't legal")]
    Refused(Why),
    /// Memory was refused.
    #[error("memory was refused")]
    NoMemory,
}

impl From<NoMemory> for StepFault {
    ghost use Rattle.std.specs.Prelude.{◌≡◌};
    ghost use Rattle.proof_rules.specs.declared.fault.StepFault.TheVariants.{NoMemory};

    ghost from_gives = { λ _ e. e ≡ NoMemory };

    fn from(_: NoMemory) -> StepFault {
        StepFault::NoMemory
    }
}
