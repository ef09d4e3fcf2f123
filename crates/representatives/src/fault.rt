// Why models by entries aren't accepted.
use proof_laws::Why;
use scut_base::NoMemory;
use thiserror::Error;

/// What is wrong first with the models of an entry, in the order in which it is tried.
#[derive(Clone, Copy, Debug, PartialEq, Eq)]
pub enum RepsWhy {
    /// It is no text of models.
    Syntax,
    /// There are as many entries or models as there may not be.
    Count,
    /// A model is none of the instance.
    NotModel,
    /// A model's costs don't weakly dominate the vector.
    Costs,
    /// A model stands twice.
    Repeated,
    /// The log doesn't show that these are all: this line of it is the first that is refused.
    Log { line: u64, why: Why },
}

/// Why the models of an entry aren't taken.
#[derive(Clone, Copy, Debug, PartialEq, Eq, Error)]
pub enum RepsFault {
    /// This is the first that is wrong.
    #[error("the models are refused")]
    Refused(RepsWhy),
    /// Memory was refused.
    #[error("memory was refused")]
    NoMemory,
}

impl From<NoMemory> for RepsFault {
    ghost use Rattle.std.specs.Prelude.{◌≡◌};
    ghost use Rattle.representatives.specs.declared.fault.RepsFault.TheVariants.{NoMemory};

    ghost from_gives = { λ _ e. e ≡ NoMemory };

    fn from(_: NoMemory) -> RepsFault {
        RepsFault::NoMemory
    }
}
