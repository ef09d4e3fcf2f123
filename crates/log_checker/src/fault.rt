// Why a list or a log isn't accepted.
use proof_laws::Why;
use scut_base::NoMemory;
use thiserror::Error;

/// What is wrong with an entry of a list.
#[derive(Clone, Copy, Debug, PartialEq, Eq)]
pub enum ListWhy {
    /// It isn't the text of an entry, or of the first line.
    Syntax,
    /// Its assignment is no model of the instance.
    NotModel,
    /// Its costs aren't those of its model.
    Costs,
    /// It doesn't come after the entry before in lexicographic order.
    Order,
    /// An earlier entry weakly dominates it, or the reverse.
    Comparable,
    /// The list doesn't claim to be complete.
    NotComplete,
}

/// Why a list and a log aren't accepted.
#[derive(Clone, Copy, Debug, PartialEq, Eq, Error)]
pub enum CheckFault {
    /// This line of the log, counted from 1, is the first that is refused.
    #[error("a line of the log is refused")]
    Refused { line: u64, why: Why },
    /// This entry of the list, counted from 1, is the first that is wrong; 0 stands for the first
    /// line.
    #[error("the list is refused")]
    ListRefused { entry: u64, why: ListWhy },
    /// Memory was refused.
    #[error("memory was refused")]
    NoMemory,
}

impl From<NoMemory> for CheckFault {
    ghost use Rattle.std.specs.Prelude.{◌≡◌};
    ghost use Rattle.log_checker.specs.declared.fault.CheckFault.TheVariants.{NoMemory};

    ghost from_gives = { λ _ e. e ≡ NoMemory };

    fn from(_: NoMemory) -> CheckFault {
        CheckFault::NoMemory
    }
}
