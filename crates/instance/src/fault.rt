// The limits of instances, and what a reader of an instance answers where it refuses one.
use scut_base::NoMemory;
use thiserror::Error;

/// The largest variable.
pub const MAX_VARS: u64 = 1 << 24;

/// The largest number of objectives.
pub const MAX_OBJECTIVES: usize = 64;

/// The largest number that a file may hold, and the largest sum of the magnitudes of an objective, or
/// of a row and its bound: so each sum under an assignment fits an `i64`, and so does its negation.
pub const MAX_MAGNITUDE: u64 = (1 << 63) - 1;

/// A limit on instances.
#[derive(Clone, Copy, Debug, PartialEq, Eq)]
pub enum InstanceLimit {
    /// The file has 2^32 bytes or more.
    Bytes,
    /// A variable is above `MAX_VARS`, or above what a command takes.
    Vars,
    /// The magnitudes of an objective sum above `MAX_MAGNITUDE`.
    Weights,
    /// The magnitudes of a row and its bound sum above `MAX_MAGNITUDE`.
    Row,
    /// There are more than `MAX_OBJECTIVES` objectives.
    Objectives,
}

/// What is wrong at a place of an instance file.
#[derive(Clone, Copy, Debug, PartialEq, Eq)]
pub enum BadKind {
    UnknownLine,
    ObjectiveIndex,
    WeightExpected,
    LiteralExpected,
    ZeroMissing,
    TextAfterZero,
    NumberTooWide,
    TermExpected,
    RelationExpected,
    BoundExpected,
    SemicolonMissing,
    Product,
    ObjectiveAfterConstraint,
}

/// Why a place of an instance file was refused.
#[derive(Clone, Copy, Debug, PartialEq, Eq, Error)]
pub enum PlaceFault {
    /// What stands there isn't in the grammar.
    #[error("what stands here is not in the grammar")]
    Bad(BadKind),
    /// It passes a limit.
    #[error("the instance is too large from here on")]
    Limit(InstanceLimit),
    /// Memory was refused.
    #[error("memory was refused")]
    NoMemory,
}

impl PlaceFault {
    ghost use Rattle.std.specs.Prelude.{◌≡◌};
    ghost use Rattle.instance.specs.Reading.{at_line};

    /// The fault with the line of its place, counted from 1.
    pub fn at_line(self, line: u64) -> ReadFault
        ensures { result ≡ at_line line self }
    {
        match self {
            PlaceFault::Bad(kind) => ReadFault::Bad { line, kind },
            PlaceFault::Limit(which) => ReadFault::Limit { line, which },
            PlaceFault::NoMemory => ReadFault::NoMemory,
        }
    }
}

impl From<NoMemory> for PlaceFault {
    ghost use Rattle.std.specs.Prelude.{◌≡◌};
    ghost use Rattle.instance.specs.declared.fault.PlaceFault.TheVariants.{NoMemory};

    ghost from_gives = { λ _ e. e ≡ NoMemory };

    fn from(_: NoMemory) -> PlaceFault {
        PlaceFault::NoMemory
    }
}

/// Why an instance file was refused. Lines are counted from 1.
#[derive(Clone, Copy, Debug, PartialEq, Eq, Error)]
pub enum ReadFault {
    /// The text isn't in the grammar.
    #[error("the text is not in the grammar")]
    Bad { line: u64, kind: BadKind },
    /// The text passes a limit.
    #[error("the instance is too large")]
    Limit { line: u64, which: InstanceLimit },
    /// Memory was refused.
    #[error("memory was refused")]
    NoMemory,
}

impl From<NoMemory> for ReadFault {
    ghost use Rattle.std.specs.Prelude.{◌≡◌};
    ghost use Rattle.instance.specs.declared.fault.ReadFault.TheVariants.{NoMemory};

    ghost from_gives = { λ _ e. e ≡ NoMemory };

    fn from(_: NoMemory) -> ReadFault {
        ReadFault::NoMemory
    }
}
