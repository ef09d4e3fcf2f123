// How a run ends.
ghost use Rattle.std.specs.Prelude.{◌≡◌};
ghost use Rattle.command_base.specs.Statuses.{status_number};

use instance::{BadKind, InstanceLimit};
use log_checker::CheckFault;
use proof_rules::RecordFault;
use representatives::RepsWhy;
use scut_base::{NoMemory, ShelfFault};

/// How a run ends.
#[derive(Clone, Copy, Debug, PartialEq, Eq)]
pub enum Status {
    /// A file was written.
    Done,
    /// The whole front was written; it has `size` vectors.
    Complete { size: u64 },
    /// So many clauses were learned as may be; a list of `size` models was written.
    Incomplete { size: u64, learned: u64 },
    /// A log was written that keeps so many of the lines of another.
    Trimmed { kept: u64, total: u64 },
    /// The models of so many entries of a list were written.
    Models { entries: u64 },
    /// List and log are accepted.
    Accepted,
    /// The list or the log isn't accepted.
    Refused(CheckFault),
    /// The models by entries aren't accepted; entry 0 stands for the whole.
    ModelsRefused { entry: u64, why: RepsWhy },
    /// The words are no command.
    Usage,
    /// The instance file isn't in its grammar.
    BadInput { line: u64, kind: BadKind },
    /// The instance passes a limit; line 0 stands for the whole file.
    TooLarge { line: u64, which: InstanceLimit },
    /// The log has as many lines as it may.
    LogFull { lines: u64 },
    /// Memory was refused.
    NoMemory,
    /// A file or a stream failed.
    ShelfFailed,
}

impl Status {
    /// The number with which the program ends.
    pub fn number(&self) -> u8
        ensures { result ≡ status_number self.now }
    {
        match self {
            Status::Done
            | Status::Complete { .. }
            | Status::Trimmed { .. }
            | Status::Models { .. }
            | Status::Accepted => 0,
            Status::Incomplete { .. } => 10,
            Status::Refused(_) | Status::ModelsRefused { .. } => 11,
            Status::Usage => 64,
            Status::BadInput { .. } => 65,
            Status::TooLarge { .. } => 66,
            Status::LogFull { .. } => 67,
            Status::NoMemory => 71,
            Status::ShelfFailed => 74,
        }
    }
}

impl From<NoMemory> for Status {
    ghost use Rattle.std.specs.Prelude.{◌≡◌};
    ghost use Rattle.command_base.specs.declared.status.Status.TheVariants.{NoMemory};

    ghost from_gives = { λ _ s. s ≡ NoMemory };

    fn from(_: NoMemory) -> Status {
        Status::NoMemory
    }
}

impl From<ShelfFault> for Status {
    ghost use Rattle.command_base.specs.Statuses.{status_of_shelf};
    ghost use Rattle.std.specs.Prelude.{◌≡◌};

    ghost from_gives = { λ fault s. s ≡ status_of_shelf fault };

    fn from(fault: ShelfFault) -> Status {
        match fault {
            ShelfFault::Failed => Status::ShelfFailed,
            ShelfFault::NoMemory => Status::NoMemory,
        }
    }
}

impl From<RecordFault> for Status {
    ghost use Rattle.command_base.specs.Statuses.{status_of_recording};
    ghost use Rattle.std.specs.Prelude.{◌≡◌};

    ghost from_gives = { λ fault s. s ≡ status_of_recording fault };

    fn from(fault: RecordFault) -> Status {
        match fault {
            RecordFault::Failed => Status::ShelfFailed,
            RecordFault::Full => Status::LogFull { lines: 1 << 61 },
            RecordFault::NoMemory => Status::NoMemory,
        }
    }
}
