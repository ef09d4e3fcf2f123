// Why a stage ends before its work is done.
use crate::Status;
use crate::log_file::LineFault;
use instance::{BadKind, InstanceLimit, ReadFault};
use log_checker::{CheckFault, ListWhy};
use proof_laws::Why;
use scut_base::{NoMemory, ShelfFault};

/// Why an instance file isn't read.
#[derive(Clone, Copy, Debug, PartialEq, Eq)]
pub enum InputStop {
    /// It isn't in its grammar.
    Bad { line: u64, kind: BadKind },
    /// It passes a limit at this line.
    Limit { line: u64, which: InstanceLimit },
    /// It has too many bytes.
    Large,
    /// Memory was refused.
    NoMemory,
    /// A read failed.
    ShelfFailed,
}

/// Why a list isn't taken.
#[derive(Clone, Copy, Debug, PartialEq, Eq)]
pub enum ListStop {
    /// Its instance file isn't read.
    Input(InputStop),
    /// This entry is the first that is wrong; 0 stands for the first line.
    Refused { entry: u64, why: ListWhy },
    /// It has too many bytes.
    Large,
    /// Memory was refused.
    NoMemory,
    /// A read failed.
    ShelfFailed,
}

/// Why a log isn't taken.
#[derive(Clone, Copy, Debug, PartialEq, Eq)]
pub enum LogStop {
    /// This line is the first that is refused.
    Refused { line: u64, why: Why },
    /// It has too many bytes.
    Large,
    /// Memory was refused.
    NoMemory,
    /// A read failed.
    ShelfFailed,
}

impl From<InputStop> for Status {
    ghost use Rattle.std.specs.Prelude.{◌≡◌};
    ghost use Rattle.command_base.specs.Stops.{status_of_input};

    ghost from_gives = { λ stop s. s ≡ status_of_input stop };

    fn from(stop: InputStop) -> Status {
        match stop {
            InputStop::Bad { line, kind } => Status::BadInput { line, kind },
            InputStop::Limit { line, which } => Status::TooLarge { line, which },
            InputStop::Large => Status::TooLarge {
                line: 0,
                which: InstanceLimit::Bytes,
            },
            InputStop::NoMemory => Status::NoMemory,
            InputStop::ShelfFailed => Status::ShelfFailed,
        }
    }
}

impl From<ListStop> for Status {
    ghost use Rattle.std.specs.Prelude.{◌≡◌};
    ghost use Rattle.command_base.specs.Stops.{status_of_list};

    ghost from_gives = { λ stop s. s ≡ status_of_list stop };

    fn from(stop: ListStop) -> Status {
        match stop {
            ListStop::Input(stop) => Status::from(stop),
            ListStop::Refused { entry, why } => {
                Status::Refused(CheckFault::ListRefused { entry, why })
            }
            ListStop::Large => Status::TooLarge {
                line: 0,
                which: InstanceLimit::Bytes,
            },
            ListStop::NoMemory => Status::NoMemory,
            ListStop::ShelfFailed => Status::ShelfFailed,
        }
    }
}

impl From<LogStop> for Status {
    ghost use Rattle.std.specs.Prelude.{◌≡◌};
    ghost use Rattle.command_base.specs.Stops.{status_of_log};

    ghost from_gives = { λ stop s. s ≡ status_of_log stop };

    fn from(stop: LogStop) -> Status {
        match stop {
            LogStop::Refused { line, why } => Status::Refused(CheckFault::Refused { line, why }),
            LogStop::Large => Status::TooLarge {
                line: 0,
                which: InstanceLimit::Bytes,
            },
            LogStop::NoMemory => Status::NoMemory,
            LogStop::ShelfFailed => Status::ShelfFailed,
        }
    }
}

impl From<ShelfFault> for InputStop {
    ghost use Rattle.std.specs.Prelude.{◌≡◌};
    ghost use Rattle.command_base.specs.StopsFrom.{input_of_shelf};

    ghost from_gives = { λ fault s. s ≡ input_of_shelf fault };

    fn from(fault: ShelfFault) -> InputStop {
        match fault {
            ShelfFault::Failed => InputStop::ShelfFailed,
            ShelfFault::NoMemory => InputStop::NoMemory,
        }
    }
}

impl From<NoMemory> for InputStop {
    ghost use Rattle.std.specs.Prelude.{◌≡◌};
    ghost use Rattle.command_base.specs.declared.stops.InputStop.TheVariants.{NoMemory};

    ghost from_gives = { λ _ s. s ≡ NoMemory };

    fn from(_: NoMemory) -> InputStop {
        InputStop::NoMemory
    }
}

impl From<ReadFault> for InputStop {
    ghost use Rattle.std.specs.Prelude.{◌≡◌};
    ghost use Rattle.command_base.specs.StopsFrom.{input_of_reading};

    ghost from_gives = { λ fault s. s ≡ input_of_reading fault };

    fn from(fault: ReadFault) -> InputStop {
        match fault {
            ReadFault::Bad { line, kind } => InputStop::Bad { line, kind },
            ReadFault::Limit { line, which } => InputStop::Limit { line, which },
            ReadFault::NoMemory => InputStop::NoMemory,
        }
    }
}

impl From<ShelfFault> for ListStop {
    ghost use Rattle.std.specs.Prelude.{◌≡◌};
    ghost use Rattle.command_base.specs.StopsFrom.{list_of_shelf};

    ghost from_gives = { λ fault s. s ≡ list_of_shelf fault };

    fn from(fault: ShelfFault) -> ListStop {
        match fault {
            ShelfFault::Failed => ListStop::ShelfFailed,
            ShelfFault::NoMemory => ListStop::NoMemory,
        }
    }
}

impl From<ShelfFault> for LogStop {
    ghost use Rattle.std.specs.Prelude.{◌≡◌};
    ghost use Rattle.command_base.specs.StopsFrom.{log_of_shelf};

    ghost from_gives = { λ fault s. s ≡ log_of_shelf fault };

    fn from(fault: ShelfFault) -> LogStop {
        match fault {
            ShelfFault::Failed => LogStop::ShelfFailed,
            ShelfFault::NoMemory => LogStop::NoMemory,
        }
    }
}

impl From<NoMemory> for LogStop {
    ghost use Rattle.std.specs.Prelude.{◌≡◌};
    ghost use Rattle.command_base.specs.declared.stops.LogStop.TheVariants.{NoMemory};

    ghost from_gives = { λ _ s. s ≡ NoMemory };

    fn from(_: NoMemory) -> LogStop {
        LogStop::NoMemory
    }
}

impl From<LineFault> for LogStop {
    ghost use Rattle.std.specs.Prelude.{◌≡◌};
    ghost use Rattle.command_base.specs.StopsFrom.{log_of_line};

    ghost from_gives = { λ fault s. s ≡ log_of_line fault };

    fn from(fault: LineFault) -> LogStop {
        match fault {
            LineFault::Refused { line, why } => LogStop::Refused { line, why },
            LineFault::NoMemory => LogStop::NoMemory,
        }
    }
}
