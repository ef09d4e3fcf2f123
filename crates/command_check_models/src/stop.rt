// Why the models of entries aren't accepted.
use command_base::Status;
use instance::InstanceLimit;
use representatives::RepsWhy;
use scut_base::NoMemory;

/// Why the models of entries aren't accepted.
#[derive(Clone, Copy, Debug, PartialEq, Eq)]
pub(crate) enum ModelsStop {
    /// The models of this entry are the first that are wrong; 0 stands for the whole.
    Refused { entry: u64, why: RepsWhy },
    /// A file has too many bytes.
    Large,
    /// Memory was refused.
    NoMemory,
    /// A read failed.
    ShelfFailed,
}

impl From<NoMemory> for ModelsStop {
    ghost use Rattle.std.specs.Prelude.{◌≡◌};
    ghost use Rattle.command_check_models.specs.declared.stop.ModelsStop.TheVariants.{NoMemory};

    ghost from_gives = { λ _ s. s ≡ NoMemory };

    fn from(_: NoMemory) -> ModelsStop {
        ModelsStop::NoMemory
    }
}

impl From<ModelsStop> for Status {
    ghost use Rattle.std.specs.Prelude.{◌≡◌};
    ghost use Rattle.command_check_models.specs.Judging.{status_of_models};

    ghost from_gives = { λ stop s. s ≡ status_of_models stop };

    fn from(stop: ModelsStop) -> Status {
        match stop {
            ModelsStop::Refused { entry, why } => Status::ModelsRefused { entry, why },
            ModelsStop::Large => Status::TooLarge {
                line: 0,
                which: InstanceLimit::Bytes,
            },
            ModelsStop::NoMemory => Status::NoMemory,
            ModelsStop::ShelfFailed => Status::ShelfFailed,
        }
    }
}
