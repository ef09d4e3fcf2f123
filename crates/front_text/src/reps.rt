// The models of an entry, and why a text isn't read.
use scut_base::{Assignment, Items, NoMemory};
use thiserror::Error;

/// Representatives: models for one vector of a list.
#[derive(Debug, Drop)]
pub struct Reps {
    /// Whether these are to be all models that serve the vector.
    pub all: bool,
    /// The models, in the order of the text.
    pub models: Items<Assignment>,
}

/// Why a text was not read as one of models.
#[derive(Clone, Copy, Debug, PartialEq, Eq, Error)]
pub enum ModelsFault {
    /// It is no such text, and goes wrong at this entry, counted from 1: its first line or a line of one of its models is wrong or
    /// missing, or it is more than the first line counts. It is 0 where the first line is wrong.
    #[error("the text is that of no models")]
    Syntax { entry: u64 },
    /// Memory was refused.
    #[error("memory was refused")]
    NoMemory,
}

impl From<NoMemory> for ModelsFault {
    ghost use Rattle.std.specs.Prelude.{◌≡◌};
    ghost use Rattle.front_text.specs.declared.reps.ModelsFault.TheVariants.{NoMemory};

    ghost from_gives = { λ _ e. e ≡ NoMemory };

    fn from(_: NoMemory) -> ModelsFault {
        ModelsFault::NoMemory
    }
}
