// A list as a value, and why a text isn't read as one.
use front_set::Entry;
use scut_base::{Duplicate, Items, NoMemory};
use std::alloc::Global;
use thiserror::Error;

/// A list of entries. They may have different lengths.
#[derive(Debug, Drop)]
pub struct FrontList {
    /// Whether it claims to be the whole front.
    pub complete: bool,
    /// The entries, in the order of the text.
    pub entries: Items<Entry>,
}

impl Duplicate for FrontList {
    fn copy(&self, alloc: Global) -> Result<FrontList, NoMemory> {
        Ok(FrontList {
            complete: self.complete,
            entries: self.entries.copy(alloc)?,
        })
    }
}

/// Why a text was not read as a list.
#[derive(Clone, Copy, Debug, PartialEq, Eq, Error)]
pub enum ListFault {
    /// It is the text of no list, and goes wrong at this entry, counted from 1: its line of costs
    /// or of values is wrong or missing, or it is more than the first line counts. It is 0 where
    /// the first line is wrong.
    #[error("the text is that of no list")]
    Syntax { entry: u64 },
    /// Memory was refused.
    #[error("memory was refused")]
    NoMemory,
}

impl From<NoMemory> for ListFault {
    ghost use Rattle.std.specs.Prelude.{◌≡◌};
    ghost use Rattle.front_text.specs.declared.list.ListFault.TheVariants.{NoMemory};

    ghost from_gives = { λ _ e. e ≡ NoMemory };

    fn from(_: NoMemory) -> ListFault {
        ListFault::NoMemory
    }
}
