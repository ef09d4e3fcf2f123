// The outside as a program sees it: files by name, standard output and standard error.
ghost use Rattle.std.specs.Prelude.{◌≡◌, ◌<◌, ◌≤◌, [], length, IfOk, OnOk, OnErr, IsSome};
ghost use Rattle.scut_base.specs.Files.{content, with_file, with_appended, IsReadAt, followed, IsPartlyAppended, IsPartlyFollowed, IsTouched, IsTold};
ghost use Rattle.scut_base.specs.Faults.{HasCause};
ghost use Rattle.scut_base.specs.World.{World};

use std::alloc::{AllocError, AllocFailed};
use thiserror::Error;

/// A kind of call of a shelf.
#[derive(Clone, Copy, Debug, PartialEq, Eq)]
pub enum ShelfCall {
    Read,
    Begin,
    Append,
    Say,
    Warn,
}

/// Why a call of a shelf failed.
#[derive(Clone, Copy, Debug, PartialEq, Eq, Error)]
pub enum ShelfFault {
    /// The outside refused; the count of this kind of call and this name rose.
    #[error("a file or a stream failed")]
    Failed,
    /// Memory was refused.
    #[error("memory was refused")]
    NoMemory,
}

impl From<AllocError> for ShelfFault {
    ghost use Rattle.std.specs.Prelude.{◌≡◌};
    ghost use Rattle.scut_base.specs.declared.shelf.ShelfFault.TheVariants.{NoMemory};

    ghost from_gives = { λ _ e. e ≡ NoMemory };

    fn from(_: AllocError) -> ShelfFault {
        ShelfFault::NoMemory
    }
}

impl<T: Drop> From<AllocFailed<T>> for ShelfFault {
    ghost use Rattle.std.specs.Prelude.{◌≡◌};
    ghost use Rattle.scut_base.specs.declared.shelf.ShelfFault.TheVariants.{NoMemory};

    ghost from_gives = { λ _ e. e ≡ NoMemory };

    fn from(_: AllocFailed<T>) -> ShelfFault {
        ShelfFault::NoMemory
    }
}

impl From<crate::NoMemory> for ShelfFault {
    ghost use Rattle.std.specs.Prelude.{◌≡◌};
    ghost use Rattle.scut_base.specs.declared.shelf.ShelfFault.TheVariants.{NoMemory};

    ghost from_gives = { λ _ e. e ≡ NoMemory };

    fn from(_: crate::NoMemory) -> ShelfFault {
        ShelfFault::NoMemory
    }
}

/// Files by name, and what is put out. Different names are different files.
pub trait Shelf {
    /// What it tells: the files, what was said and what was warned, each where it is told, and how
    /// often each kind of call failed at each name. No count ever falls.
    ghost world: { Self → World };

    /// Copies bytes of a file from a place on and answers how many; 0 exactly at or past its end. A
    /// caller asks again for more: fewer than there is room for may come at any place.
    fn read_at(&mut self, name: &str, at: u64, into: &mut [u8]) -> Result<usize, ShelfFault>
        requires { 0 < length into.old }
        ensures bound { IfOk result (λ n. n ≤ length into.old) }
        ensures bytes { IfOk result (λ n. IsReadAt (world self.old).files name.now at n into.new) }
        ensures files { (world self.new).files ≡ (world self.old).files }
        ensures said { (world self.new).said ≡ (world self.old).said }
        ensures warned { (world self.new).warned ≡ (world self.old).warned }
        ensures cause { HasCause ShelfCall.Read name.now
            (world self.old).faults (world self.new).faults result };

    /// Makes the file anew, empty. After a fault it is as before or empty.
    fn begin(&mut self, name: &str) -> Result<(), ShelfFault>
        ensures begun { OnOk result ((world self.new).files ≡ with_file
            (world self.old).files name.now []) }
        ensures fault { OnErr result
            (IsTouched (world self.old).files (world self.new).files name.now
            (λ bytes. bytes ≡ [])) }
        ensures said { (world self.new).said ≡ (world self.old).said }
        ensures warned { (world self.new).warned ≡ (world self.old).warned }
        ensures cause { HasCause ShelfCall.Begin name.now
            (world self.old).faults (world self.new).faults result };

    /// Puts a piece after the bytes of a file that is there. After a fault a prefix of it was put.
    fn append(&mut self, name: &str, piece: &[u8]) -> Result<(), ShelfFault>
        requires { IsTold (world self.old).files
            → IsSome (content (world self.old).files name.now) }
        ensures appended { OnOk result
            ((world self.new).files ≡ with_appended (world self.old).files name.now piece.now) }
        ensures fault { OnErr result
            (IsPartlyAppended (world self.old).files (world self.new).files name.now piece.now) }
        ensures said { (world self.new).said ≡ (world self.old).said }
        ensures warned { (world self.new).warned ≡ (world self.old).warned }
        ensures cause { HasCause ShelfCall.Append name.now
            (world self.old).faults (world self.new).faults result };

    /// Puts a piece out. After a fault a prefix of it was put out.
    fn say(&mut self, piece: &[u8]) -> Result<(), ShelfFault>
        ensures said { OnOk result ((world self.new).said ≡ followed
            (world self.old).said piece.now) }
        ensures fault { OnErr result
            (IsPartlyFollowed (world self.old).said (world self.new).said piece.now) }
        ensures files { (world self.new).files ≡ (world self.old).files }
        ensures warned { (world self.new).warned ≡ (world self.old).warned }
        ensures cause { HasCause ShelfCall.Say [] (world self.old).faults
            (world self.new).faults result };

    /// Puts a piece out as a warning. After a fault a prefix of it was put out.
    fn warn(&mut self, piece: &[u8]) -> Result<(), ShelfFault>
        ensures warned { OnOk result ((world self.new).warned ≡ followed
            (world self.old).warned piece.now) }
        ensures fault { OnErr result
            (IsPartlyFollowed (world self.old).warned (world self.new).warned piece.now) }
        ensures files { (world self.new).files ≡ (world self.old).files }
        ensures said { (world self.new).said ≡ (world self.old).said }
        ensures cause { HasCause ShelfCall.Warn [] (world self.old).faults
            (world self.new).faults result };
}
