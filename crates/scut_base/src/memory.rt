// Want of memory, and copies that may meet it.
ghost use Rattle.std.specs.Prelude.{◌≡◌, IfOk};

use std::alloc::{AllocError, AllocFailed, Global};
use thiserror::Error;

/// Memory was refused.
#[derive(Clone, Copy, Debug, PartialEq, Eq, Error)]
#[error("memory was refused")]
pub struct NoMemory;

impl From<AllocError> for NoMemory {
    fn from(_: AllocError) -> NoMemory {
        NoMemory
    }
}

impl<T: Drop> From<AllocFailed<T>> for NoMemory {
    fn from(_: AllocFailed<T>) -> NoMemory {
        NoMemory
    }
}

/// The value in a box. A value of many parts is one part there: a function that owns it past several
/// ways out is then proved in a fraction of the time.
pub fn boxed<T: Drop>(alloc: Global, value: T) -> Result<Box<T>, NoMemory>
    ensures { IfOk result (λ b. b.value ≡ value) }
{
    Ok(Box::new(alloc, value)?)
}

/// A value that can be copied, where there is memory for the copy.
pub trait Duplicate {
    /// A value equal to this one. Costs as much as the value is large.
    fn copy(&self, alloc: Global) -> Result<Self, NoMemory>
        ensures { IfOk result (λ copy. copy ≡ self.now) };
}

impl Duplicate for bool {
    fn copy(&self, _alloc: Global) -> Result<bool, NoMemory> {
        Ok(*self)
    }
}

impl Duplicate for u8 {
    fn copy(&self, _alloc: Global) -> Result<u8, NoMemory> {
        Ok(*self)
    }
}

impl Duplicate for u64 {
    fn copy(&self, _alloc: Global) -> Result<u64, NoMemory> {
        Ok(*self)
    }
}

impl Duplicate for i64 {
    fn copy(&self, _alloc: Global) -> Result<i64, NoMemory> {
        Ok(*self)
    }
}

impl Duplicate for i128 {
    fn copy(&self, _alloc: Global) -> Result<i128, NoMemory> {
        Ok(*self)
    }
}

impl<S: Duplicate + Drop, T: Duplicate + Drop> Duplicate for (S, T) {
    fn copy(&self, alloc: Global) -> Result<(S, T), NoMemory> {
        Ok((self.0.copy(alloc)?, self.1.copy(alloc)?))
    }
}
