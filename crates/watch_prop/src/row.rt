// A list that contracts see as its elements, whatever room it keeps.
ghost use Rattle.std.specs.Prelude.{◌≡◌, ◌≢◌, ℕ, ◌<◌, ◌+◌, ◌-◌, ◌++◌, [], ◌∷◌, length, OnOk, OnErr, slice_index_or, slice_set, swap, Contains};

use scut_base::NoMemory;
use std::alloc::Global;
use std::marker::Model;

/// A list whose elements may be exchanged and taken out.
#[derive(Debug, Drop)]
pub struct Row<T> {
    items: Vec<T>,
}

impl<T> Model for Row<T> {
    ghost use Rattle.std.specs.Prelude.{List};

    ghost Value = { List T };

    ghost view = { λ a. a.items.items };
}

impl<T> Row<T> {
    /// The empty list. Takes no memory yet.
    pub fn new(alloc: Global) -> Row<T>
        ensures { result ≡ [] }
    {
        Row {
            items: Vec::new(alloc),
        }
    }

    /// The number of elements.
    pub fn len(&self) -> usize
        ensures { result ≡ length self.now }
    {
        self.items.len()
    }

    /// The elements.
    pub fn as_slice(&self) -> &[T]
        ensures { result.now ≡ self.now }
    {
        self.items.as_slice()
    }

    /// Puts an element at the end, in constant time on average.
    pub fn push(&mut self, item: T) -> Result<(), NoMemory>
    where
        T: Drop,
        ensures ok { OnOk result (self.new ≡ self.old ++ item ∷ []) }
        ensures err { OnErr result (self.new ≡ self.old) }
    {
        // Most lists of entries stay short: three entries fill the smallest block that is given out.
        if self.items.is_empty() {
            self.items.reserve_exact(3)?;
        }
        self.items.push(item)?;
        Ok(())
    }

    /// Exchanges two elements.
    pub fn swap(&mut self, first: usize, second: usize)
        requires first { first < length self.old }
        requires second { second < length self.old }
        ensures { self.new ≡ swap self.old first second }
    {
        let items = self.items.as_mut_slice();
        items.swap(first, second);
    }

    /// Takes an element away, and puts the last one in its place.
    pub fn swap_remove(&mut self, at: usize) -> T
        requires { at < length self.old }
        ensures len { length self.new + 1 ≡ length self.old }
        ensures moved { (d : T) → at + 1 < length self.old
            → slice_index_or self.new at d ≡ slice_index_or self.old (length self.old - 1) d }
        ensures others { (k : ℕ) (d : T) → k ≢ at → k + 1 < length self.old
            → slice_index_or self.new k d ≡ slice_index_or self.old k d }
    {
        self.items.swap_remove(at)
    }
}

impl<T: Copy> Row<T> {
    /// The element at a place.
    pub fn at(&self, at: usize) -> T
        requires { at < length self.now }
        ensures value { (d : T) → slice_index_or self.now at d ≡ result }
        ensures among { Contains self.now result }
    {
        self.items[at]
    }

    /// Writes the element at a place.
    pub fn set(&mut self, at: usize, item: T)
        requires { at < length self.old }
        ensures { self.new ≡ slice_set self.old at item }
    {
        self.items[at] = item;
    }
}
