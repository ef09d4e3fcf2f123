// A list that contracts see as its elements, whatever room it keeps.
ghost use Rattle.std.specs.Prelude.{◌≡◌, ◌<◌, ◌≤◌, ◌++◌, [], ◌∷◌, ◌↔◌, length, take, IsTrue, IsOk, IfOk, OnOk, OnErr, MatchOption, slice_get, slice_set};

use crate::{Duplicate, NoMemory};
use std::alloc::Global;
use std::cmp::Ordering;
use std::marker::Model;

/// A list that grows at its end. It is made of a `Vec` and gives it back without taking memory.
#[derive(Debug, Drop)]
pub struct Items<T> {
    items: Vec<T>,
}

impl<T> Model for Items<T> {
    ghost use Rattle.std.specs.Prelude.{List};

    ghost Value = { List T };

    ghost view = { λ a. a.items.items };
}

impl<T> Items<T> {
    /// The empty list. Takes no memory yet.
    pub fn new(alloc: Global) -> Items<T>
        ensures { result ≡ [] }
    {
        Items {
            items: Vec::new(alloc),
        }
    }

    /// The empty list, with room for so many elements. `NoMemory` where memory was refused.
    pub fn with_capacity(alloc: Global, capacity: usize) -> Result<Items<T>, NoMemory>
        ensures { IfOk result (λ list. list ≡ []) }
    {
        Ok(Items {
            items: Vec::with_capacity(alloc, capacity)?,
        })
    }

    /// The list of a `Vec`'s elements.
    pub fn from_vec(items: Vec<T>) -> Items<T>
        ensures { result ≡ items.items }
    {
        Items { items }
    }

    /// The `Vec` of the elements.
    pub fn into_vec(self) -> Vec<T>
        ensures { result.items ≡ self }
    {
        self.items
    }

    /// The elements in order.
    pub fn as_slice(&self) -> &[T]
        ensures { result.now ≡ self.now }
    {
        self.items.as_slice()
    }

    /// The number of elements.
    pub fn len(&self) -> usize
        ensures { result ≡ length self.now }
    {
        self.items.len()
    }

    /// Whether there are no elements.
    pub fn is_empty(&self) -> bool
        ensures { IsTrue result ↔ (self.now ≡ []) }
    {
        self.items.is_empty()
    }

    /// The element at a place, counted from 0; `None` past the end.
    pub fn get(&self, at: usize) -> Option<&T>
        ensures { MatchOption result (length self.now ≤ at)
            (λ x. slice_get self.now at ≡ Some x.now) }
    {
        self.items.get(at)
    }

    /// The element at a place below the length.
    pub fn at(&self, at: usize) -> &T
        requires { at < length self.now }
        ensures { slice_get self.now at ≡ Some result.now }
    {
        &self.items[at]
    }

    /// Puts an element in place of the one at a place below the length.
    pub fn set(&mut self, at: usize, item: T)
    where
        T: Drop,
        requires { at < length self.old }
        ensures { self.new ≡ slice_set self.old at item }
    {
        self.items[at] = item;
    }

    /// Makes room for so many elements more, so that to put them at the end takes no memory. The
    /// elements stay, also after `NoMemory`.
    pub fn reserve(&mut self, more: usize) -> Result<(), NoMemory>
        ensures { self.new ≡ self.old }
    {
        self.items.reserve(more)?;
        Ok(())
    }

    /// Keeps the first elements, as many as there are up to `len`. Takes no memory and gives none
    /// back.
    pub fn truncate(&mut self, len: usize)
    where
        T: Drop,
        ensures { self.new ≡ take len self.old }
    {
        self.items.truncate(len);
    }

    /// Puts an element at the end, in constant time on average. After `NoMemory` nothing has changed.
    pub fn push(&mut self, item: T) -> Result<(), NoMemory>
    where
        T: Drop,
        ensures ok { OnOk result (self.new ≡ self.old ++ item ∷ []) }
        ensures err { OnErr result (self.new ≡ self.old) }
    {
        self.items.push(item)?;
        Ok(())
    }

    /// Puts copies of these elements at the end, or none after `NoMemory`. Where there are none no
    /// memory is asked for.
    pub fn extend_from_slice(&mut self, more: &[T]) -> Result<(), NoMemory>
    where
        T: Copy + Drop,
        ensures ok { OnOk result (self.new ≡ self.old ++ more.now) }
        ensures err { OnErr result (self.new ≡ self.old) }
        ensures nothing { more.now ≡ [] → IsOk result }
    {
        // A caller that has nothing to put must not meet want of memory.
        if more.is_empty() {
            return Ok(());
        }
        self.items.reserve(more.len())?;
        self.items.extend_from_slice(more)?;
        Ok(())
    }

    /// Takes the last element off; `None` where there is none. Takes no memory and gives none back.
    pub fn pop(&mut self) -> Option<T>
        ensures { MatchOption result ((self.old ≡ []) × (self.new ≡ []))
            (λ x. self.old ≡ self.new ++ x ∷ []) }
    {
        self.items.pop()
    }
}

impl<T: Duplicate + Drop> Duplicate for Items<T> {
    fn copy(&self, alloc: Global) -> Result<Items<T>, NoMemory> {
        let mut items = Vec::with_capacity(alloc, self.items.len())?;
        for item in self.items.iter() {
            items.push(item.copy(alloc)?)?;
        }
        Ok(Items { items })
    }
}

impl<T: PartialEq> PartialEq for Items<T> {
    ghost use Rattle.std.specs.Cmp.Lexicographic.{pointwise, lists_per};

    ghost eq = { pointwise T.eq };

    ghost laws = { lists_per T.laws };

    fn eq(&self, other: &Items<T>) -> bool {
        self.items == other.items
    }
}

impl<T: Eq> Eq for Items<T> {
    ghost use Rattle.std.proofs.lemmas.Cmp.{lists_equiv};

    ghost laws = { lists_equiv T.Eq.laws };
}

impl<T: PartialOrd> PartialOrd for Items<T> {
    ghost use Rattle.std.specs.Cmp.Lexicographic.{slice_partial_cmp, lists_po};

    ghost partial_cmp = { slice_partial_cmp T.partial_cmp };

    ghost laws = { lists_po T.PartialOrd.laws };

    fn partial_cmp(&self, other: &Items<T>) -> Option<Ordering> {
        self.items.partial_cmp(&other.items)
    }
}

impl<T: Ord> Ord for Items<T> {
    ghost use Rattle.std.specs.Cmp.Lexicographic.{slice_cmp, lists_total, lists_agrees, lists_ties};

    ghost cmp = { slice_cmp T.cmp };

    ghost total = { lists_total T.total };

    ghost matches_partial_cmp = { lists_agrees T.matches_partial_cmp };

    ghost matches_eq = { lists_ties T.cmp T.matches_eq };

    fn cmp(&self, other: &Items<T>) -> Ordering {
        self.items.cmp(&other.items)
    }
}
