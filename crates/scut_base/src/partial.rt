// A partial assignment, whose clearing costs what was set.
ghost use Rattle.std.specs.Prelude.{◌≡◌, ℕ, ◌-◌, ◌<◌, ◌≤◌, ◌++◌, not, None, Some, length, replicate, slice_index, slice_set, IfOk, OnOk, OnErr};
ghost use Rattle.scut_base.specs.Assignment.{partial_truth};
ghost use Rattle.scut_base.specs.Tracked.{IsTracked};

use crate::{Lit, NoMemory};
use std::alloc::Global;
use std::marker::Model;

/// The truth values of some of the variables 1 to `len`; the others are open. Contracts see it as
/// the list of these values, with none where a variable is open. Takes 10 bytes a variable.
#[derive(Debug, Drop)]
pub struct Partial {
    values: Vec<Option<bool>>,
    // Its first `count` numbers are the places of the set values, so that `clear` finds them.
    places: Vec<u64>,
    count: usize,
}

impl Model for Partial {
    ghost use Rattle.std.specs.Prelude.{List, Bool, Option};
    ghost use Rattle.scut_base.specs.Tracked.{IsTracked};

    ghost Value = { List (Option Bool) };

    ghost view = { λ a. a.values.items };

    ghost invariant = { λ a. IsTracked a.values.items a.places.items a.count };
}

impl Partial {
    /// All of `len` variables open. `NoMemory` where memory was refused. One pass over them.
    pub fn new(alloc: Global, len: u64) -> Result<Partial, NoMemory>
        ensures { IfOk result (λ a. a ≡ replicate len None) }
    {
        Ok(Partial {
            values: vec![in alloc; None; len as usize]?,
            places: vec![in alloc; 0; len as usize]?,
            count: 0,
        })
    }

    /// The number of variables, open ones included.
    pub fn len(&self) -> u64
        ensures { result ≡ length self.now }
    {
        self.values.len() as u64
    }

    /// Whether the literal is true, or `None` where its variable is open. Constant time.
    pub fn get(&self, lit: Lit) -> Option<bool>
        requires { lit.var ≤ length self.now }
        ensures { result ≡ partial_truth self.now lit }
    {
        match self.values[(lit.var() - 1) as usize] {
            Some(value) => Some(value != lit.is_neg()),
            None => None,
        }
    }

    /// Makes an open literal true. Constant time, and takes no memory.
    pub fn set(&mut self, lit: Lit)
        requires within { lit.var ≤ length self.old }
        requires open { partial_truth self.old lit ≡ None }
        ensures { self.new ≡ slice_set self.old (lit.var - 1) (Some (not lit.neg)) }
    {
        let place = lit.var() - 1;
        self.values[place as usize] = Some(!lit.is_neg());
        self.places[self.count] = place;
        self.count += 1;
    }

    /// Opens every variable. Costs what was set since the last call, whatever the length is.
    pub fn clear(&mut self)
        ensures { self.new ≡ replicate (length self.old) None }
    {
        open_listed(&mut self.values, &self.places, self.count);
        self.count = 0;
    }

    /// Makes room for variables up to `len`; the new ones are open. Does nothing where `len` is no
    /// larger than the length. After `NoMemory` nothing has changed.
    pub fn grow(&mut self, len: u64) -> Result<(), NoMemory>
        ensures ok { OnOk result (self.new ≡ self.old ++ replicate (len - length self.old) None) }
        ensures err { OnErr result (self.new ≡ self.old) }
    {
        let len = len as usize;
        if self.values.len() < len {
            make_room(&mut self.places, len)?;
            self.values.resize(len, None)?;
        }
        Ok(())
    }
}

// Makes the list at least so long; what it has stays.
fn make_room(places: &mut Vec<u64>, len: usize) -> Result<(), NoMemory>
    ensures room { OnOk result (len ≤ length places.new.items) }
    ensures longer { length places.old.items ≤ length places.new.items }
    ensures kept { (j : ℕ) → j < length places.old.items
        → slice_index places.new.items j ≡ slice_index places.old.items j }
{
    if places.len() < len {
        places.resize(len, 0)?;
    }
    Ok(())
}

// Opens the listed variables, which are all that are set.
fn open_listed(values: &mut [Option<bool>], places: &[u64], count: usize)
    requires { IsTracked values.old places.now count }
    ensures { values.new ≡ replicate (length values.old) None }
{
    for at in 0..count {
        values[places[at] as usize] = None;
    }
}
