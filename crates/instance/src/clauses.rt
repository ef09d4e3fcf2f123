// The clauses of an instance.
ghost use Rattle.std.specs.Prelude.{◌≡◌, ◌<◌, ◌≤◌, ◌↔◌, ◌++◌, [], ◌∷◌, Some, IsTrue, length, slice_get, slice_index, slice_range, OnOk, OnErr};

use scut_base::{Duplicate, Lit, NoMemory};
use std::alloc::Global;
use std::marker::Model;

/// A list of clauses, of 2^32 - 1 literals at most in all. Takes 8 bytes for each literal and 4 for
/// each clause: an instance may have millions of short ones.
#[derive(Debug, Drop)]
pub struct Clauses {
    // The literals of all clauses, one clause after another.
    lits: Vec<Lit>,
    // For each clause the place in `lits` behind its last literal.
    ends: Vec<u32>,
}

impl Model for Clauses {
    ghost use Rattle.std.specs.Prelude.{List, length};
    ghost use Rattle.scut_base.specs.Literal.{Literal};
    ghost use Rattle.instance.specs.Clauses.{AreEnds, clauses_of};

    ghost Value = { List (List Literal) };

    ghost view = { λ c. clauses_of c.lits.items c.ends.items };

    ghost invariant = { λ c. AreEnds (length c.lits.items) 0 c.ends.items };
}

impl Clauses {
    /// No clauses. Takes no memory yet.
    pub fn new(alloc: Global) -> Clauses
        ensures { result ≡ [] }
    {
        Clauses {
            lits: Vec::new(alloc),
            ends: Vec::new(alloc),
        }
    }

    /// The number of clauses.
    pub fn len(&self) -> usize
        ensures { result ≡ length self.now }
    {
        self.ends.len()
    }

    /// Whether there are no clauses.
    pub fn is_empty(&self) -> bool
        ensures { IsTrue result ↔ (self.now ≡ []) }
    {
        self.len() == 0
    }

    /// The clause at a place below the length, counted from 0, in constant time.
    pub fn clause(&self, at: usize) -> &[Lit]
        requires { at < length self.now }
        ensures { slice_get self.now at ≡ Some result.now }
    {
        let start = start_of(self.ends.as_slice(), at);
        between(self.lits.as_slice(), start, self.ends[at] as usize)
    }

    /// Puts a clause at the end, in constant time on average for each of its literals. After
    /// `NoMemory`, which is also the answer where the literals of all clauses would be 2^32 or more,
    /// nothing has changed.
    pub fn push(&mut self, clause: &[Lit]) -> Result<(), NoMemory>
        ensures ok { OnOk result (self.new ≡ self.old ++ clause.now ∷ []) }
        ensures err { OnErr result (self.new ≡ self.old) }
    {
        let end = match u32::try_from(self.lits.len() + clause.len()) {
            Ok(end) => end,
            Err(_) => return Err(NoMemory),
        };
        self.lits.reserve(clause.len())?;
        self.ends.push(end)?;
        self.lits.extend_from_slice(clause)?;
        Ok(())
    }
}

impl Duplicate for Clauses {
    fn copy(&self, alloc: Global) -> Result<Clauses, NoMemory> {
        Ok(Clauses {
            lits: Vec::from_slice(alloc, self.lits.as_slice())?,
            ends: Vec::from_slice(alloc, self.ends.as_slice())?,
        })
    }
}

// Where the clause at a place begins: where the one before ends, and the first at 0.
fn start_of(ends: &[u32], at: usize) -> usize
    requires { at ≤ length ends.now }
    ensures { result ≡ slice_index (0 ∷ ends.now) at }
{
    if at == 0 {
        return 0;
    }
    ends[at - 1] as usize
}

// The literals from a place up to another.
fn between(lits: &[Lit], start: usize, end: usize) -> &[Lit]
    requires order { start ≤ end }
    requires within { end ≤ length lits.now }
    ensures { result.now ≡ slice_range lits.entry.now start end }
{
    &lits[start..end]
}
