// The watched clauses, one behind another in one list of words (DECISIONS, watched-words).
ghost use Rattle.std.specs.Prelude.{◌≡◌, ◌+◌, ◌<◌, ◌++◌, [], true, false, length, map, take, IfOk, OnOk, OnErr, IsTrue, ◌↔◌, slice_index_or, swap, Contains};
ghost use Rattle.scut_base.specs.LiteralCode.{code_of};
ghost use Rattle.watch_prop.specs.Codes.{AreCodes};
ghost use Rattle.watch_prop.specs.Watching.{IsPut, IsSlot, clause_at, no_literal, no_slot, with_lits};

use crate::clause::Clause;
use crate::short_lit::{ShortLit, short_number};
use scut_base::NoMemory;
use std::alloc::Global;
use std::marker::Model;

/// The bit of the words at which clauses begin; what such a word has besides is the number of literals.
pub const MARK: u32 = 1 << 31;

// How many words of a clause stand before its literals: their number, and the id of its line in two.
const BEFORE: usize = 3;

/// Clauses, by the places where they begin, each with its literals in an order of its own; none after its line
/// was dropped. Contracts see for each place what begins there. A clause's length and id lie beside its literals, so
/// that a visit waits for memory once, and not again for a table.
#[derive(Debug, Drop)]
pub struct Slots {
    words: Vec<u32>,
    // How many words are of clauses that were dropped.
    lost: usize,
}

impl Model for Slots {
    ghost use Rattle.std.specs.Prelude.{List};
    ghost use Rattle.watch_prop.specs.Slot.{Slot};

    ghost Value = { List Slot };

    ghost use Rattle.watch_prop.specs.Words.{AreClauses, slots_of};

    ghost view = { λ s. slots_of s.words.items };

    ghost invariant = { λ s. AreClauses s.words.items };
}

impl Slots {
    /// No clause. Takes no memory.
    pub fn new(alloc: Global) -> Slots
        ensures { result ≡ [] }
    {
        Slots {
            words: Vec::new(alloc),
            lost: 0,
        }
    }

    /// The number of places.
    pub fn len(&self) -> usize
        ensures { result ≡ length self.now }
    {
        self.words.len()
    }

    /// Whether a clause begins at a place.
    pub fn begins(&self, slot: u32) -> bool
        ensures value { IsTrue result ↔ IsSlot self.now slot }
        ensures none { result ≡ false → clause_at self.now slot ≡ [] }
    {
        let at = slot as usize;
        if at >= self.words.len() {
            return false;
        }
        self.words[at] >= MARK
    }

    /// The id of the line of a clause.
    pub fn id(&self, slot: u32) -> u64
        requires { IsSlot self.now slot }
        ensures { result ≡ (slice_index_or self.now slot no_slot).id }
    {
        let at = slot as usize;
        u64::from(self.words[at + 1]) + u64::from(MARK) * u64::from(self.words[at + 2])
    }

    /// The literals of a clause.
    pub fn lits(&self, slot: u32) -> Clause<'_>
        requires { IsSlot self.now slot }
        ensures { result ≡ clause_at self.now slot }
    {
        let at = slot as usize;
        let len = (self.words[at] - MARK) as usize;
        Clause::new(&self.words.as_slice()[at + BEFORE..at + BEFORE + len])
    }

    /// A literal of a clause.
    pub fn at(&self, slot: u32, place: usize) -> ShortLit
        requires slot { IsSlot self.now slot }
        requires place { place < length (clause_at self.now slot) }
        ensures value { result ≡ slice_index_or (clause_at self.now slot) place no_literal }
        ensures among { Contains (clause_at self.now slot) result }
    {
        self.lits(slot).at(place)
    }

    /// Exchanges two literals of a clause.
    pub fn swap(&mut self, slot: u32, first: usize, second: usize)
        requires slot { IsSlot self.old slot }
        requires first { first < length (clause_at self.old slot) }
        requires second { second < length (clause_at self.old slot) }
        ensures { IsPut self.old self.new slot
            (with_lits self.old slot (swap (clause_at self.old slot) first second)) }
    {
        let start = slot as usize + BEFORE;
        let words = self.words.as_mut_slice();
        words.swap(start + first, start + second);
    }

    /// Puts a clause without literals at the end; where it begins. Takes constant time on average.
    pub fn push(&mut self, id: u64) -> Result<u32, NoMemory>
        ensures fresh { IfOk result (λ slot. slice_index_or self.old slot no_slot ≡ no_slot) }
        ensures put { IfOk result (λ slot. IsPut self.old self.new slot
            (record { begins = true; id = id; lits = [] })) }
        ensures last { IfOk result (λ slot. slot + 3 ≡ length self.new) }
        ensures err { OnErr result (self.new ≡ self.old) }
    {
        let slot = short_number(self.words.len())?;
        let low = (id % u64::from(MARK)) as u32;
        let high = id / u64::from(MARK);
        if high >= u64::from(MARK) {
            return Err(NoMemory);
        }
        self.words.extend_from_slice(&[MARK, low, high as u32])?;
        Ok(slot)
    }

    /// Gives the last clause its literals.
    pub fn fill(&mut self, slot: u32, lits: &[ShortLit]) -> Result<(), NoMemory>
        requires slot { IsSlot self.old slot }
        requires last { slot + 3 ≡ length self.old }
        ensures ok { OnOk result (IsPut self.old self.new slot
            (with_lits self.old slot lits.now)) }
        ensures err { OnErr result (self.new ≡ self.old) }
    {
        if lits.len() >= MARK as usize {
            return Err(NoMemory);
        }
        let len = self.words.len();
        if push_codes(&mut self.words, lits).is_err() {
            self.words.truncate(len);
            return Err(NoMemory);
        }
        self.words[slot as usize] = MARK + lits.len() as u32;
        Ok(())
    }

    /// Takes the literals of a clause away. Takes no memory.
    pub fn empty(&mut self, slot: u32)
        requires { IsSlot self.old slot }
        ensures { IsPut self.old self.new slot (with_lits self.old slot []) }
    {
        let len = self.words[slot as usize] - MARK;
        self.lost = self.lost.saturating_add(len as usize + BEFORE);
        self.words[slot as usize] = MARK;
    }

    /// Whether more than half of the words are of clauses that were dropped.
    pub fn is_sparse(&self) -> bool {
        self.lost > self.words.len() / 2
    }
}

// Puts the codes of literals at the end.
fn push_codes(words: &mut Vec<u32>, lits: &[ShortLit]) -> Result<(), NoMemory>
    ensures ok { OnOk result (words.new.items ≡ words.old.items ++ map code_of lits.now) }
    ensures codes { OnOk result (AreCodes (map code_of lits.now)) }
    ensures err { OnErr result
        (take (length words.old.items) words.new.items ≡ words.old.items) }
{
    for lit in lits {
        words.push(lit.word())?;
    }
    Ok(())
}
