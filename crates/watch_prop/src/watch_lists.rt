// The parts of the watched clauses: slots, lists of entries, and literals in a trail.
ghost use Rattle.std.specs.Prelude.{◌≡◌, ◌≢◌, ℕ, ◌+◌, ◌-◌, ◌<◌, ◌≤◌, ◌++◌, ◌⊎◌, ◌↔◌, [], ◌∷◌, true, false, None, length, take, IfOk, OnOk, OnErr, IfSome, IfNone, IsTrue, Contains, IsPermutation, slice_index, slice_index_or, slice_set, swap};
ghost use Rattle.scut_base.specs.Assignment.{partial_truth};
ghost use Rattle.scut_base.specs.Literal.{Literal};
ghost use Rattle.scut_base.specs.LiteralCode.{code_of};
ghost use Rattle.pb_lin.specs.Constraint.{opposite};
ghost use Rattle.clause_prop.specs.Steps.{AreSteps, partial};
ghost use Rattle.watch_prop.specs.Watching.{AreFalse, IsDistinct, IsFree, IsPut, IsRemoved, IsSlot, IsValue, IsWatch, clause_at, lits_of, no_entry, no_literal, with_lits};

use crate::clause::Clause;
use crate::row::Row;
use crate::short_lit::ShortLit;
use crate::slots::Slots;
use clause_prop::Trail;
use scut_base::{Lit, NoMemory};
use std::alloc::Global;

/// A clause in the list of a literal that it watches, and another literal of it: where that one is
/// true, or there is no third, the clause isn't read.
#[derive(Clone, Copy, Debug)]
pub struct Entry {
    pub slot: u32,
    pub blocker: ShortLit,
}

const _: () = prove!(std::mem::size_of::<Entry>() == 8);

/// Literals in half the room.
pub fn short_lits(alloc: Global, lits: &[Lit]) -> Result<Row<ShortLit>, NoMemory>
    ensures { IfOk result (λ row. row ≡ lits.now) }
{
    let mut row = Row::new(alloc);
    for lit in lits {
        row.push(ShortLit::new(*lit)?)?;
    }
    Ok(row)
}

/// The literals of a clause in a list of their own.
pub fn copied(alloc: Global, clause: &Clause) -> Result<Row<ShortLit>, NoMemory>
    ensures { IfOk result (λ row. row ≡ clause.now) }
{
    let mut row = Row::new(alloc);
    for place in 0..clause.len() {
        row.push(clause.at(place))?;
    }
    Ok(row)
}

/// Whether the literal is true, or `None` where its variable is open.
pub fn truth(trail: &Trail, short: ShortLit) -> Option<bool>
    requires { short.var ≤ trail.now.vars }
    ensures told { IsValue (lits_of trail.now.steps) short result }
    ensures value { result ≡ partial_truth (partial trail.now) short }
    ensures steps { AreSteps trail.now.vars trail.now.steps }
{
    let full = short.lit();
    let _from_one = full.var();
    trail.value(full)
}

/// The negation of the literal of a step.
pub fn falsified(trail: &Trail, place: usize) -> Lit
    requires { place < length trail.now.steps }
    ensures { slice_index_or (lits_of trail.now.steps) place no_literal ≡ opposite result }
{
    trail.step_at(place as u64).lit.not()
}

/// Whether a literal is true.
pub fn is_true(trail: &Trail, lit: ShortLit) -> bool
    requires { lit.var ≤ trail.now.vars }
    ensures value { IsTrue result ↔ Contains (lits_of trail.now.steps) lit }
    ensures steps { AreSteps trail.now.vars trail.now.steps }
{
    match truth(trail, lit) {
        Some(value) => value,
        None => false,
    }
}

/// Whether a literal of a clause is false.
pub fn is_false(clause: &Clause, trail: &Trail, place: usize) -> bool
    requires within { place < length clause.now }
    requires vars { (l : Literal) → Contains clause.now l → l.var ≤ trail.now.vars }
    ensures { IsTrue result ↔ Contains (lits_of trail.now.steps)
        (opposite (slice_index_or clause.now place no_literal)) }
{
    match truth(trail, clause.at(place)) {
        Some(value) => !value,
        None => false,
    }
}

/// The first place from one on whose blocker isn't true, or the end.
pub fn skip_true(list: &Row<Entry>, trail: &Trail, from: usize) -> usize
    requires { (k : ℕ) → k < length list.now
        → (slice_index_or list.now k no_entry).blocker.var ≤ trail.now.vars }
    ensures after { from ≤ result }
    ensures held { (k : ℕ) → from ≤ k → k < result → (k < length list.now)
        × Contains (lits_of trail.now.steps) (slice_index_or list.now k no_entry).blocker }
{
    let mut at = from;
    while at < list.len() {
        if !is_true(trail, list.at(at).blocker) {
            return at;
        }
        at += 1;
    }
    at
}

/// A place from 2 on whose literal isn't false.
pub fn free_place(clause: &Clause, trail: &Trail) -> Option<usize>
    requires { (l : Literal) → Contains clause.now l → l.var ≤ trail.now.vars }
    ensures free { IfSome result (λ k. IsFree clause.now (lits_of trail.now.steps) k) }
    ensures none { IfNone result (AreFalse clause.now (lits_of trail.now.steps) 2) }
{
    for place in 2..clause.len() {
        if !is_false(clause, trail, place) {
            return Some(place);
        }
    }
    None
}

/// Puts the literal at place 1, where it is one of the first two; whether it is.
pub fn put_second(slots: &mut Slots, slot: u32, lit: Lit) -> bool
    requires { IsSlot slots.old slot }
    ensures slots { (slots.new ≡ slots.old) ⊎ ((2 ≤ length (clause_at slots.old slot))
        × IsPut slots.old slots.new slot
        (with_lits slots.old slot (swap (clause_at slots.old slot) 0 1))) }
    ensures long { IsTrue result → 2 ≤ length (clause_at slots.new slot) }
    ensures found { IsTrue result
        → slice_index_or (clause_at slots.new slot) 1 no_literal ≡ lit }
    ensures lost { result ≡ false
        → (l : Literal) → IsWatch (clause_at slots.new slot) l → l ≢ lit }
{
    let clause = slots.lits(slot);
    if clause.len() < 2 {
        return false;
    }
    let first = clause.at(0);
    let second = clause.at(1);
    if first.lit() == lit {
        slots.swap(slot, 0, 1);
        return true;
    }
    second.lit() == lit
}

/// Takes an entry out of a list.
pub fn drop_entry(lists: &mut Vec<Row<Entry>>, code: usize, at: usize)
    requires within { at < length (slice_index_or lists.old.items code []) }
    ensures others { (c : ℕ) → c ≢ code
        → slice_index_or lists.new.items c [] ≡ slice_index_or lists.old.items c [] }
    ensures removed { IsRemoved (slice_index_or lists.old.items code [])
        (slice_index_or lists.new.items code []) at }
    ensures len { length lists.new.items ≡ length lists.old.items }
{
    let list = &mut lists[code];
    list.swap_remove(at);
}

/// Writes an entry of a list.
pub fn set_entry(lists: &mut Vec<Row<Entry>>, code: usize, at: usize, entry: Entry)
    requires within { at < length (slice_index_or lists.old.items code []) }
    ensures { lists.new.items ≡ slice_set lists.old.items code
        (slice_set (slice_index_or lists.old.items code []) at entry) }
{
    let list = &mut lists[code];
    list.set(at, entry);
}

/// Puts an entry at the end of a list.
pub fn add_entry(lists: &mut Vec<Row<Entry>>, code: usize, entry: Entry) -> Result<(), NoMemory>
    requires { code < length lists.old.items }
    ensures ok { OnOk result (lists.new.items ≡ slice_set lists.old.items code
        (slice_index_or lists.old.items code [] ++ entry ∷ [])) }
    ensures err { OnErr result (lists.new.items ≡ lists.old.items) }
{
    let list = &mut lists[code];
    list.push(entry)
}

/// Makes the lists reach the literals of a clause.
pub fn cover(
    alloc: Global,
    lists: &mut Vec<Row<Entry>>,
    clause: &Row<ShortLit>,
) -> Result<(), NoMemory>
    ensures same { (c : ℕ)
        → slice_index_or lists.new.items c [] ≡ slice_index_or lists.old.items c [] }
    ensures longer { length lists.old.items ≤ length lists.new.items }
    ensures covered { OnOk result ((k : ℕ) → k < length clause.now
        → code_of (slice_index_or clause.now k no_literal) < length lists.new.items) }
{
    for place in 0..clause.len() {
        let lit = clause.at(place);
        reach(alloc, lists, lit.code())?;
    }
    Ok(())
}

// Makes the lists reach a code.
fn reach(alloc: Global, lists: &mut Vec<Row<Entry>>, code: usize) -> Result<(), NoMemory>
    ensures same { (c : ℕ)
        → slice_index_or lists.new.items c [] ≡ slice_index_or lists.old.items c [] }
    ensures longer { length lists.old.items ≤ length lists.new.items }
    ensures reached { OnOk result (code < length lists.new.items) }
{
    while lists.len() <= code {
        lists.push(Row::new(alloc))?;
    }
    Ok(())
}

/// Puts two literals in front that no looked-at step makes false: those that aren't false, or else
/// those that became false last, and then takes looked-at steps back. Costs two passes over the
/// clause, and the steps that are taken back.
pub fn latest_first(clause: &mut Row<ShortLit>, ends: &mut Vec<u32>, trail: &Trail)
    requires long { 2 ≤ length clause.old }
    requires vars { (l : Literal) → Contains clause.old l → l.var ≤ trail.now.vars }
    ensures same { IsPermutation clause.old clause.new }
    ensures distinct { IsDistinct clause.old → IsDistinct clause.new }
    ensures front { ends.new.items ≡ take (length ends.new.items) ends.old.items }
    ensures len { length ends.new.items ≤ length ends.old.items }
    ensures clear { (k p : ℕ) → k < 2 → p < length ends.new.items
        → slice_index_or (lits_of trail.now.steps) p no_literal
        ≢ opposite (slice_index_or clause.new k no_literal) }
{
    put_latest(clause, trail, 0);
    put_latest(clause, trail, 1);
    let left = looked_at(trail, clause.at(0)).min(looked_at(trail, clause.at(1)));
    if left < ends.len() {
        ends.truncate(left);
    }
}

// Puts the literal that became false last, or one that isn't false, at this place; those before it
// stay.
fn put_latest(clause: &mut Row<ShortLit>, trail: &Trail, front: usize)
    requires within { front < length clause.old }
    requires vars { (l : Literal) → Contains clause.old l → l.var ≤ trail.now.vars }
    ensures same { IsPermutation clause.old clause.new }
    ensures distinct { IsDistinct clause.old → IsDistinct clause.new }
{
    let best = latest(clause, trail, front);
    clause.swap(front, best);
}

// The place, from one on, of the literal that became false last, or of one that isn't false.
fn latest(clause: &Row<ShortLit>, trail: &Trail, front: usize) -> usize
    requires within { front < length clause.now }
    requires vars { (l : Literal) → Contains clause.now l → l.var ≤ trail.now.vars }
    ensures from { front ≤ result }
    ensures within { result < length clause.now }
{
    let mut best = front;
    let mut most = looked_at(trail, clause.at(front));
    for place in front..clause.len() {
        let steps = looked_at(trail, clause.at(place));
        if most < steps {
            best = place;
            most = steps;
        }
    }
    best
}

// The number of steps that may be looked at while the literal is watched: those before it became
// false, or all where it isn't false.
fn looked_at(trail: &Trail, lit: ShortLit) -> usize
    requires { lit.var ≤ trail.now.vars }
    ensures { (p : ℕ) → p < result
        → slice_index_or (lits_of trail.now.steps) p no_literal ≢ opposite lit }
{
    if is_true(trail, lit) {
        return trail.len() as usize;
    }
    match trail.place_of(lit.lit()) {
        Some(place) => place as usize,
        None => trail.len() as usize,
    }
}

/// Takes the last ends off, up to one that isn't above the length to keep.
pub fn cut_ends(ends: &mut Vec<u32>, keep: usize)
    ensures front { ends.new.items ≡ take (length ends.new.items) ends.old.items }
    ensures len { length ends.new.items ≤ length ends.old.items }
    ensures last { 0 < length ends.new.items
        → slice_index ends.old.items (length ends.new.items - 1) ≤ keep }
{
    let left = ends_within(ends.as_slice(), keep);
    ends.truncate(left);
}

// How many ends stay.
fn ends_within(ends: &[u32], keep: usize) -> usize
    ensures within { result ≤ length ends.now }
    ensures last { 0 < result → slice_index ends.now (result - 1) ≤ keep }
{
    let mut left = ends.len();
    while left > 0 {
        if ends[left - 1] as usize <= keep {
            return left;
        }
        left -= 1;
    }
    0
}
