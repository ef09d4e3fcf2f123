// What is kept of the lines that are counted, and their occurrences.
ghost use Rattle.std.specs.Prelude.{◌≡◌, ℕ, ◌+◌, ◌<◌, ◌≤◌, ◌^◌, [], true, false, Some, None, length, All, OnOk, IfSome, IfNone, slice_index_or, sum_by};
ghost use Rattle.scut_base.specs.LiteralCode.{code_of};
ghost use Rattle.std.specs.FinMap.{get};
ghost use Rattle.pb_lin.specs.Constraint.{UpTo, opposite};
ghost use Rattle.pb_lin.specs.LineMap.{LineMap, LinesUpTo};
ghost use Rattle.watch_prop.specs.declared.counter_lines.Occurrence.{Occurrence};
ghost use Rattle.clause_prop.specs.Steps.{partial};
ghost use Rattle.clause_prop.specs.Propagating.{Extends, IsConflict};
ghost use Rattle.watch_prop.specs.Counting.{AreOfSlots, AreQuiet, AreTold, IsGone, IsOver, IsQuiet, coefficient_at, line_at, list_at, listed, lowered, no_occurrence, possible, raised};

use crate::occurrence_lists::OccurrenceLists;
use clause_prop::{ClauseStore, Step, StoredLine, Trail, is_forced, literal_code, push_forced};
use scut_base::{Items, NoMemory};
use std::alloc::Global;

/// What is kept of a line.
#[derive(Clone, Copy, Debug)]
pub struct CounterLine {
    pub id: u64,
    /// Whether the line wasn't dropped.
    pub live: bool,
    /// The coefficients of the literals that the counted steps don't make false, summed.
    pub possible: u128,
    /// The degree and the greatest coefficient, summed. A line whose sum is as great forces nothing.
    pub limit: u128,
}

/// That a literal has this coefficient in the line of a slot.
#[derive(Clone, Copy, Debug)]
pub struct Occurrence {
    pub slot: usize,
    pub coefficient: u128,
}

/// The slot of a new line, and, where the line was gone through, the trail's length when that was done.
#[derive(Clone, Copy, Debug)]
pub struct Fresh {
    pub slot: usize,
    pub end: u64,
}

// The occurrences of the literal that a step makes false.
pub fn falsified(lists: &OccurrenceLists, step: Step) -> &[Occurrence]
    ensures { result.now ≡ list_at lists.now (code_of (opposite step.lit)) }
{
    lists.of(literal_code(step.lit.not()))
}

// Takes the coefficients of a list off the sums of their lines; whether a sum may be below its limit then.
pub fn subtract(lines: &mut Vec<CounterLine>, list: &[Occurrence]) -> bool
    requires slots { AreOfSlots (length lines.old.items) list.now }
    requires enough { (j : ℕ) → (line_at lines.old.items j).live ≡ true
        → listed j list.now ≤ (line_at lines.old.items j).possible }
    ensures len { length lines.new.items ≡ length lines.old.items }
    ensures each { (j : ℕ) → line_at lines.new.items j
        ≡ lowered (line_at lines.old.items j) (listed j list.now) }
    ensures quiet { result ≡ false → AreQuiet lines.new.items list.now }
{
    let mut low = false;
    for entry in list {
        if lower(&mut lines[entry.slot], entry.coefficient) {
            low = true;
        }
    }
    low
}

// Takes a coefficient off a line's sum, where the line is live; whether the sum is below the limit then.
fn lower(line: &mut CounterLine, coefficient: u128) -> bool
    requires { line.old.live ≡ true → coefficient ≤ line.old.possible }
    ensures lowered { line.new ≡ lowered line.old coefficient }
    ensures quiet { result ≡ false → IsQuiet line.new }
{
    if !line.live {
        return false;
    }
    line.possible -= coefficient;
    line.possible < line.limit
}

// Adds the coefficients of a list to the sums of their lines.
pub fn add(lines: &mut Vec<CounterLine>, list: &[Occurrence])
    requires slots { AreOfSlots (length lines.old.items) list.now }
    requires small { (j : ℕ) → (line_at lines.old.items j).live ≡ true
        → (line_at lines.old.items j).possible + listed j list.now ≤ 2 ^ 100 }
    ensures len { length lines.new.items ≡ length lines.old.items }
    ensures each { (j : ℕ) → line_at lines.new.items j
        ≡ raised (line_at lines.old.items j) (listed j list.now) }
{
    for entry in list {
        let line = &mut lines[entry.slot];
        if line.live {
            line.possible += entry.coefficient;
        }
    }
}

// Goes through a line where its sum is below its limit; answers its id where it is violated.
pub fn visit_line(line: &CounterLine, store: &ClauseStore, trail: &mut Trail) -> Option<u64>
    requires over { IsOver store.now trail.old line.now }
    requires variables { LinesUpTo trail.old.vars store.now }
    ensures conflict { IfSome result (IsConflict store.now trail.new) }
    ensures gone { IfNone result (IsGone store.now trail.new line.now) }
    ensures extends { Extends store.now trail.old trail.new }
{
    if !line.live || line.limit <= line.possible {
        return None;
    }
    match store.get(line.id) {
        Some(stored) => visit_stored(stored, line, store, trail),
        None => None,
    }
}

// Goes through a stored line; answers its id where it is violated.
fn visit_stored(
    stored: &StoredLine,
    line: &CounterLine,
    store: &ClauseStore,
    trail: &mut Trail,
) -> Option<u64>
    requires within { UpTo trail.old.vars stored.now }
    requires there { get store.now line.now.id ≡ Some stored.now }
    requires over { possible trail.old.vars trail.old.steps stored.now.terms ≤ line.now.possible }
    ensures conflict { IfSome result (IsConflict store.now trail.new) }
    ensures possible { IfNone result (stored.now.degree ≤ line.now.possible) }
    ensures told { IfNone result (AreTold (partial trail.new) stored.now line.now.possible) }
    ensures extends { Extends store.now trail.old trail.new }
{
    let degree = stored.degree();
    if line.possible < degree {
        return Some(line.id);
    }
    force_above(stored, line.possible - degree, line.id, trail);
    None
}

// Makes every open literal true whose coefficient is above a number that is at least the slack.
fn force_above(line: &StoredLine, slack: u128, id: u64, trail: &mut Trail)
    requires within { UpTo trail.old.vars line.now }
    requires over { possible trail.old.vars trail.old.steps line.now.terms
        ≤ slack + line.now.degree }
    ensures told { AreTold (partial trail.new) line.now (slack + line.now.degree) }
    ensures extends { (store : LineMap) → get store id ≡ Some line.now
        → Extends store trail.old trail.new }
{
    for at in 0..line.len() {
        let term = line.term(at);
        if is_forced(&term, slack, trail) {
            push_forced(term.0, id, trail);
        }
    }
}

// Goes through the lines of a list; answers the id of one that is violated.
pub fn visit_list(
    lines: &[CounterLine],
    list: &[Occurrence],
    store: &ClauseStore,
    trail: &mut Trail,
) -> Option<u64>
    requires slots { AreOfSlots (length lines.now) list.now }
    requires over { (j : ℕ) → IsOver store.now trail.old (line_at lines.now j) }
    requires variables { LinesUpTo trail.old.vars store.now }
    ensures conflict { IfSome result (IsConflict store.now trail.new) }
    ensures gone { IfNone result
        (All (λ e. IsGone store.now trail.new (line_at lines.now e.slot)) list.now) }
    ensures extends { Extends store.now trail.old trail.new }
{
    for entry in list {
        if let Some(id) = visit_line(&lines[entry.slot], store, trail) {
            return Some(id);
        }
    }
    None
}

// Lists a line's literals as occurrences in a slot. After `NoMemory` some may be listed.
pub fn list_terms(
    alloc: Global,
    lists: &mut OccurrenceLists,
    line: &StoredLine,
    slot: usize,
) -> Result<(), NoMemory>
    requires { (code : ℕ) → AreOfSlots slot (list_at lists.old code) }
    ensures slots { (code : ℕ) → AreOfSlots (slot + 1) (list_at lists.new code) }
    ensures others { (code j : ℕ) → j < slot
        → listed j (list_at lists.new code) ≡ listed j (list_at lists.old code) }
    ensures listed { OnOk result ((code : ℕ)
        → listed slot (list_at lists.new code) ≡ coefficient_at line.now.terms code) }
{
    for at in 0..line.len() {
        let term = line.term(at);
        let code = literal_code(term.0);
        let occurrence = Occurrence {
            slot,
            coefficient: term.1,
        };
        lists.push(alloc, code, occurrence)?;
    }
    Ok(())
}

// The greatest coefficient, or 0 where there is none. Where all are 1 it takes constant time.
pub fn greatest(line: &StoredLine) -> u128
    ensures all { All (λ t. t.1 ≤ result) line.now.terms }
    ensures small { result ≤ 2 ^ 100 }
{
    if line.is_cardinality() {
        return 1;
    }
    let mut greatest = 0;
    for at in 0..line.len() {
        greatest = greatest.max(line.term(at).1);
    }
    greatest
}

// Takes occurrences in slots that aren't live out of a list.
pub fn sweep_list(list: &mut Items<Occurrence>, lines: &[CounterLine])
    ensures slots { (n : ℕ) → AreOfSlots n list.old → AreOfSlots n list.new }
    ensures same { (j : ℕ) → (line_at lines.now j).live ≡ true
        → listed j list.new ≡ listed j list.old }
{
    let mut at = list.len();
    while at > 0 {
        at -= 1;
        if !is_live(lines, list.at(at).slot) {
            remove_at(list, at);
        }
    }
}

// Whether a slot is live; one past the end isn't.
fn is_live(lines: &[CounterLine], slot: usize) -> bool
    ensures { result ≡ (line_at lines.now slot).live }
{
    if slot < lines.len() {
        lines[slot].live
    } else {
        false
    }
}

// Takes an occurrence out; the last one comes to its place.
fn remove_at(list: &mut Items<Occurrence>, at: usize)
    requires { at < length list.old }
    ensures len { length list.new + 1 ≡ length list.old }
    ensures slots { (n : ℕ) → AreOfSlots n list.old → AreOfSlots n list.new }
    ensures sums { (f : Occurrence → ℕ)
        → sum_by f list.new + f (slice_index_or list.old at no_occurrence) ≡ sum_by f list.old }
{
    if let Some(last) = list.pop() {
        if at < list.len() {
            list.set(at, last);
        }
    }
}
