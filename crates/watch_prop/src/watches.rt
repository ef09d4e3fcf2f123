// Clauses of two literals or more, each with two of them in watch (DECISIONS, lazy-drop).
ghost use Rattle.std.specs.Prelude.{◌≡◌, ◌≢◌, ℕ, ◌+◌, ◌<◌, ◌≤◌, ◌↔◌, [], true, false, None, Some, length, IfOk, OnOk, OnErr, IfSome, IfNone, IsTrue, Contains, slice_index_or};
ghost use Rattle.std.specs.FinMap.{empty, get, remove};
ghost use Rattle.scut_base.specs.Assignment.{partial_truth};
ghost use Rattle.scut_base.specs.Literal.{Literal};
ghost use Rattle.scut_base.specs.LiteralCode.{code_of};
ghost use Rattle.pb_lin.specs.Constraint.{ConstraintValue, UpTo, opposite};
ghost use Rattle.pb_lin.specs.LineMap.{LineMap, LinesUpTo};
ghost use Rattle.clause_prop.specs.Steps.{TrailValue, partial, with_step, cut};
ghost use Rattle.clause_prop.specs.Propagating.{Extends, IsConflict};
ghost use Rattle.clause_prop.specs.LineKinds.{is_watched, IsClosedForWatched};
ghost use Rattle.watch_prop.specs.Watching.{AreFalse, AreOthersFalse, IsFree, clause_at, list_of, lits_of, no_entry, no_literal, no_slot, IsDistinct, IsSlot};
ghost use Rattle.watch_prop.specs.Watches.{AreWatches, Hold, IsAllLooked, IsAt, IsConflictOf, IsFollowed, IsReady, IsVisited, IsCopy, IsOpened, IsWatchable, AreSameWatched, AreTaken, entries_of};
ghost use Rattle.clause_prop.specs.declared.step.Step.{Step};

use crate::row::Row;
use crate::short_lit::{ShortLit, short_number};
use crate::slot_table::SlotTable;
use crate::slots::Slots;
use crate::watch_lists::{
    Entry, add_entry, copied, cover, cut_ends, drop_entry, falsified, free_place, latest_first,
    put_second, set_entry, short_lits, skip_true, truth,
};
use clause_prop::{ClauseStore, StoredLine, Trail, literal_code, push_forced};
use scut_base::{Lit, NoMemory};
use std::alloc::Global;

/// What became of an entry.
#[derive(Clone, Copy, Debug)]
pub enum Visit {
    /// It stays, and the next one comes.
    Next,
    /// It is gone, and another may stand in its place.
    Gone,
    /// The clause of this id is all false.
    Conflict(u64),
}

/// Whether a line is watched: a clause of two literals or more.
pub fn is_watched(line: &StoredLine) -> bool
    ensures { result ≡ is_watched line.now }
{
    line.is_clause() && line.len() >= 2
}

/// The clauses of two literals or more, each in an order of its own with two watched literals in
/// front; for each literal the clauses that watch it; and for each step that was looked at the trail's
/// length when that was done. (Watched literals: Moskewicz and others 2001. Blockers, which stand beside
/// a clause in a list and spare reading it where they are true: Chu, Harwood and Stuckey 2008.)
#[derive(Debug, Drop)]
pub struct Watches {
    alloc: Global,
    slots: Slots,
    // By id the slot of its clause.
    index: SlotTable,
    lists: Vec<Row<Entry>>,
    ends: Vec<u32>,
}

impl Watches {
    /// No clause. Takes no memory.
    #[tactic(auto, unfolding(crate::specs::Watches::AreWatches))]
    pub fn new(alloc: Global) -> Watches
        ensures { (n : ℕ) → AreWatches result empty (record { vars = n; steps = [] }) }
    {
        Watches {
            alloc,
            slots: Slots::new(alloc),
            index: SlotTable::new(alloc),
            lists: Vec::new(alloc),
            ends: Vec::new(alloc),
        }
    }

    /// Extends the trail by literals that clauses force under the steps before them, until a clause
    /// is all false, whose id is answered, or no clause forces a literal. It may be called again
    /// after `NoMemory`. Most visits of a clause read its entry alone.
    #[tactic(auto, unfolding(crate::specs::Watches::AreWatches))]
    pub fn propagate(
        &mut self,
        _store: &ClauseStore,
        trail: &mut Trail,
    ) -> Result<Option<u64>, NoMemory>
        requires in_step { AreWatches self.old _store.now trail.old }
        requires variables { LinesUpTo trail.old.vars _store.now }
        ensures in_step { AreWatches self.new _store.now trail.new }
        ensures conflict { IfOk result (λ found. IfSome found (IsConflict _store.now trail.new)) }
        ensures closed { IfOk result
            (λ found. IfNone found (IsClosedForWatched _store.now trail.new)) }
        ensures extends { Extends _store.now trail.old trail.new }
    {
        self.look_at_all(trail)
    }

    /// Takes up a clause that was stored. After `NoMemory` it is in step with the store without it.
    #[tactic(auto, unfolding(crate::specs::Watches::AreWatches))]
    pub fn added(&mut self, store: &ClauseStore, trail: &Trail, id: u64) -> Result<(), NoMemory>
        requires in_step { AreWatches self.old (remove store.now id) trail.now }
        requires there { (c : ConstraintValue)
            × (get store.now id ≡ Some c) × (is_watched c ≡ true) }
        requires variables { LinesUpTo trail.now.vars store.now }
        ensures ok { OnOk result (AreWatches self.new store.now trail.now) }
        ensures err { OnErr result (AreWatches self.new (remove store.now id) trail.now) }
    {
        if self.slots.is_sparse() {
            self.pack(trail);
        }
        match store.get(id) {
            Some(line) => self.take_up(line, trail, id),
            None => unreachable!(),
        }
    }

    // Leaves no room between clauses, unless memory is wanting. Costs as much as all words, and the steps
    // that were looked at.
    fn pack(&mut self, trail: &Trail)
        requires ready { IsReady self.old trail.now }
        ensures ready { IsReady self.new trail.now }
        ensures hold { (lines : LineMap) → Hold self.old lines → Hold self.new lines }
    {
        if let Ok(packed) = self.packed(trail) {
            *self = packed;
        }
    }

    // The same clauses in the same order, with no room between them; no step was looked at yet.
    fn packed(&self, trail: &Trail) -> Result<Watches, NoMemory>
        requires ready { IsReady self.now trail.now }
        ensures ready { IfOk result (λ packed. IsReady packed trail.now) }
        ensures hold { IfOk result (λ packed. (lines : LineMap)
            → Hold self.now lines → Hold packed lines) }
    {
        let mut packed = Watches::new(self.alloc);
        let count = short_number(self.slots.len())?;
        for slot in 0..count {
            packed.take_over(self, trail, slot)?;
        }
        Ok(packed)
    }

    // Watches the clause that begins at a place of others, where one does that wasn't dropped.
    fn take_over(&mut self, others: &Watches, trail: &Trail, slot: u32) -> Result<(), NoMemory>
        requires others { IsReady others.now trail.now }
        requires ready { IsReady self.old trail.now }
        requires none { self.old.ends.items ≡ [] }
        ensures ready { IsReady self.new trail.now }
        ensures none { self.new.ends.items ≡ [] }
        ensures taken { OnOk result ((lines : LineMap) → Hold others.now lines
            → AreTaken self.old others.now lines slot
            → AreTaken self.new others.now lines (slot + 1)) }
    {
        if !others.slots.begins(slot) {
            return Ok(());
        }
        let lits = copied(self.alloc, &others.slots.lits(slot))?;
        if lits.len() < 2 {
            return Ok(());
        }
        cover(self.alloc, &mut self.lists, &lits)?;
        self.watch(&lits, others.slots.id(slot))
    }

    /// Lets go of a clause that was dropped; where the id has none, nothing changes. Takes no memory,
    /// and constant time on average: entries of the clause stay until they are met.
    #[tactic(auto, unfolding(crate::specs::Watches::AreWatches))]
    pub fn dropped(&mut self, id: u64)
        ensures { (lines : LineMap) (t : TrailValue) → AreWatches self.old lines t
            → AreWatches self.new (remove lines id) t }
    {
        if let Some(slot) = self.index.remove(id) {
            if self.has_slot(slot, id) {
                self.slots.empty(slot);
            }
        }
    }

    // Whether a slot is of this id; one that isn't there is of none.
    fn has_slot(&self, slot: u32, id: u64) -> bool
        ensures yes { IsTrue result → IsSlot self.now.slots slot
            × ((slice_index_or self.now.slots slot no_slot).id ≡ id) }
        ensures no { result ≡ false → 2 ≤ length (clause_at self.now.slots slot)
            → (slice_index_or self.now.slots slot no_slot).id ≢ id }
    {
        self.slots.begins(slot) && self.slots.id(slot) == id
    }

    /// Makes ready for a cut of the trail to its first steps. Takes no memory, and costs the
    /// looked-at steps that go.
    #[tactic(auto, unfolding(crate::specs::Watches::AreWatches))]
    pub fn shrinking(&mut self, _trail: &Trail, keep: u64)
        requires keep { keep ≤ length _trail.now.steps }
        ensures { (store : LineMap) → AreWatches self.old store _trail.now
            → AreWatches self.new store (cut _trail.now keep) }
    {
        cut_ends(&mut self.ends, keep as usize);
    }

    // Looks at the steps that weren't looked at, until none is left or a clause is all false.
    fn look_at_all(&mut self, trail: &mut Trail) -> Result<Option<u64>, NoMemory>
        requires ready { IsReady self.old trail.old }
        ensures ready { IsReady self.new trail.new }
        ensures followed { IsFollowed self.old self.new trail.old trail.new }
        ensures conflict { IfOk result (λ found. IfSome found (IsConflictOf self.new trail.new)) }
        ensures all { IfOk result (λ found. IfNone found (IsAllLooked self.new trail.new)) }
    {
        while self.ends.len() < trail.len() as usize {
            if let Some(id) = self.look(trail)? {
                return Ok(Some(id));
            }
        }
        Ok(None)
    }

    // Looks at the first step that wasn't looked at.
    fn look(&mut self, trail: &mut Trail) -> Result<Option<u64>, NoMemory>
        requires ready { IsReady self.old trail.old }
        requires more { length self.old.ends.items < length trail.old.steps }
        ensures ready { IsReady self.new trail.new }
        ensures followed { IsFollowed self.old self.new trail.old trail.new }
        ensures conflict { IfOk result (λ found. IfSome found (IsConflictOf self.new trail.new)) }
        ensures one { IfOk result (λ found. IfNone found
            (length self.new.ends.items ≡ length self.old.ends.items + 1)) }
    {
        let lit = falsified(trail, self.ends.len());
        let mut at = 0;
        loop {
            at = self.skip(trail, lit, at);
            if at >= self.entries(lit) {
                break;
            }
            match self.visit(trail, lit, at)? {
                Visit::Next => at += 1,
                Visit::Gone => {}
                Visit::Conflict(id) => return Ok(Some(id)),
            }
        }
        let end = short_number(trail.len() as usize)?;
        self.ends.push(end)?;
        Ok(None)
    }

    // The number of entries in the list of a literal.
    fn entries(&self, lit: Lit) -> usize
        ensures { result ≡ entries_of self.now lit }
    {
        let code = literal_code(lit);
        if code < self.lists.len() {
            self.lists[code].len()
        } else {
            0
        }
    }

    // An entry of the list of a literal.
    fn entry(&self, lit: Lit, at: usize) -> Entry
        requires { at < entries_of self.now lit }
        ensures { result ≡ slice_index_or (list_of self.now.lists.items lit) at no_entry }
    {
        self.lists[literal_code(lit)].at(at)
    }

    // A literal of a slot.
    fn literal(&self, slot: u32, place: usize) -> ShortLit
        requires slot { IsSlot self.now.slots slot }
        requires place { place < length (clause_at self.now.slots slot) }
        ensures value { result
            ≡ slice_index_or (clause_at self.now.slots slot) place no_literal }
        ensures among { Contains (clause_at self.now.slots slot) result }
    {
        self.slots.at(slot, place)
    }

    // A place from 2 on whose literal isn't false.
    fn free_place(&self, trail: &Trail, slot: u32) -> Option<usize>
        requires slot { IsSlot self.now.slots slot }
        requires vars { (l : Literal) → Contains (clause_at self.now.slots slot) l
            → l.var ≤ trail.now.vars }
        ensures free { IfSome result
            (λ k. IsFree (clause_at self.now.slots slot) (lits_of trail.now.steps) k) }
        ensures none { IfNone result
            (AreFalse (clause_at self.now.slots slot) (lits_of trail.now.steps) 2) }
    {
        free_place(&self.slots.lits(slot), trail)
    }

    // The first place from one on whose blocker isn't true, or the end of the list. Most visits end here.
    fn skip(&self, trail: &Trail, lit: Lit, at: usize) -> usize
        requires looking { IsAt self.now trail.now lit at }
        ensures looking { IsAt self.now trail.now lit result }
        ensures after { at ≤ result }
    {
        let code = literal_code(lit);
        if code < self.lists.len() {
            skip_true(&self.lists[code], trail, at)
        } else {
            at
        }
    }

    // Visits an entry in the list of a literal that is false, whose blocker isn't true. The false literal
    // is put second, as in MiniSat (Eén and Sörensson 2003), so that the other one is read at a fixed place;
    // a clause of two literals isn't read.
    fn visit(&mut self, trail: &mut Trail, lit: Lit, at: usize) -> Result<Visit, NoMemory>
        requires looking { IsAt self.old trail.old lit at }
        requires within { at < entries_of self.old lit }
        ensures ok { IfOk result (IsVisited self.old self.new trail.old trail.new lit at) }
        ensures err { OnErr result
            (IsReady self.new trail.new × IsFollowed self.old self.new trail.old trail.new) }
    {
        let entry = self.entry(lit, at);
        if self.slots.lits(entry.slot).len() == 2 {
            return Ok(self.force_blocker(trail, lit, at, entry));
        }
        if put_second(&mut self.slots, entry.slot, lit) {
            self.read(trail, lit, at, entry.slot)
        } else {
            drop_entry(&mut self.lists, literal_code(lit), at);
            Ok(Visit::Gone)
        }
    }

    // Visits an entry whose clause has two literals: its blocker is the one beside the false literal.
    fn force_blocker(&self, trail: &mut Trail, lit: Lit, at: usize, entry: Entry) -> Visit
        requires looking { IsAt self.now trail.old lit at }
        requires within { at < entries_of self.now lit }
        requires entry { entry ≡ slice_index_or (list_of self.now.lists.items lit) at no_entry }
        requires two { length (clause_at self.now.slots entry.slot) ≡ 2 }
        ensures { IsVisited self.now self.now trail.old trail.new lit at result }
    {
        self.force(trail, lit, at, entry.slot, entry.blocker)
    }

    // Visits an entry whose clause has the false literal second.
    fn read(&mut self, trail: &mut Trail, lit: Lit, at: usize, slot: u32) -> Result<Visit, NoMemory>
        requires looking { IsAt self.old trail.old lit at }
        requires within { at < entries_of self.old lit }
        requires entry { (slice_index_or
            (list_of self.old.lists.items lit) at no_entry).slot ≡ slot }
        requires slot { IsSlot self.old.slots slot }
        requires long { 2 ≤ length (clause_at self.old.slots slot) }
        requires second { slice_index_or (clause_at self.old.slots slot) 1 no_literal ≡ lit }
        ensures ok { IfOk result (IsVisited self.old self.new trail.old trail.new lit at) }
        ensures err { OnErr result (IsReady self.new trail.new
            × IsFollowed self.old self.new trail.old trail.new) }
    {
        let first = self.literal(slot, 0);
        if let Some(true) = truth(trail, first) {
            let entry = Entry {
                slot,
                blocker: first,
            };
            set_entry(&mut self.lists, literal_code(lit), at, entry);
            return Ok(Visit::Next);
        }
        match self.free_place(trail, slot) {
            Some(place) => self.replace(trail, lit, at, slot, place),
            None => Ok(self.force(trail, lit, at, slot, first)),
        }
    }

    // Watches a literal that isn't false in place of the second one.
    fn replace(
        &mut self,
        trail: &Trail,
        lit: Lit,
        at: usize,
        slot: u32,
        place: usize,
    ) -> Result<Visit, NoMemory>
        requires looking { IsAt self.old trail.now lit at }
        requires within { at < entries_of self.old lit }
        requires entry { (slice_index_or
            (list_of self.old.lists.items lit) at no_entry).slot ≡ slot }
        requires slot { IsSlot self.old.slots slot }
        requires second { slice_index_or (clause_at self.old.slots slot) 1 no_literal ≡ lit }
        requires free { IsFree (clause_at self.old.slots slot)
            (lits_of trail.now.steps) place }
        ensures ok { IfOk result (IsVisited self.old self.new trail.now trail.now lit at) }
        ensures err { OnErr result (IsReady self.new trail.now
            × IsFollowed self.old self.new trail.now trail.now) }
    {
        let free = self.literal(slot, place);
        let first = self.literal(slot, 0);
        let entry = Entry {
            slot,
            blocker: first,
        };
        add_entry(&mut self.lists, free.code(), entry)?;
        self.slots.swap(slot, 1, place);
        drop_entry(&mut self.lists, literal_code(lit), at);
        Ok(Visit::Gone)
    }

    // Makes a literal of a clause true, where it isn't false; all others are.
    fn force(&self, trail: &mut Trail, lit: Lit, at: usize, slot: u32, unit: ShortLit) -> Visit
        requires looking { IsAt self.now trail.old lit at }
        requires entry { (slice_index_or
            (list_of self.now.lists.items lit) at no_entry).slot ≡ slot }
        requires slot { IsSlot self.now.slots slot }
        requires long { 2 ≤ length (clause_at self.now.slots slot) }
        requires others { AreOthersFalse (clause_at self.now.slots slot)
            (lits_of trail.old.steps) unit }
        ensures { IsVisited self.now self.now trail.old trail.new lit at result }
    {
        let id = self.slots.id(slot);
        match truth(trail, unit) {
            Some(true) => Visit::Next,
            Some(false) => Visit::Conflict(id),
            None => {
                push_forced(unit.lit(), id, trail);
                Visit::Next
            }
        }
    }

    // Takes up the clause of a line.
    fn take_up(&mut self, line: &StoredLine, trail: &Trail, id: u64) -> Result<(), NoMemory>
        requires ready { IsReady self.old trail.now }
        requires kind { is_watched line.now ≡ true }
        requires vars { UpTo trail.now.vars line.now }
        ensures ready { IsReady self.new trail.now }
        ensures ok { OnOk result ((lines : LineMap) → get lines id ≡ Some line.now
            → Hold self.old (remove lines id) → Hold self.new lines) }
        ensures err { OnErr result ((lines : LineMap)
            → Hold self.old (remove lines id) → Hold self.new (remove lines id)) }
    {
        let mut lits = short_lits(self.alloc, line.literals())?;
        cover(self.alloc, &mut self.lists, &lits)?;
        latest_first(&mut lits, &mut self.ends, trail);
        self.watch(&lits, id)
    }

    // Watches the first two literals of a clause.
    fn watch(&mut self, lits: &Row<ShortLit>, id: u64) -> Result<(), NoMemory>
        requires long { 2 ≤ length lits.now }
        requires distinct { IsDistinct lits.now }
        requires covered { (l : Literal) → Contains lits.now l
            → code_of l < length self.old.lists.items }
        ensures ready { (t : TrailValue) → IsReady self.old t → IsWatchable self.old t lits.now
            → IsReady self.new t }
        ensures ok { OnOk result ((lines : LineMap) (line : ConstraintValue)
            → IsCopy lines id line lits.now → Hold self.old (remove lines id)
            → Hold self.new lines) }
        ensures err { OnErr result ((lines : LineMap) → get lines id ≡ None
            → Hold self.old lines → Hold self.new lines) }
        ensures ends { self.new.ends.items ≡ self.old.ends.items }
    {
        let slot = self.open_slot(id)?;
        let first = lits.at(0);
        let second = lits.at(1);
        let beside_first = Entry {
            slot,
            blocker: second,
        };
        let beside_second = Entry {
            slot,
            blocker: first,
        };
        add_entry(&mut self.lists, first.code(), beside_first)?;
        add_entry(&mut self.lists, second.code(), beside_second)?;
        self.slots.fill(slot, lits.as_slice())?;
        Ok(())
    }

    // A slot without literals, to which the id leads.
    fn open_slot(&mut self, id: u64) -> Result<u32, NoMemory>
        ensures ready { (t : TrailValue) → IsReady self.old t → IsReady self.new t }
        ensures hold { (lines : LineMap) → get lines id ≡ None
            → Hold self.old lines → Hold self.new lines }
        ensures lists { self.new.lists.items ≡ self.old.lists.items }
        ensures ends { self.new.ends.items ≡ self.old.ends.items }
        ensures opened { IfOk result (IsOpened self.old self.new id) }
    {
        let slot = self.slots.push(id)?;
        self.index.insert(id, slot)?;
        Ok(slot)
    }
}

/// Law: a step more on the trail leaves the watches in step.
#[tactic(auto, unfolding(crate::specs::Watches::AreWatches))]
pub fn longer_trail_keeps_watches()
    ensures { (w : Watches) (lines : LineMap) (t : TrailValue) (s : Step)
        → AreWatches w lines t → AreWatches w lines (with_step t s) }
{}

/// Law: more variables leave the watches in step.
#[tactic(auto, unfolding(crate::specs::Watches::AreWatches))]
pub fn more_variables_keep_watches()
    ensures { (w : Watches) (lines : LineMap) (t : TrailValue) (n : ℕ) → t.vars ≤ n
        → AreWatches w lines t → AreWatches w lines (record { vars = n; steps = t.steps }) }
{}

/// Law: lines that aren't watched may come and go.
#[tactic(auto, unfolding(crate::specs::Watches::AreWatches))]
pub fn other_lines_keep_watches()
    ensures { (w : Watches) (old new : LineMap) (t : TrailValue) → AreSameWatched old new
        → AreWatches w old t → AreWatches w new t }
{}
