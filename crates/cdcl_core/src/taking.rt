// Lines that a search takes up and drops.
ghost use Rattle.std.specs.Prelude.{◌≡◌, ◌<◌, ◌≤◌, ◌+◌, [], ℕ, false, true, None, length, fold, OnOk};
ghost use Rattle.std.specs.FinMap.{get, remove};
ghost use Rattle.pb_lin.specs.Problem.{ProblemValue};
ghost use Rattle.proof_laws.specs.Earned.{is_reduce};
ghost use Rattle.cdcl_trail.specs.SearchTrail.{IsUndecided};
ghost use Rattle.cdcl_core.specs.Work.{IsHeld, IsTakenUp, Reached};
ghost use Rattle.cdcl_laws.specs.StoredLines.{IsStored, deleted};
ghost use Rattle.proof_laws.specs.WellFormed.{IsWellFormed};

use crate::Solver;
use cdcl_laws::{line_is_passed, line_is_taken};
use cdcl_state::Search;
use clause_prop::Propagator;
use proof_laws::Line;
use proof_rules::{ProofState, Recorder};
use scut_base::NoMemory;

/// Drops the lines that this one deletes. Nothing stays on the trail then, since they may be reasons. Takes no memory.
pub(crate) fn drop_deleted<P: Propagator + Drop>(search: &mut Search<P>, line: &Line)
    requires { IsWellFormed line.now }
    ensures store { search.new.store ≡ fold remove search.old.store (deleted line.now) }
    ensures vars { search.new.trail.vars ≡ search.old.trail.vars }
    ensures none { is_reduce line.now ≡ true → search.new.trail.steps ≡ [] }
{
    match line {
        Line::Del { ids } => drop_all(search, ids.as_slice()),
        Line::Reduce { ids } => drop_all(search, ids.as_slice()),
        _ => {}
    }
}

// Drops the lines of these ids.
fn drop_all<P: Propagator + Drop>(search: &mut Search<P>, ids: &[u64])
    ensures store { search.new.store ≡ fold remove search.old.store ids.now }
    ensures vars { search.new.trail.vars ≡ search.old.trail.vars }
    ensures none { search.new.trail.steps ≡ [] }
{
    search.clear();
    for id in ids {
        search.drop_line(*id);
    }
}

// Takes up the lines from an id on that are rows of the problem or clauses.
fn take_lines<P: Propagator + Drop>(
    search: &mut Search<P>,
    state: &ProofState,
    first: u64,
    rows: u64,
) -> Result<(), NoMemory>
    requires undecided { IsUndecided search.old.trail }
    requires vars { search.old.trail.vars ≡ state.now.vars }
    requires positive { 0 < first }
    requires within { first ≤ state.now.next_id }
    requires fresh { (k : ℕ) → first ≤ k → get search.old.store k ≡ None }
    ensures stored { OnOk result ((p : ProblemValue) → rows ≡ length p.rows
        → IsStored p state.now first search.old.store
        → IsStored p state.now state.now.next_id search.new.store) }
    ensures trail { search.new.trail ≡ search.old.trail }
{
    for id in first..state.next_id() {
        take_line(search, state, id, rows)?;
    }
    Ok(())
}

// Takes up the line of an id, where it is a row of the problem or a clause.
fn take_line<P: Propagator + Drop>(
    search: &mut Search<P>,
    state: &ProofState,
    id: u64,
    rows: u64,
) -> Result<(), NoMemory>
    requires undecided { IsUndecided search.old.trail }
    requires vars { search.old.trail.vars ≡ state.now.vars }
    requires below { id < state.now.next_id }
    requires positive { 0 < id }
    requires fresh { get search.old.store id ≡ None }
    ensures stored { OnOk result ((p : ProblemValue) → rows ≡ length p.rows
        → IsStored p state.now id search.old.store
        → IsStored p state.now (id + 1) search.new.store) }
    ensures later { (k : ℕ) → id < k → get search.old.store k ≡ None
        → get search.new.store k ≡ None }
    ensures trail { search.new.trail ≡ search.old.trail }
{
    line_is_taken();
    line_is_passed();
    // Tells that no line has a variable above the state's.
    let _vars = state.vars();
    match state.live().get(id) {
        Some(line) => {
            if id <= rows || line.is_clause() {
                search.take(id, line)?;
            }
            Ok(())
        }
        None => Ok(()),
    }
}

impl<R: Recorder + Drop, P: Propagator + Drop> Solver<R, P> {
    // Takes up the lines and variables that came since the last call, over a trail without decisions.
    pub(crate) fn take_up(&mut self) -> Result<(), NoMemory>
        requires begun { self.old.broken ≡ true }
        requires held { IsHeld R.seen self.old }
        requires unended { Reached R.seen self.old (λ s. s.ended ≡ false) }
        ensures taken { OnOk result (IsTakenUp R.seen self.new) }
        ensures undecided { OnOk result (IsUndecided self.new.search.trail) }
        ensures recorder { self.new.recorder ≡ self.old.recorder }
        ensures limit { self.new.limit ≡ self.old.limit }
        ensures begun { self.new.broken ≡ true }
    {
        self.search.back_to(0);
        // Tells that decisions are above level 0.
        let _level = self.search.level();
        let state = self.recorder.state();
        self.search.grow(state.vars())?;
        take_lines(&mut self.search, state, self.next, self.rows)?;
        self.next = state.next_id();
        Ok(())
    }
}
