// The state of a search, and its moves.
ghost use Rattle.std.specs.Prelude.{◌≡◌, ◌≢◌, ℕ, ◌<◌, ◌≤◌, ◌^◌, ◌↔◌, Bool, List, [], true, false, None, Some, max, length, All, IsTrue, MatchOption, IfOk, IfSome, IfNone, OnOk, OnErr};
ghost use Rattle.std.specs.FinMap.{empty, get, insert, remove};
ghost use Rattle.scut_base.specs.Literal.{Literal};
ghost use Rattle.scut_base.specs.Assignment.{partial_truth};
ghost use Rattle.pb_lin.specs.Constraint.{ConstraintValue, Holds, UpTo};
ghost use Rattle.pb_lin.specs.LineMap.{LinesUpTo};
ghost use Rattle.proof_laws.specs.Steps.{clause};
ghost use Rattle.clause_prop.specs.Steps.{TrailValue, partial, cut, last_level, with_step};
ghost use Rattle.clause_prop.specs.Propagating.{Extends, IsConflict, IsClosedFor};
ghost use Rattle.cdcl_trail.specs.SearchTrail.{IsSearchTrail, IsUndecided, IsFull, IsOfSteps, decision};
ghost use Rattle.cdcl_trail.specs.Learning.{AreHints, asserted};
ghost use Rattle.cdcl_state.specs.Analysis.{IsLesson, IsBlame, IsForcedFalse};
ghost use Rattle.cdcl_state.specs.Searching.{no_lines, IsBackTo, IsLevelOf, IsReadyToLearn};

use crate::lesson::{Blame, Lesson};
use crate::order::VariableOrder;
use crate::steps::{assignment_of, first_forced, push_decision};
use crate::waiting::{bump_all, put_back};
use crate::walk::Walk;
use cdcl_trail::{
    added_line_keeps_search, closed_full_trail_is_a_model, cut_keeps_search, decision_keeps_search,
    dropped_line_keeps_search, empty_trail_is_search, learning_keeps_search,
    more_variables_keep_search, propagation_keeps_search, steps_up_to,
};
use clause_prop::{ClauseStore, Propagator, Step, StoredLine, Trail};
use hint_rup::Hint;
use pb_lin::Constraint;
use scut_base::{Assignment, Items, Lit, NoMemory};
use std::alloc::Global;
use std::marker::Model;

/// Stored lines and a trail, in step with a propagator and an order of variables.
#[derive(Debug, Drop)]
pub struct Search<P: Propagator + Drop> {
    propagator: P,
    store: ClauseStore,
    trail: Trail,
    walk: Walk,
    order: VariableOrder,
}

impl<P: Propagator + Drop> Model for Search<P> {
    ghost use Rattle.std.specs.Coded.{codes};
    ghost use Rattle.pb_lin.specs.LineCodes.{line_code};
    ghost use Rattle.cdcl_state.specs.Searching.{SearchValue, IsSearch};

    ghost Value = { SearchValue };

    ghost coded = { Prim.hlevel (codes, line_code) };

    ghost view = { λ s. record { store = s.store; trail = s.trail } };

    ghost invariant = { λ s. IsSearch (P.in_step s.propagator s.store s.trail) s.walk s.order
        (record { store = s.store; trail = s.trail }) };
}

impl<P: Propagator + Drop> Search<P> {
    /// No line and no variable, over a propagator that is in step with these.
    pub fn new(alloc: Global, propagator: P) -> Result<Search<P>, NoMemory>
        requires { P.in_step propagator empty (record { vars = 0; steps = [] }) }
        ensures { IfOk result (λ s. s ≡ no_lines) }
    {
        empty_trail_is_search();
        Ok(Search {
            propagator,
            store: ClauseStore::new(alloc),
            trail: Trail::new(alloc, 0)?,
            walk: Walk::new(alloc),
            order: VariableOrder::new(alloc),
        })
    }

    /// The number of variables.
    pub fn vars(&self) -> u64
        ensures { result ≡ self.now.trail.vars }
    {
        self.trail.vars()
    }

    /// The level of the last step, or 0 where there is none.
    pub fn level(&self) -> u64
        ensures value { result ≡ last_level self.now.trail.steps }
        ensures search { IsSearchTrail self.now.store self.now.trail }
    {
        self.trail.level()
    }

    /// Whether the literal is true, or `None` where its variable is open.
    pub fn value(&self, lit: Lit) -> Option<bool>
        requires { lit.var ≤ self.now.trail.vars }
        ensures { result ≡ partial_truth (partial self.now.trail) lit }
    {
        self.trail.value(lit)
    }

    /// The level of the step of the literal's variable, or `None` where the variable is open.
    pub fn level_of(&self, lit: Lit) -> Option<u64>
        requires { lit.var ≤ self.now.trail.vars }
        ensures { MatchOption result (partial_truth (partial self.now.trail) lit ≡ None)
            (IsLevelOf self.now.trail lit) }
    {
        // Tells that no two steps are of one variable.
        let _steps = self.trail.len();
        match self.trail.place_of(lit) {
            Some(place) => Some(self.trail.step_at(place).level),
            None => None,
        }
    }

    /// The line of an id.
    pub fn line(&self, id: u64) -> Option<&StoredLine>
        ensures { MatchOption result (get self.now.store id ≡ None)
            (λ c. get self.now.store id ≡ Some c.now) }
    {
        self.store.get(id)
    }

    /// Makes room for variables up to `vars`, which wait to be decided. After `NoMemory` nothing has changed.
    pub fn grow(&mut self, vars: u64) -> Result<(), NoMemory>
        requires undecided { IsUndecided self.old.trail }
        requires small { vars < 2 ^ 63 }
        ensures ok { OnOk result (self.new ≡ record {
          store = self.old.store;
          trail = record { vars = max vars self.old.trail.vars; steps = self.old.trail.steps };
        }) }
        ensures err { OnErr result (self.new ≡ self.old) }
    {
        more_variables_keep_search();
        P::more_variables_keep_step();
        self.order.reserve(vars)?;
        self.walk.grow(vars)?;
        self.trail.grow(vars)?;
        self.order.grow(vars);
        Ok(())
    }

    /// Takes up a line, where nothing is decided. After `NoMemory` nothing has changed.
    pub fn take(&mut self, id: u64, line: &Constraint) -> Result<(), NoMemory>
        requires undecided { IsUndecided self.old.trail }
        requires positive { 0 < id }
        requires fresh { get self.old.store id ≡ None }
        requires variables { UpTo self.old.trail.vars line.now }
        ensures ok { OnOk result (self.new ≡ record {
          store = insert self.old.store id line.now;
          trail = self.old.trail;
        }) }
        ensures err { OnErr result (self.new ≡ self.old) }
    {
        added_line_keeps_search();
        // Tells that the line is in normal form.
        let _terms = line.len();
        store_line(&mut self.propagator, &mut self.store, &self.trail, id, line)
    }

    /// Lets go of a line that is no reason. Takes no memory.
    pub fn drop_line(&mut self, id: u64)
        requires { All (λ s. s.reason ≢ id) self.old.trail.steps }
        ensures { self.new ≡ record { store = remove self.old.store id; trail = self.old.trail } }
    {
        dropped_line_keeps_search();
        self.store.drop_id(id);
        self.propagator.dropped(&self.store, id);
    }

    /// Lets go of a line, and of the steps from the first one on that it forced. Costs its literals and the steps that
    /// go, and takes no memory.
    pub fn forget(&mut self, id: u64)
        ensures store { self.new.store ≡ remove self.old.store id }
        ensures trail { (keep : ℕ) × (self.new.trail ≡ cut self.old.trail keep) }
    {
        let Some(line) = self.store.get(id) else {
            return;
        };
        let keep = first_forced(&self.trail, line, id);
        self.cut(keep);
        self.drop_line(id);
    }

    /// Cuts the trail to its steps up to the level. Costs the steps that go, and takes no memory.
    pub fn back_to(&mut self, level: u64)
        ensures store { self.new.store ≡ self.old.store }
        ensures trail { IsBackTo level self.old.trail self.new.trail }
    {
        let keep = steps_up_to(&self.trail, level);
        self.cut(keep);
    }

    /// Takes all steps off the trail. Takes no memory.
    pub fn clear(&mut self)
        ensures { self.new ≡ record { store = self.old.store; trail = cut self.old.trail 0 } }
    {
        self.cut(0);
    }

    /// Extends the trail by what lines force, until one is violated, whose id is answered, or nothing is left to force.
    pub fn propagate(&mut self) -> Result<Option<u64>, NoMemory>
        ensures store { self.new.store ≡ self.old.store }
        ensures conflict { IfOk result
            (λ found. IfSome found (IsConflict self.new.store self.new.trail)) }
        ensures closed { IfOk result
            (λ found. IfNone found (IsClosedFor self.new.store self.new.trail)) }
        ensures extends { Extends self.old.store self.old.trail self.new.trail }
    {
        propagation_keeps_search();
        self.propagator.propagate(&self.store, &mut self.trail)
    }

    /// Decides an open literal, where nothing is left to force. Takes no memory.
    pub fn decide(&mut self, lit: Lit)
        requires closed { IsClosedFor self.old.store self.old.trail }
        requires within { lit.var ≤ self.old.trail.vars }
        requires unassigned { partial_truth (partial self.old.trail) lit ≡ None }
        ensures { self.new ≡ record {
          store = self.old.store;
          trail = with_step self.old.trail (decision self.old.trail lit);
        } }
    {
        decision_keeps_search();
        P::longer_trail_keeps_step();
        // Tells that variables count from 1.
        let _var = lit.var();
        push_decision(&mut self.trail, lit);
    }

    /// Decides an open variable of greatest activity, where nothing is left to force. False where all variables have steps,
    /// and then the trail stays. Takes no memory.
    pub fn choose(&mut self) -> bool
        requires { IsClosedFor self.old.store self.old.trail }
        ensures store { self.new.store ≡ self.old.store }
        ensures chosen { IsTrue result → (l : Literal)
            × (self.new.trail ≡ with_step self.old.trail (decision self.old.trail l)) }
        ensures full { result ≡ false → IsFull self.old.trail }
        ensures stays { result ≡ false → self.new.trail ≡ self.old.trail }
    {
        decision_keeps_search();
        P::longer_trail_keeps_step();
        match self.order.next(&self.trail) {
            Some(lit) => {
                push_decision(&mut self.trail, lit);
                true
            }
            None => false,
        }
    }

    /// The clause that a conflict above level 0 teaches. The variables that it met become more active.
    pub fn lesson(&mut self, conflict: u64) -> Result<Lesson, NoMemory>
        requires conflict { IsConflict self.old.store self.old.trail conflict }
        requires above { 0 < last_level self.old.trail.steps }
        ensures lesson { IfOk result (IsLesson self.old.store self.old.trail) }
        ensures same { self.new ≡ self.old }
    {
        let lesson = self.walk.learn(&self.store, &self.trail, conflict)?;
        bump_all(&mut self.order, lesson.met.as_slice());
        self.order.end_conflict();
        Ok(lesson)
    }

    /// The decisions by which a literal is false that a line has made so.
    pub fn blame(&mut self, lit: Lit) -> Result<Blame, NoMemory>
        requires { IsForcedFalse self.old.trail lit }
        ensures blame { IfOk result (IsBlame self.old.store self.old.trail lit) }
        ensures same { self.new ≡ self.old }
    {
        self.walk.blame(&self.store, &self.trail, lit)
    }

    /// What proves from a conflict, where nothing is decided, that nothing satisfies the lines.
    pub fn refute(&mut self, conflict: u64) -> Result<Items<Hint>, NoMemory>
        requires conflict { IsConflict self.old.store self.old.trail conflict }
        requires undecided { IsUndecided self.old.trail }
        ensures hints { IfOk result (AreHints self.old.store self.old.trail.vars []) }
        ensures same { self.new ≡ self.old }
    {
        self.walk.refute(&self.store, &self.trail, conflict)
    }

    /// Stores a learned clause, after the jump back, and adds the step that it forces. After `NoMemory` nothing has changed.
    pub fn learn(
        &mut self,
        id: u64,
        line: &Constraint,
        lit: Lit,
        level: u64,
    ) -> Result<(), NoMemory>
        requires ready { (old : TrailValue) × (top : ℕ) × (lits : List Literal)
            × (line.now ≡ clause lits)
            × IsReadyToLearn self.old.store old self.old.trail top level lits lit }
        requires positive { 0 < id }
        requires fresh { get self.old.store id ≡ None }
        ensures ok { OnOk result (self.new ≡ record {
          store = insert self.old.store id line.now;
          trail = with_step self.old.trail (asserted lit level id);
        }) }
        ensures err { OnErr result (self.new ≡ self.old) }
    {
        learning_keeps_search();
        P::longer_trail_keeps_step();
        // Tells that the line is in normal form.
        let _terms = line.len();
        store_line(&mut self.propagator, &mut self.store, &self.trail, id, line)?;
        self.trail.push(Step {
            lit,
            level,
            reason: id,
        });
        Ok(())
    }

    /// The assignment of a trail on which all variables have steps, where nothing is left to force: it makes every line hold.
    pub fn model(&self, alloc: Global) -> Result<Assignment, NoMemory>
        requires closed { IsClosedFor self.now.store self.now.trail }
        requires full { IsFull self.now.trail }
        ensures length { IfOk result (λ a. length a ≡ self.now.trail.vars) }
        ensures steps { IfOk result (IsOfSteps self.now.trail) }
        ensures holds { IfOk result (λ a. (id : ℕ) (c : ConstraintValue)
            → get self.now.store id ≡ Some c → Holds a c) }
    {
        closed_full_trail_is_a_model();
        assignment_of(alloc, &self.trail)
    }

    // Cuts the trail to its first steps.
    fn cut(&mut self, keep: u64)
        requires { keep ≤ length self.old.trail.steps }
        ensures { self.new ≡ record { store = self.old.store; trail = cut self.old.trail keep } }
    {
        cut_keeps_search();
        put_back(&mut self.order, &self.trail, keep);
        self.propagator.shrinking(&self.store, &self.trail, keep);
        self.trail.cut(keep);
    }
}

// Stores a line, and has the propagator take it up. After `NoMemory` it isn't stored.
fn store_line<P: Propagator>(
    propagator: &mut P,
    store: &mut ClauseStore,
    trail: &Trail,
    id: u64,
    line: &Constraint,
) -> Result<(), NoMemory>
    requires in_step { P.in_step propagator.old store.old trail.now }
    requires fresh { get store.old id ≡ None }
    requires variables { LinesUpTo trail.now.vars store.old }
    requires line { UpTo trail.now.vars line.now }
    ensures ok { OnOk result (store.new ≡ insert store.old id line.now) }
    ensures err { OnErr result (store.new ≡ store.old) }
    ensures in_step { P.in_step propagator.new store.new trail.now }
{
    store.put(id, line)?;
    match propagator.added(store, trail, id) {
        Ok(()) => Ok(()),
        Err(NoMemory) => {
            store.drop_id(id);
            Err(NoMemory)
        }
    }
}
