// A propagator with the store and the trail that it works on.
ghost use Rattle.std.specs.Prelude.{◌≡◌, ◌≤◌, ℕ, [], None, IfOk};
ghost use Rattle.std.specs.FinMap.{empty, get};
ghost use Rattle.pb_lin.specs.Constraint.{UpTo};
ghost use Rattle.pb_lin.specs.LineMap.{LinesUpTo};
ghost use Rattle.clause_prop.specs.Steps.{TrailValue};

use clause_prop::{ClauseStore, Propagator, Step, Trail};
use pb_lin::Constraint;
use scut_base::{Lit, NoMemory};
use std::alloc::Global;
use std::marker::Model;

// Keeps a propagator in step. Contracts see the number of variables.
#[derive(Drop)]
pub struct Fixture<P: Propagator + Drop> {
    store: ClauseStore,
    trail: Trail,
    prop: P,
}

impl<P: Propagator + Drop> Model for Fixture<P> {
    ghost use Rattle.std.specs.Prelude.{ℕ};
    ghost use Rattle.pb_lin.specs.LineMap.{LinesUpTo};

    ghost Value = { ℕ };

    ghost view = { λ f. f.trail.vars };

    ghost invariant = { λ f. P.in_step f.prop f.store f.trail × LinesUpTo f.trail.vars f.store };
}

impl<P: Propagator + Drop> Fixture<P> {
    // No line and no step, over so many variables.
    pub fn new(alloc: Global, vars: u64, prop: P) -> Result<Fixture<P>, NoMemory>
        requires { (n : ℕ) → P.in_step prop empty (record { vars = n; steps = [] }) }
        ensures { IfOk result (λ f. f ≡ vars) }
    {
        Ok(Fixture {
            store: ClauseStore::new(alloc),
            trail: Trail::new(alloc, vars)?,
            prop,
        })
    }

    // The trail as it is.
    pub fn trail(&self) -> &Trail
        ensures { result.now.vars ≡ self.now }
    {
        &self.trail
    }

    // Gives an id this line, in place of the one that it had.
    pub fn put(&mut self, id: u64, line: &Constraint) -> Result<(), NoMemory>
        requires { UpTo self.old line.now }
        ensures { self.new ≡ self.old }
    {
        drop_line(&mut self.store, &mut self.prop, id);
        add_line(&mut self.store, &self.trail, &mut self.prop, id, line)
    }

    // Makes a literal true, at a level of its own; whether it was open.
    pub fn decide(&mut self, lit: Lit) -> bool
        requires { lit.var ≤ self.old }
        ensures { self.new ≡ self.old }
    {
        if self.trail.value(lit).is_some() {
            return false;
        }
        P::longer_trail_keeps_step();
        let level = self.trail.level().saturating_add(1);
        self.trail.push(Step {
            lit,
            level,
            reason: 0,
        });
        true
    }

    // Leaves the first steps.
    pub fn cut(&mut self, keep: u64)
        ensures { self.new ≡ self.old }
    {
        let keep = keep.min(self.trail.len());
        self.prop.shrinking(&self.store, &self.trail, keep);
        self.trail.cut(keep);
    }

    // Extends the trail by what lines force; the id of one that is violated.
    pub fn propagate(&mut self) -> Result<Option<u64>, NoMemory>
        ensures { self.new ≡ self.old }
    {
        self.prop.propagate(&self.store, &mut self.trail)
    }
}

// Drops the line of an id.
fn drop_line<P: Propagator>(store: &mut ClauseStore, prop: &mut P, id: u64)
    ensures free { get store.new id ≡ None }
    ensures lines { (n : ℕ) → LinesUpTo n store.old → LinesUpTo n store.new }
    ensures in_step { (t : TrailValue) → P.in_step prop.old store.old t
        → P.in_step prop.new store.new t }
{
    store.drop_id(id);
    prop.dropped(store, id);
}

// Stores a line under an id that has none.
fn add_line<P: Propagator>(
    store: &mut ClauseStore,
    trail: &Trail,
    prop: &mut P,
    id: u64,
    line: &Constraint,
) -> Result<(), NoMemory>
    requires free { get store.old id ≡ None }
    requires line { UpTo trail.now.vars line.now }
    requires lines { LinesUpTo trail.now.vars store.old }
    requires in_step { P.in_step prop.old store.old trail.now }
    ensures lines { LinesUpTo trail.now.vars store.new }
    ensures in_step { P.in_step prop.new store.new trail.now }
{
    store.put(id, line)?;
    let added = prop.added(store, trail, id);
    if added.is_err() {
        store.drop_id(id);
    }
    added
}
