// The walk back over a trail, with marks on the steps that led to a conflict.
ghost use Rattle.std.specs.Prelude.{◌≡◌, ◌<◌, ◌≤◌, [], IfOk, OnOk, OnErr, max};
ghost use Rattle.clause_prop.specs.Steps.{last_level};
ghost use Rattle.clause_prop.specs.Propagating.{IsConflict};
ghost use Rattle.cdcl_trail.specs.SearchTrail.{AreLines, IsSearchTrail, IsUndecided};
ghost use Rattle.cdcl_trail.specs.Learning.{AreHints};
ghost use Rattle.cdcl_state.specs.Analysis.{IsBlame, IsForcedFalse, IsLesson};

use crate::implied::Implied;
use crate::marks::Marks;
use crate::{Blame, Lesson};
use clause_prop::{ClauseStore, Trail};
use hint_rup::Hint;
use scut_base::{Items, Lit, NoMemory};
use std::alloc::Global;
use std::marker::Model;

/// Room for walks over trails of so many variables. Contracts see that number. Between calls nothing
/// is marked.
#[derive(Debug, Drop)]
pub struct Walk {
    alloc: Global,
    marks: Marks,
    implied: Implied,
}

impl Model for Walk {
    ghost use Rattle.std.specs.Prelude.{ℕ, ◌≤◌, length};
    ghost use Rattle.cdcl_state.specs.Minimising.{IsIdle};
    ghost use Rattle.cdcl_state.specs.Walking.{IsUnmarked};

    ghost Value = { ℕ };

    ghost view = { λ w. length w.marks.on.items };

    ghost invariant = { λ w. IsUnmarked w.marks × IsIdle w.implied
        × (length w.marks.on.items ≤ length w.implied.memo.items) };
}

impl Walk {
    /// Room for no variable. Takes no memory.
    pub fn new(alloc: Global) -> Walk
        ensures { result ≡ 0 }
    {
        Walk {
            alloc,
            marks: Marks::new(alloc),
            implied: Implied::new(alloc),
        }
    }

    /// Makes room for so many variables. After `NoMemory` nothing has changed.
    pub fn grow(&mut self, vars: u64) -> Result<(), NoMemory>
        ensures ok { OnOk result (self.new ≡ max vars self.old) }
        ensures err { OnErr result (self.new ≡ self.old) }
    {
        self.implied.grow(vars)?;
        self.marks.grow(vars)
    }

    /// The clause of the first unique implication point (Marques-Silva and Sakallah 1999; Moskewicz and
    /// others 2001) of a conflict above level 0, without the literals that the others imply (Sörensson
    /// and Biere 2009). Costs the lines of the steps that it resolves or finds to be implied or not, the
    /// steps of the highest level, and a sort of the clause. It may be called again after `NoMemory`.
    pub fn learn(
        &mut self,
        store: &ClauseStore,
        trail: &Trail,
        conflict: u64,
    ) -> Result<Lesson, NoMemory>
        requires room { trail.now.vars ≤ self.old }
        requires lines { AreLines trail.now.vars store.now }
        requires search { IsSearchTrail store.now trail.now }
        requires conflict { IsConflict store.now trail.now conflict }
        requires above { 0 < last_level trail.now.steps }
        ensures lesson { IfOk result (λ r. IsLesson store.now trail.now r) }
        ensures room { self.new ≡ self.old }
    {
        // Tells that there are at most as many steps as variables.
        let _steps = trail.len();
        let lesson = self
            .marks
            .lesson(self.alloc, &mut self.implied, store, trail, conflict);
        self.marks.clear();
        self.implied.clear();
        lesson
    }

    /// Who is to blame for a literal that is false by a step that a line forces. Costs the lines of the
    /// steps that led to that, and a sort of these and of the literals. It may be called again after
    /// `NoMemory`.
    pub fn blame(&mut self, store: &ClauseStore, trail: &Trail, lit: Lit) -> Result<Blame, NoMemory>
        requires room { trail.now.vars ≤ self.old }
        requires lines { AreLines trail.now.vars store.now }
        requires search { IsSearchTrail store.now trail.now }
        requires falsified { IsForcedFalse trail.now lit }
        ensures blame { IfOk result (λ r. IsBlame store.now trail.now lit r) }
        ensures room { self.new ≡ self.old }
    {
        // Tells that there are at most as many steps as variables.
        let _steps = trail.len();
        let blame = self.marks.blame(self.alloc, store, trail, lit);
        self.marks.clear();
        blame
    }

    /// What proves from a conflict, where nothing is decided, that nothing satisfies the lines. Costs
    /// the lines of the steps that led to it, and a sort of these steps. It may be called again after
    /// `NoMemory`.
    pub fn refute(
        &mut self,
        store: &ClauseStore,
        trail: &Trail,
        conflict: u64,
    ) -> Result<Items<Hint>, NoMemory>
        requires room { trail.now.vars ≤ self.old }
        requires lines { AreLines trail.now.vars store.now }
        requires search { IsSearchTrail store.now trail.now }
        requires conflict { IsConflict store.now trail.now conflict }
        requires undecided { IsUndecided trail.now }
        ensures hints { IfOk result (λ hints. AreHints store.now trail.now.vars [] hints) }
        ensures room { self.new ≡ self.old }
    {
        // Tells that there are at most as many steps as variables.
        let _steps = trail.len();
        let hints = self.marks.refutation(self.alloc, store, trail, conflict);
        self.marks.clear();
        hints
    }
}
