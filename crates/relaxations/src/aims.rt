// What a search aims at.
ghost use Rattle.std.specs.Prelude.{◌≡◌, ◌<◌, ℕ, length, List, Bool, IfOk, OnOk, OnErr};
ghost use Rattle.pb_lin.specs.Problem.{ProblemValue};
ghost use Rattle.proof_rules.specs.Recording.{Snapshot};
ghost use Rattle.search_base.specs.CostBounds.{FitSome};
ghost use Rattle.relaxations.specs.Aims.{TakesModel};
ghost use Rattle.relaxations.specs.Wanting.{HasCostRows, IsOf, TellsOf};

use crate::{Below, Wanted};
use scut_base::NoMemory;
use search_base::{Board, Bounds, Turn};
use std::alloc::Global;

/// What a search aims at: which model it wants next, and what comes of each answer. `Relaxations::turn` is the turn of a
/// search by such aims.
pub trait Aims {
    ghost use Rattle.search_base.specs.declared.turn.Turn.{Turn};
    ghost use Rattle.search_base.specs.declared.turn.Turn.TheVariants.{Finished};
    ghost use Rattle.relaxations.specs.declared.below.Below.{Below};

    /// What a turn without a model lowers.
    ghost own: { Self → ℕ };

    /// It was made for this problem.
    ghost serves: { Self → ProblemValue → Type 0 };

    /// What an answer tells of the aim.
    ghost tells: { Snapshot → Self → Below → Type 0 };

    /// What each answer of a turn says of the aim.
    ghost moves: { Snapshot → Snapshot → Self → Self → Turn → Type 0 };

    /// Which model is wanted next. What is told of that is told of the aim.
    fn wanted(&self, alloc: Global) -> Result<Wanted, NoMemory>
        requires serves { (p : ProblemValue) × serves self.now p }
        ensures of { IfOk result (λ wanted. (p : ProblemValue) → serves self.now p → IsOf p wanted) }
        ensures tells { IfOk result (λ wanted. (b : Snapshot) (below : Below)
            → serves self.now b.problem → HasCostRows b.problem
            → TellsOf b wanted below → tells b self.now below) };

    /// After a model that was wanted was taken: the board's last vector is what was logged of it.
    fn found(&mut self, alloc: Global, board: &Board<'_>) -> Result<(), NoMemory>
        ensures found { OnOk result ((a m b : Snapshot) (x : List Bool)
            → serves self.old a.problem → tells m self.old (Below.Model x)
            → TakesModel a m b x board.now
            → moves a b self.old self.new Turn.Found × serves self.new b.problem) }
        ensures same { OnErr result (self.new ≡ self.old) };

    /// Where none that is wanted is left, and these limits stand in the way.
    fn none_left(&mut self, alloc: Global, bounds: &Bounds, stands: &[bool]) -> Result<(), NoMemory>
        requires fits { FitSome bounds.now }
        requires told { (m : Snapshot) × serves self.old m.problem
            × tells m self.old (Below.Above stands.now)
            × (length bounds.now ≡ length m.problem.costs) }
        ensures moved { OnOk result ((a m : Snapshot)
            → serves self.old m.problem → tells m self.old (Below.Above stands.now)
            → (own self.new < own self.old) × moves a m self.old self.new Turn.Moved
            × serves self.new m.problem) }
        ensures same { OnErr result (self.new ≡ self.old) };

    /// Where nothing is left the aim stays.
    ghost finished: { (a b : Snapshot) (aim : Self) (id : ℕ) → moves a b aim aim (Finished id) };
}
