// The search from below.
ghost use Rattle.std.specs.Prelude.{◌≡◌, IfOk, IfErr, map};
ghost use Rattle.search_base.specs.Good.{GoesOn, IsGood, KeepsBoard};
ghost use Rattle.search_base.specs.Turns.{IsInOrder, IsSearchFault, IsTurn};
ghost use Rattle.lower_bounding.specs.Fences.{MovesFence, Serves, own_number};

use crate::fence::Fence;
use front_set::CostVec;
use oracle::{Oracle, OracleFault};
use pb_lin::PbProblem;
use relaxations::Relaxations;
use scut_base::NoMemory;
use search_base::{Board, Bounds, Search, Turn};
use std::alloc::Global;
use std::marker::Model;

/// Finds models whose costs are at most those of a fence. Where none is left, the numbers of the fence that
/// stand in the way rise. Linear relaxations of the problem are asked before the oracle.
#[derive(Drop)]
pub struct LowerBounding {
    fence: Fence,
    relaxations: Relaxations,
}

impl Model for LowerBounding {
    ghost use Rattle.lower_bounding.specs.Fences.{FenceValue};

    ghost Value = { FenceValue };

    ghost view = { λ s. s.fence };
}

impl LowerBounding {
    /// A search whose fence are the least costs, and which asks linear relaxations of the problem before it asks the
    /// oracle. Costs what `Relaxations::new` does.
    pub fn new(alloc: Global, problem: &PbProblem) -> Result<LowerBounding, NoMemory>
        ensures fence { IfOk result (λ s. s.fence ≡ map (λ r. r.offset) problem.now.costs) }
        ensures serves { IfOk result (λ s. Serves s problem.now) }
    {
        Ok(LowerBounding {
            fence: Fence::around(alloc, problem)?,
            relaxations: Relaxations::new(alloc, problem)?,
        })
    }

    /// What the costs of the next model are to be at most.
    pub fn fence(&self) -> &CostVec
        ensures { result.now ≡ self.now.fence }
    {
        self.fence.costs()
    }
}

impl Search for LowerBounding {
    ghost own = { own_number };

    ghost serves = { Serves };

    ghost begins = { λ s. ⊥ };

    /// One turn. It asks for a model whose costs are at most the fence: `Found` where there is one, and the
    /// fence stays; `Finished` where no model at all is left. Else `Moved`: the numbers that stand in the way
    /// rise, each to the next value that its objective is known to have, or by one.
    fn turn<O: Oracle>(
        &mut self,
        oracle: &mut O,
        bounds: &mut Bounds,
        board: &mut Board<'_>,
    ) -> Result<Turn, OracleFault>
        requires good { IsGood (O.seen oracle.old) bounds.old board.old }
        requires serves { Serves self.old (O.seen oracle.old).problem }
        ensures turn { IfOk result (IsTurn (O.seen oracle.old) (O.seen oracle.new)
            (own_number self.old) (own_number self.new)) }
        ensures fence { IfOk result (MovesFence (O.seen oracle.old) (O.seen oracle.new)
            self.old.fence self.new.fence) }
        ensures same_fence { IfErr result (λ f. self.new ≡ self.old) }
        ensures good { IsInOrder result → IsGood (O.seen oracle.new) bounds.new board.new }
        ensures serves { IsInOrder result → Serves self.new (O.seen oracle.new).problem }
        ensures fault { IfErr result (IsSearchFault (O.seen oracle.old) (O.seen oracle.new)) }
        ensures goes_on { GoesOn (O.seen oracle.old) (O.seen oracle.new) }
        ensures board { KeepsBoard board.old board.new }
    {
        self.relaxations
            .turn(&mut self.fence, oracle, bounds, board)
    }
}
