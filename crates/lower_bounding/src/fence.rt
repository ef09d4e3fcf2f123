// The fence: what the next model is to cost at most, objective by objective.
ghost use Rattle.std.specs.Prelude.{◌≡◌, ◌<◌, refl, IfOk, map};
ghost use Rattle.lower_bounding.specs.Fences.{MovesFence, Serves, own_number};
ghost use Rattle.lower_bounding.specs.Raising.{TellsOfFence};

use crate::limits::limits;
use crate::raising::raised;
use crate::tops::greatest_cost;
use front_set::CostVec;
use pb_lin::PbProblem;
use relaxations::{Aims, Wanted};
use scut_base::{Items, NoMemory};
use search_base::{Board, Bounds};
use std::alloc::Global;
use std::marker::Model;

// Upper bounds of the costs, and what each cost is at most, below which they stay.
#[derive(Debug, Drop)]
pub(crate) struct Fence {
    fence: CostVec,
    tops: CostVec,
}

impl Model for Fence {
    ghost use Rattle.lower_bounding.specs.Fences.{FenceValue};

    ghost Value = { FenceValue };

    ghost view = { λ s. record { fence = s.fence; tops = s.tops } };
}

impl Fence {
    // The least costs of the problem's objectives.
    pub(crate) fn around(alloc: Global, problem: &PbProblem) -> Result<Fence, NoMemory>
        ensures fence { IfOk result (λ s. s.fence ≡ map (λ r. r.offset) problem.now.costs) }
        ensures serves { IfOk result (λ s. Serves s problem.now) }
    {
        let mut fence = Items::new(alloc);
        let mut tops = Items::new(alloc);
        for row in problem.costs() {
            fence.push(row.offset())?;
            tops.push(greatest_cost(row))?;
        }
        Ok(Fence {
            fence: CostVec::from_items(fence),
            tops: CostVec::from_items(tops),
        })
    }

    pub(crate) fn costs(&self) -> &CostVec
        ensures { result.now ≡ self.now.fence }
    {
        &self.fence
    }
}

impl Aims for Fence {
    ghost own = { own_number };

    ghost serves = { Serves };

    ghost tells = { TellsOfFence };

    ghost moves = { λ a b s now turn. MovesFence a b s.fence now.fence turn };

    // A model inside the fence.
    fn wanted(&self, alloc: Global) -> Result<Wanted, NoMemory> {
        let limits = limits(alloc, &self.fence, &self.tops)?;
        Ok(Wanted::Within(limits))
    }

    // The fence stays.
    fn found(&mut self, _alloc: Global, _board: &Board<'_>) -> Result<(), NoMemory> {
        Ok(())
    }

    // The numbers that stand in the way rise.
    fn none_left(
        &mut self,
        alloc: Global,
        bounds: &Bounds,
        stands: &[bool],
    ) -> Result<(), NoMemory> {
        self.fence = raised(alloc, bounds, &self.fence, &self.tops, stands)?;
        Ok(())
    }

    ghost finished = { λ a b aim id. refl };
}
