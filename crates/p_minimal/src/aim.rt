// The vector that is improved.
ghost use Rattle.std.specs.Prelude.{◌≡◌, ◌<◌, None, refl, IfOk, option_copied};
ghost use Rattle.p_minimal.specs.Aiming.{Aims as MovesAim, Serves, TellsOfAim, own_number};

use front_set::CostVec;
use relaxations::{Aims, Wanted};
use scut_base::{Duplicate, NoMemory};
use search_base::{Board, Bounds};
use std::alloc::Global;
use std::marker::Model;

// The costs that the next turn tries to improve, if there are any.
#[derive(Debug, Drop)]
pub(crate) struct Aim {
    costs: Option<CostVec>,
}

impl Model for Aim {
    ghost use Rattle.std.specs.Prelude.{List, Option, ℤ};

    ghost Value = { Option (List ℤ) };

    ghost view = { λ s. s.costs };
}

impl Aim {
    // None.
    pub(crate) fn none() -> Aim
        ensures { result ≡ None }
    {
        Aim { costs: None }
    }

    pub(crate) fn costs(&self) -> Option<&CostVec>
        ensures { option_copied result ≡ self.now }
    {
        self.costs.as_ref()
    }
}

impl Aims for Aim {
    ghost own = { own_number };

    ghost serves = { Serves };

    ghost tells = { TellsOfAim };

    ghost moves = { MovesAim };

    // A model that is better, or any where there is no aim.
    fn wanted(&self, alloc: Global) -> Result<Wanted, NoMemory> {
        match &self.costs {
            Some(costs) => Ok(Wanted::Better(costs.copy(alloc)?)),
            None => Ok(Wanted::Any),
        }
    }

    // The costs of the model are the new aim.
    fn found(&mut self, alloc: Global, board: &Board<'_>) -> Result<(), NoMemory> {
        self.costs = copy_of(alloc, board.last())?;
        Ok(())
    }

    // The aim is given up.
    fn none_left(
        &mut self,
        _alloc: Global,
        _bounds: &Bounds,
        _stands: &[bool],
    ) -> Result<(), NoMemory> {
        self.costs = None;
        Ok(())
    }

    ghost finished = { λ a b aim id. refl };
}

fn copy_of(alloc: Global, costs: Option<&CostVec>) -> Result<Option<CostVec>, NoMemory>
    ensures { IfOk result (λ copy. copy ≡ option_copied costs.entry) }
{
    match costs {
        Some(costs) => Ok(Some(costs.copy(alloc)?)),
        None => Ok(None),
    }
}
