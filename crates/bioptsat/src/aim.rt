// What a search for two objectives aims at.
ghost use Rattle.std.specs.Prelude.{◌≡◌, ◌<◌, ◌∷◌, [], refl, IfOk};
ghost use Rattle.bioptsat.specs.Aims.{MovesAim, Serves, aim_after, given_up, own_number};
ghost use Rattle.bioptsat.specs.Asking.{IsOneLess, TellsOfAim};

use front_set::CostVec;
use relaxations::{Aims, Wanted};
use scut_base::{Duplicate, NoMemory};
use search_base::{Board, Bounds};
use std::alloc::Global;
use std::mem;

// What the next model's costs are to be.
#[derive(Drop)]
pub(crate) enum Aim {
    // Any.
    Anything,
    // A smaller first cost than this vector's.
    First(CostVec),
    // No greater first cost than this vector's, which is the least, and a smaller second one.
    Second(CostVec),
}

impl Aim {
    // The same aim at the vector that was logged last. Where there was no aim, a smaller first cost.
    pub(crate) fn at_last(&self, alloc: Global, board: &Board<'_>) -> Result<Aim, NoMemory>
        ensures { IfOk result (λ now. now ≡ aim_after self.now board.now.last) }
    {
        let Some(last) = board.last() else {
            return Ok(Aim::Anything);
        };
        let copy = last.copy(alloc)?;
        match self {
            Aim::Second(_) => Ok(Aim::Second(copy)),
            _ => Ok(Aim::First(copy)),
        }
    }

    // The aim where nothing that is left meets it.
    pub(crate) fn give_up(&mut self)
        ensures { self.new ≡ given_up self.old }
    {
        *self = match mem::replace(self, Aim::Anything) {
            Aim::First(costs) => Aim::Second(costs),
            _ => Aim::Anything,
        };
    }
}

impl Aims for Aim {
    ghost own = { own_number };

    ghost serves = { Serves };

    ghost tells = { TellsOfAim };

    ghost moves = { MovesAim };

    // A model whose first cost is less; or no greater, and the second one is less. Nothing costs as little as the least `i64`.
    fn wanted(&self, alloc: Global) -> Result<Wanted, NoMemory> {
        match self {
            Aim::Anything => Ok(Wanted::Any),
            Aim::First(costs) => within(alloc, one_less(costs.get(0)), i64::MAX),
            Aim::Second(costs) => within(alloc, costs.get(0), one_less(costs.get(1))),
        }
    }

    fn found(&mut self, alloc: Global, board: &Board<'_>) -> Result<(), NoMemory> {
        *self = self.at_last(alloc, board)?;
        Ok(())
    }

    fn none_left(
        &mut self,
        _alloc: Global,
        _bounds: &Bounds,
        _stands: &[bool],
    ) -> Result<(), NoMemory> {
        self.give_up();
        Ok(())
    }

    ghost finished = { λ a b aim id. refl };
}

// A model whose costs are at most these two.
fn within(alloc: Global, first: i64, second: i64) -> Result<Wanted, NoMemory>
    ensures { IfOk result (λ wanted. wanted ≡ Wanted.Within (first ∷ second ∷ [])) }
{
    let limits = CostVec::from_slice(alloc, &[first, second])?;
    Ok(Wanted::Within(limits))
}

// One less than the number, where an `i64` can be that.
fn one_less(number: i64) -> i64
    ensures { IsOneLess number result }
{
    number.saturating_sub(1)
}
