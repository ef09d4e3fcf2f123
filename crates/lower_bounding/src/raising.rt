// Fences that rise.
ghost use Rattle.std.specs.Prelude.{◌≡◌, ◌<◌, ◌<ℤ◌, true, length, IfOk};
ghost use Rattle.search_base.specs.CostBounds.{FitSome};
ghost use Rattle.lower_bounding.specs.Raising.{CanRaise, IsRaised, RisesWhere};

use front_set::CostVec;
use scut_base::{Items, NoMemory};
use search_base::Bounds;
use std::alloc::Global;

// The fence with each number that stands in the way raised. Costs a binary search for each of these.
pub(crate) fn raised(
    alloc: Global,
    bounds: &Bounds,
    fence: &CostVec,
    tops: &CostVec,
    stands: &[bool],
) -> Result<CostVec, NoMemory>
    requires fits { FitSome bounds.now }
    requires bounds { length bounds.now ≡ length fence.now }
    requires tops { length tops.now ≡ length fence.now }
    requires can { CanRaise fence.now tops.now stands.now }
    ensures { IfOk result (IsRaised fence.now tops.now stands.now) }
{
    let tops = tops.as_slice();
    let mut numbers = Items::with_capacity(alloc, tops.len())?;
    for (objective, number) in fence.as_slice().iter().enumerate() {
        let stands = stands[objective];
        numbers.push(raised_number(bounds, objective, stands, *number, tops[objective]))?;
    }
    Ok(CostVec::from_items(numbers))
}

// The number, or where it stands in the way the next one that the objective's reform can have, where that is
// known, but at most its top.
fn raised_number(bounds: &Bounds, objective: usize, stands: bool, number: i64, top: i64) -> i64
    requires fits { FitSome bounds.now }
    requires there { objective < length bounds.now }
    requires below { stands ≡ true → number <ℤ top }
    ensures { RisesWhere stands number top result }
{
    if !stands {
        return number;
    }
    match bounds.next_value(objective, number) {
        Some(next) => next.min(top),
        None => number + 1,
    }
}
