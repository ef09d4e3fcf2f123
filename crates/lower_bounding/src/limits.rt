// What the next model's costs are to keep to.
ghost use Rattle.std.specs.Prelude.{◌≡◌, length, IfOk};
ghost use Rattle.lower_bounding.specs.Raising.{AreLimits, IsLimit};

use front_set::CostVec;
use scut_base::{Items, NoMemory};
use std::alloc::Global;

// The fence where it is below its top. Where it is at its top there is no limit, since nothing exceeds that.
pub(crate) fn limits(alloc: Global, fence: &CostVec, tops: &CostVec) -> Result<CostVec, NoMemory>
    requires { length tops.now ≡ length fence.now }
    ensures { IfOk result (AreLimits fence.now tops.now) }
{
    let tops = tops.as_slice();
    let mut limits = Items::with_capacity(alloc, tops.len())?;
    for (objective, number) in fence.as_slice().iter().enumerate() {
        limits.push(limit(*number, tops[objective]))?;
    }
    Ok(CostVec::from_items(limits))
}

// The limit of one cost.
fn limit(number: i64, top: i64) -> i64
    ensures { IsLimit number top result }
{
    if number < top { number } else { i64::MAX }
}
