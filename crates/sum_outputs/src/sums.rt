// Sums of a node's terms, by the outputs of its children.
ghost use Rattle.std.specs.Prelude.{◌+◌, ◌<◌, ◌≤◌, ◌^◌, MatchOption};
ghost use Rattle.sum_outputs.specs.Outputs.{AreRising};
ghost use Rattle.sum_outputs.specs.Sums.{IsLeastOf, IsLeastWith, IsLessOf, NoneWith};

use crate::SumOutput;
use crate::clauses::place_of;

// The least sum of at least `k`, of an output or none of the one child and an output or none of the other;
// `total` is the greatest. One binary search in the second for each of the first.
pub(crate) fn least_sum(firsts: &[SumOutput], seconds: &[SumOutput], k: u64, total: u64) -> u64
    requires rising { AreRising firsts.now }
    requires rising_too { AreRising seconds.now }
    requires most { k ≤ total }
    ensures { IsLeastOf firsts.now seconds.now k total result }
{
    let mut least = less_of(total, least_with(0, seconds, k));
    for first in firsts {
        least = less_of(least, least_with(first.sum, seconds, k));
    }
    least
}

// The least sum of at least `k`, of a number and an output or none.
fn least_with(base: u64, outputs: &[SumOutput], k: u64) -> Option<u64>
    requires rising { AreRising outputs.now }
    requires small { base < 2 ^ 63 }
    ensures { MatchOption result (NoneWith base outputs.now k) (IsLeastWith base outputs.now k) }
{
    if k <= base {
        return Some(base);
    }
    let place = place_of(outputs, k - base);
    if place < outputs.len() {
        return Some(base + outputs[place].sum);
    }
    None
}

// The less of two numbers, of which one may be missing.
fn less_of(number: u64, other: Option<u64>) -> u64
    ensures { IsLessOf number other result }
{
    match other {
        Some(other) => number.min(other),
        None => number,
    }
}
