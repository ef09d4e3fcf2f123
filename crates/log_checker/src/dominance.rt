// Weak dominance of costs as an instance shows them.
ghost use Rattle.std.specs.Prelude.{◌≡◌};
ghost use Rattle.instance.specs.ParetoFront.{is_as_good, weakly_dominates};
ghost use Rattle.log_checker.specs.ListJudging.{any_comparable, are_comparable};

use front_set::{CostVec, Entry};
use instance::{Objective, Sense};

// Whether an entry weakly dominates these costs, or the reverse. Costs the objectives of each
// entry.
pub(crate) fn any_comparable(objectives: &[Objective], entries: &[Entry], costs: &CostVec) -> bool
    ensures { result ≡ any_comparable objectives.now entries.now costs.now }
{
    entries
        .iter()
        .any(|entry| are_comparable(objectives, &entry.costs, costs))
}

fn are_comparable(objectives: &[Objective], one: &CostVec, other: &CostVec) -> bool
    ensures { result ≡ are_comparable objectives.now one.now other.now }
{
    let (one, other) = (one.as_slice(), other.as_slice());
    weakly_dominates(objectives, one, other) || weakly_dominates(objectives, other, one)
}

/// Whether each number is as good as the other's, by the sense of its objective. Vectors of another length than the objectives'
/// dominate nothing.
pub fn weakly_dominates(objectives: &[Objective], one: &[i64], other: &[i64]) -> bool
    ensures { result ≡ weakly_dominates objectives.now one.now other.now }
{
    if one.len() != objectives.len() || other.len() != objectives.len() {
        return false;
    }
    for i in 0..objectives.len() {
        if !is_as_good(objectives[i].sense, one[i], other[i]) {
            return false;
        }
    }
    true
}

fn is_as_good(sense: Sense, one: i64, other: i64) -> bool
    ensures { result ≡ is_as_good sense one other }
{
    match sense {
        Sense::Min => one <= other,
        Sense::Max => one >= other,
    }
}
