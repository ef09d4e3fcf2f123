// Costs as an instance shows them, and as a problem that only minimises has them.
ghost use Rattle.std.specs.Prelude.{◌≡◌, ◌<◌, ◌^◌, unsigned_abs, length, All, IfOk};
ghost use Rattle.instance.specs.ParetoFront.{problem_number, problem_numbers};

use crate::{Objective, Sense};
use scut_base::NoMemory;
use std::alloc::Global;

// These numbers with the sign changed of each at a maximised objective.
pub(crate) fn problem_numbers(
    alloc: Global,
    objectives: &[Objective],
    numbers: &[i64],
) -> Result<Vec<i64>, NoMemory>
    requires length { length numbers.now ≡ length objectives.now }
    requires small { All (λ x. unsigned_abs x < 2 ^ 63) numbers.now }
    ensures { IfOk result (λ all. all.items ≡ problem_numbers objectives.now numbers.now) }
{
    let mut all = Vec::with_capacity(alloc, numbers.len())?;
    for i in 0..numbers.len() {
        all.push(problem_number(objectives[i].sense, numbers[i]))?;
    }
    Ok(all)
}

// The number as a minimised objective would have it.
fn problem_number(sense: Sense, number: i64) -> i64
    requires { unsigned_abs number < 2 ^ 63 }
    ensures { result ≡ problem_number sense number }
{
    match sense {
        Sense::Min => number,
        Sense::Max => -number,
    }
}
