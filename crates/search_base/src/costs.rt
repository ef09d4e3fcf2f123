// The costs of a model of the problem.
ghost use Rattle.std.specs.Prelude.{◌≡◌, ◌≤◌, length, IfOk};
ghost use Rattle.pb_lin.specs.Problem.{problem_costs};

use front_set::CostVec;
use pb_lin::{PbProblem, row_cost};
use scut_base::{Assignment, Items, NoMemory};
use std::alloc::Global;

/// What each objective costs under an assignment of the problem's variables, perhaps with others after them.
/// Takes one pass over the terms.
pub fn costs_at(alloc: Global, problem: &PbProblem, a: &Assignment) -> Result<CostVec, NoMemory>
    requires { problem.now.vars ≤ length a.now }
    ensures { IfOk result (λ costs. costs ≡ problem_costs problem.now a.now) }
{
    // Tells that the rows' variables are the problem's.
    let _vars = problem.vars();
    let mut costs = Items::new(alloc);
    for row in problem.costs() {
        costs.push(row_cost(row, a))?;
    }
    Ok(CostVec::from_items(costs))
}
