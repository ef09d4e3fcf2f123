// The normal form of an instance.
ghost use Rattle.std.specs.Prelude.{◌≡◌, ◌++◌, map, All, IfOk};
ghost use Rattle.std.specs.List.{AllZip, flat_map};
ghost use Rattle.instance.specs.Shape.{IsWithinLimits};
ghost use Rattle.instance_normal.specs.NormalForm.{Clause, IsNormalFormOf, IsRowOf, linear_sources};
ghost use Rattle.instance_normal.specs.Fitting.{Fits};

use crate::draft::Draft;
use crate::objective::add_objectives;
use crate::rows::{add_clauses, add_linear};
use instance::Instance;
use pb_lin::PbProblem;
use scut_base::{Items, NoMemory};
use std::alloc::Global;

/// The normal form of an instance: its clauses and linear rows as constraints in normal form, a
/// relaxation variable and a row for each soft clause of two distinct literals or more, and a cost row
/// for each objective. Takes one pass, and a sort of each clause and row.
pub fn normalise(alloc: Global, inst: &Instance) -> Result<PbProblem, NoMemory>
    ensures { IfOk result (IsNormalFormOf inst.now) }
{
    let mut draft = instance_rows(alloc, inst)?;
    let costs = add_objectives(alloc, inst.objectives.as_slice(), &mut draft)?;
    Ok(PbProblem::from_parts(draft.vars, draft.rows, costs))
}

// The rows of the hard clauses and of the linear rows.
fn instance_rows(alloc: Global, inst: &Instance) -> Result<Draft, NoMemory>
    ensures vars { IfOk result (λ d. d.vars ≡ inst.now.vars) }
    ensures limits { IsWithinLimits inst.now }
    ensures rows { IfOk result (λ d.
        AllZip IsRowOf (map Clause inst.now.clauses ++ flat_map linear_sources inst.now.linear) d.rows) }
    ensures fits { IfOk result (λ d. All (Fits inst.now.vars) d.rows) }
{
    let mut rows = Items::new(alloc);
    add_clauses(alloc, &inst.clauses, &mut rows)?;
    add_linear(alloc, inst.linear.as_slice(), &mut rows)?;
    Ok(Draft {
        vars: inst.vars(),
        rows,
    })
}
