// The cost rows of objectives.
ghost use Rattle.std.specs.Prelude.{◌≡◌, ◌<◌, ◌+◌, ◌^◌, ◌++◌, map, sum_by, length, unsigned_abs, All, IfOk, OnOk};
ghost use Rattle.std.specs.List.{AllZip, flat_map};
ghost use Rattle.instance.specs.Shape.{ClauseUpTo, IsObjectiveWithin, objective_magnitude, terms_magnitude};
ghost use Rattle.instance.specs.ParetoFront.{problem_number};
ghost use Rattle.instance_normal.specs.NormalForm.{IsCostRowOf, cost_source, cost_sources};
ghost use Rattle.instance_normal.specs.Fitting.{AddsRows};

use crate::cost::cost_row;
use crate::draft::{Draft, add_softs};
use instance::{Objective, Sense};
use pb_lin::CostRow;
use scut_base::{Items, Lit, NoMemory};
use std::alloc::Global;

// Adds the rows and variables that the objectives' soft clauses need, and answers their cost rows.
pub(crate) fn add_objectives(
    alloc: Global,
    objectives: &[Objective],
    draft: &mut Draft,
) -> Result<Items<CostRow>, NoMemory>
    requires within { All (IsObjectiveWithin draft.old.vars) objectives.now }
    requires room { draft.old.vars + sum_by (λ o. length o.softs) objectives.now < 2 ^ 33 }
    ensures rows { OnOk result
        (AddsRows draft.old draft.new (flat_map (λ o. o.softs) objectives.now)) }
    ensures costs { IfOk result
        (AllZip IsCostRowOf (cost_sources (draft.old.vars + 1) objectives.now)) }
{
    let mut costs = Items::new(alloc);
    for objective in objectives {
        let row = add_objective(alloc, objective, draft)?;
        costs.push(row)?;
    }
    Ok(costs)
}

// The same of one.
fn add_objective(
    alloc: Global,
    objective: &Objective,
    draft: &mut Draft,
) -> Result<CostRow, NoMemory>
    requires clauses { All (λ s. ClauseUpTo draft.old.vars s.lits) objective.now.softs }
    requires magnitude { objective_magnitude objective.now < 2 ^ 63 }
    requires room { draft.old.vars + length objective.now.softs < 2 ^ 33 }
    ensures rows { OnOk result (AddsRows draft.old draft.new objective.now.softs) }
    ensures row { IfOk result (IsCostRowOf (cost_source (draft.old.vars + 1) objective.now)) }
{
    let costs = add_softs(alloc, objective.softs.as_slice(), draft)?;
    let mut terms = costs.terms;
    add_terms(&mut terms, objective.sense, objective.terms.as_slice())?;
    let offset = costs.offset as i64 + as_minimised(objective.sense, objective.offset);
    cost_row(alloc, terms.as_slice(), offset)
}

// Adds the terms of an objective, as a minimised one would have them.
fn add_terms(
    terms: &mut Items<(i64, Lit)>,
    sense: Sense,
    more: &[(i64, Lit)],
) -> Result<(), NoMemory>
    requires { terms_magnitude more.now < 2 ^ 63 }
    ensures { OnOk result (terms.new
        ≡ terms.old ++ map (λ t. (problem_number sense t.0, t.1)) more.now) }
{
    for term in more {
        terms.push((as_minimised(sense, term.0), term.1))?;
    }
    Ok(())
}

// The number as a minimised objective would have it.
fn as_minimised(sense: Sense, number: i64) -> i64
    requires { unsigned_abs number < 2 ^ 63 }
    ensures { result ≡ problem_number sense number }
{
    match sense {
        Sense::Min => number,
        Sense::Max => -number,
    }
}
