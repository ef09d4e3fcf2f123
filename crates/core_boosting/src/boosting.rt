// The boosting of objectives.
ghost use Rattle.std.specs.Prelude.{◌≡◌, ◌+◌, ◌<◌, length, slice_index_or, IfOk, OnOk};
ghost use Rattle.pb_lin.specs.CostRow.{CostRowValue};
ghost use Rattle.proof_laws.specs.Earned.{IsBoosted};
ghost use Rattle.oracle.specs.Solving.{Reaches};
ghost use Rattle.totalizer.specs.Reforming.{IsOwnReform};
ghost use Rattle.search_base.specs.CostBounds.{AreReforms};
ghost use Rattle.search_base.specs.Laws.{IsPrepared};
ghost use Rattle.search_base.specs.Turns.{IsInOrder};
ghost use Rattle.core_boosting.specs.Boosting.{BoostsFirst, BoostsOn, EndsBoosting, HaveLeastOffsets, IsReformNow, MayBoost};

use crate::cores::take_up_cores;
use oracle::{Oracle, OracleFault};
use pb_lin::{CostRow, PbProblem};
use scut_base::{Items, NoMemory};
use std::alloc::Global;
use totalizer::Reform;

/// The objective in other terms, whose offset is raised by cores of its literals until an assignment that satisfies the
/// rows and every live clause makes all literals of the terms false; or until the line `0 >= 1` is live, or the state has
/// more than 2^40 variables. Objectives are counted from 0. After `Spent` the oracle may be asked again.
///
/// Costs a call of the oracle for each core and one more; and for a core of k literals its outputs of a totalizer, one
/// line for each, and a pass over the terms.
pub fn boost<O: Oracle>(
    alloc: Global,
    oracle: &mut O,
    problem: &PbProblem,
    objective: usize,
) -> Result<Reform, OracleFault>
    requires problem { (O.seen oracle.old).problem ≡ problem.now }
    requires may { MayBoost (O.seen oracle.old) }
    requires there { objective < length problem.now.costs }
    ensures reform { IfOk result (λ r. (d : CostRowValue) → IsReformNow (O.seen oracle.new)
        (slice_index_or problem.now.costs objective d) r) }
    ensures ends { IfOk result (λ r. Reaches problem.now (O.seen oracle.new).lines
        (EndsBoosting problem.now r.terms)) }
    ensures goes_on { BoostsOn (O.seen oracle.old) (O.seen oracle.new) result }
{
    // Tells that the rows' variables are the problem's.
    let _vars = problem.vars();
    let mut reform = own_reform(alloc, &problem.costs()[objective])?;
    take_up_cores(alloc, oracle, &mut reform)?;
    Ok(reform)
}

// The objective in its own terms.
fn own_reform(alloc: Global, row: &CostRow) -> Result<Reform, NoMemory>
    ensures { IfOk result (IsOwnReform row.now) }
{
    let mut terms = Items::new(alloc);
    terms.extend_from_slice(row.terms())?;
    Ok(Reform {
        offset: row.offset(),
        terms,
        lower_line: 0,
        upper_line: 0,
    })
}

/// All objectives in other terms, boosted in order. The lines are boosted then: as soon as the line `0 >= 1` is live or
/// there are more than 2^40 variables, or else at the end, where lines bound each objective by its least value, which is
/// the offset answered for it. After `Spent` the oracle may be asked again. Costs what `boost` does for each objective.
pub fn boost_all<O: Oracle>(
    alloc: Global,
    oracle: &mut O,
    problem: &PbProblem,
) -> Result<Vec<Reform>, OracleFault>
    requires problem { (O.seen oracle.old).problem ≡ problem.now }
    requires prepared { IsPrepared (O.seen oracle.old) }
    ensures reforms { IfOk result (λ v. AreReforms (O.seen oracle.new) v.items) }
    ensures boosted { IfOk result (λ v. IsBoosted problem.now (O.seen oracle.new).lines) }
    ensures least { IfOk result
        (λ v. HaveLeastOffsets problem.now (O.seen oracle.new).lines v.items) }
    ensures prepared { IsInOrder result → IsPrepared (O.seen oracle.new) }
    ensures goes_on { BoostsOn (O.seen oracle.old) (O.seen oracle.new) result }
{
    // Tells that the problem is within its limits.
    let _vars = problem.vars();
    let mut reforms = Items::new(alloc);
    for _ in 0..problem.costs().len() {
        boost_next(alloc, oracle, problem, &mut reforms)?;
    }
    Ok(reforms.into_vec())
}

// Boosts the objective after those that were.
fn boost_next<O: Oracle>(
    alloc: Global,
    oracle: &mut O,
    problem: &PbProblem,
    reforms: &mut Items<Reform>,
) -> Result<(), OracleFault>
    requires problem { (O.seen oracle.old).problem ≡ problem.now }
    requires first { BoostsFirst (O.seen oracle.old) reforms.old }
    requires there { length reforms.old < length problem.now.costs }
    ensures first { OnOk result (BoostsFirst (O.seen oracle.new) reforms.new) }
    ensures count { OnOk result (length reforms.new ≡ length reforms.old + 1) }
    ensures goes_on { BoostsOn (O.seen oracle.old) (O.seen oracle.new) result }
{
    // Tells that the problem is within its limits.
    let _vars = problem.vars();
    let reform = boost(alloc, oracle, problem, reforms.len())?;
    // Tells that a text can spell each line, for which the laws of the rule book are.
    let _state = oracle.state();
    reforms.push(reform)?;
    Ok(())
}
