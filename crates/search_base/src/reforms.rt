// Objectives in their own terms.
ghost use Rattle.std.specs.Prelude.{◌≡◌, ◌≤◌, All, IfOk};
ghost use Rattle.std.specs.List.{AllZip};
ghost use Rattle.proof_laws.specs.State.{StateValue};
ghost use Rattle.proof_rules.specs.Recording.{Snapshot};
ghost use Rattle.sum_outputs.specs.Adding.{IsReached};
ghost use Rattle.sum_outputs.specs.Totals.{AreWeights};
ghost use Rattle.totalizer.specs.Reforming.{IsOwnReform};
ghost use Rattle.search_base.specs.CostBounds.{AreReforms};

use pb_lin::{CostRow, PbProblem};
use scut_base::{Items, NoMemory};
use std::alloc::Global;
use totalizer::{Reform, own_terms_serve};

/// The objectives of a problem in their own terms, for which no line is named. They serve over any lines of
/// that problem. Costs a copy of the terms.
pub fn own_reforms(alloc: Global, problem: &PbProblem) -> Result<Vec<Reform>, NoMemory>
    ensures own { IfOk result (λ v. AllZip IsOwnReform problem.now.costs v.items) }
    ensures weights { IfOk result (λ v. All (λ r. AreWeights r.terms) v.items) }
    ensures serve { IfOk result (λ v. (a : Snapshot) → a.problem ≡ problem.now
        → ((s : StateValue) → IsReached a s → problem.now.vars ≤ s.vars) → AreReforms a v.items) }
{
    own_terms_serve();
    // Tells that the rows' variables are the problem's.
    let _vars = problem.vars();
    let mut reforms = Vec::new(alloc);
    for row in problem.costs() {
        reforms.push(own_reform(alloc, row)?)?;
    }
    Ok(reforms)
}

// One objective in its own terms.
fn own_reform(alloc: Global, row: &CostRow) -> Result<Reform, NoMemory>
    ensures { IfOk result (IsOwnReform row.now) }
{
    let mut terms = Items::new(alloc);
    terms.extend_from_slice(row.terms())?;
    Ok(Reform {
        offset: row.offset(),
        terms,
        lower_line: 0,
        upper_line: 0,
    })
}
