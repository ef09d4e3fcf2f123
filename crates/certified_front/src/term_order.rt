// Objectives with their terms in a better order (DECISIONS, term-order). A node of a totalizer has an output for each sum of
// its weights, so that terms of one weight side by side make few outputs; and terms that share constraints side by side make
// outputs that say something. So terms whose neighbours share constraints clearly more than other pairs do stay in their order,
// and others are sorted by weight. Nothing of which order it is is promised.
ghost use Rattle.std.specs.Prelude.{IfOk};
ghost use Rattle.std.specs.List.{AllZip};
ghost use Rattle.proof_rules.specs.Recording.{Snapshot};
ghost use Rattle.search_base.specs.CostBounds.{AreReforms};
ghost use Rattle.certified_front.specs.Orders.{IsReordered};

use crate::sharing::Sharing;
use pb_lin::PbProblem;
use scut_base::{Items, Lit, NoMemory};
use std::alloc::Global;
use totalizer::Reform;

// The objectives of a problem, each with its terms in the order that its totalizer's tree is built in. They serve
// wherever the given ones do. Costs a walk over the problem's literals for each objective.
pub(crate) fn ordered(
    alloc: Global,
    problem: &PbProblem,
    reforms: Vec<Reform>,
) -> Result<Vec<Reform>, NoMemory>
    ensures same { IfOk result (λ v. AllZip IsReordered reforms.items v.items) }
    ensures serve { IfOk result (λ v. (a : Snapshot) → AreReforms a reforms.items
        → AreReforms a v.items) }
{
    let mut sharing = Sharing::new(alloc, problem)?;
    let mut ordered = Vec::with_capacity(alloc, reforms.len())?;
    for reform in reforms {
        ordered.push(reordered(alloc, &mut sharing, reform)?)?;
    }
    Ok(ordered)
}

// One objective with its terms in that order.
fn reordered(alloc: Global, sharing: &mut Sharing<'_>, reform: Reform) -> Result<Reform, NoMemory>
    ensures { IfOk result (IsReordered reform) }
{
    if sharing.is_of_neighbours(alloc, reform.terms.as_slice())? {
        return Ok(reform);
    }
    let mut terms = reform.terms.into_vec();
    terms.sort_by_key(|term: &(Lit, u64)| term.1)?;
    Ok(Reform {
        offset: reform.offset,
        terms: Items::from_vec(terms),
        lower_line: reform.lower_line,
        upper_line: reform.upper_line,
    })
}
