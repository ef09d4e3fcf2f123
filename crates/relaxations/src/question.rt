// The question whether a model's costs are at most given limits.
ghost use Rattle.std.specs.Prelude.{◌≡◌, ◌<◌, length, slice_index_or, All, pos, ◌+ℤ◌, IfOk, IfErr, OnOk, MatchBool};
ghost use Rattle.pb_lin.specs.CostRow.{CostRowValue, IsCostRow};
ghost use Rattle.sum_outputs.specs.Adding.{IsReady, IsRecorded};
ghost use Rattle.search_base.specs.CostBounds.{FitBounds, IsCostBound};
ghost use Rattle.relaxations.specs.Questions.{AddsDenial, IsLimited, IsQuestion, IsUndeniable};

use front_set::CostVec;
use proof_rules::{RecordFault, Recorder};
use scut_base::{Items, Lit};
use search_base::{Bounds, turn_lines_join, turn_lines_keep_own};
use std::alloc::Global;
use sum_outputs::in_memory;
use totalizer::{Bound, own_lines_stay};

// What stands for "the cost exceeds its limit", objective by objective, and the literals that deny it; none
// where it can't be denied of the last one beside the others.
#[derive(Drop)]
pub(crate) struct Question {
    pub(crate) excesses: Items<Bound>,
    pub(crate) last: Bound,
    pub(crate) lits: Option<Items<Lit>>,
}

// The literals to be assumed so that no cost exceeds its limit. Costs a bound for each objective, and a walk
// over the literals for each.
pub(crate) fn questioned<R: Recorder>(
    alloc: Global,
    rec: &mut R,
    bounds: &mut Bounds,
    limits: &CostVec,
) -> Result<Question, RecordFault>
    requires ready { IsReady (R.seen rec.old) }
    requires fits { FitBounds (R.seen rec.old) bounds.old }
    requires costs { All (λ r. IsCostRow r.terms r.offset) (R.seen rec.old).problem.costs }
    requires count { length limits.now ≡ length (R.seen rec.old).problem.costs }
    ensures recorded { IsRecorded (R.seen rec.old) (R.seen rec.new) result }
    ensures asked { IfOk result
        (λ q. IsQuestion (R.seen rec.new) limits.now q.excesses q.last q.lits) }
    ensures fits { OnOk result (FitBounds (R.seen rec.new) bounds.new) }
{
    own_lines_stay();
    turn_lines_join();
    turn_lines_keep_own();
    let mut excesses = Items::new(alloc);
    let mut lits = Items::new(alloc);
    for (objective, limit) in limits.as_slice().iter().enumerate() {
        let excess = excess_of(rec, bounds, objective, *limit)?;
        in_memory(excesses.push(excess))?;
        if !deny(&mut lits, excess)? {
            return Ok(Question {
                excesses,
                last: excess,
                lits: None,
            });
        }
    }
    Ok(Question {
        excesses,
        last: Bound::Never,
        lits: Some(lits),
    })
}

// What stands for "the objective's cost exceeds this number".
fn excess_of<R: Recorder>(
    rec: &mut R,
    bounds: &mut Bounds,
    objective: usize,
    limit: i64,
) -> Result<Bound, RecordFault>
    requires ready { IsReady (R.seen rec.old) }
    requires fits { FitBounds (R.seen rec.old) bounds.old }
    requires costs { All (λ r. IsCostRow r.terms r.offset) (R.seen rec.old).problem.costs }
    requires there { objective < length (R.seen rec.old).problem.costs }
    ensures recorded { IsRecorded (R.seen rec.old) (R.seen rec.new) result }
    ensures bound { IfOk result (λ bound. (d : CostRowValue) → IsCostBound (R.seen rec.new).problem
        (R.seen rec.new).lines (slice_index_or (R.seen rec.old).problem.costs objective d)
        (limit +ℤ pos 1) bound) }
    ensures limited { IfOk result (IsLimited limit) }
    ensures fits { OnOk result (FitBounds (R.seen rec.new) bounds.new) }
{
    match limit.checked_add(1) {
        Some(least) => bounds.at_least(rec, objective, least),
        // Costs are below 2^63.
        None => Ok(Bound::Never),
    }
}

// Adds what must be true where the bound isn't reached; `false` where that can't be beside the literals.
fn deny(lits: &mut Items<Lit>, bound: Bound) -> Result<bool, RecordFault>
    ensures fault { IfErr result (λ f. f ≡ RecordFault.NoMemory) }
    ensures denied { IfOk result
        (λ able. MatchBool able
        (AddsDenial lits.old lits.new bound) (IsUndeniable lits.old bound)) }
{
    match bound {
        Bound::Always { .. } => Ok(false),
        Bound::Never => Ok(true),
        Bound::At { lit, .. } => {
            let denial = lit.not();
            if lits.as_slice().contains(&lit) {
                return Ok(false);
            }
            if !lits.as_slice().contains(&denial) {
                lits.push(denial).map_err(|_| RecordFault::NoMemory)?;
            }
            Ok(true)
        }
    }
}
