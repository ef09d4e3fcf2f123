// Clauses from the outputs of a node's children to an output of the node.
ghost use Rattle.std.specs.Prelude.{◌+◌, ◌<◌, ◌≤◌, [], ◌∷◌, All, AllPairs};
ghost use Rattle.pb_lin.specs.Place.{IsPlace};
ghost use Rattle.sum_outputs.specs.Adding.{AddsClauses, Always, IsReady};
ghost use Rattle.sum_outputs.specs.Outputs.{AreRising, CanImplyNow, Imply};
ghost use Rattle.sum_outputs.specs.Joining.{AreChildrenNow, AreImplying, IsLeastBetween, IsTargetNow, PairsImply, SinglesImply};

use crate::SumOutput;
use crate::clause::add_clause;
use crate::inner::Inner;
use proof_rules::{RecordFault, Recorder};
use scut_base::Lit;
use std::alloc::Global;

/// The place of the first output whose sum isn't below a number; where there is none, their count.
pub fn place_of(outputs: &[SumOutput], number: u64) -> usize
    requires { AllPairs (λ o q. o.sum < q.sum) outputs.now }
    ensures { IsPlace (λ o. o.sum) outputs.now number result }
{
    outputs.partition_point(|output| output.sum < number)
}

// The least of these outputs whose sum is at least one number, where it is below another.
fn least_between(outputs: &[SumOutput], from: u64, below: u64) -> Option<SumOutput>
    requires { AllPairs (λ o q. o.sum < q.sum) outputs.now }
    ensures { IsLeastBetween outputs.now from below result }
{
    let least = outputs.get(place_of(outputs, from))?;
    if least.sum < below {
        Some(*least)
    } else {
        None
    }
}

// Adds the clause of the least of these outputs whose sum is at least the target's, where it is below a
// number. Each greater one implies that one.
pub(crate) fn add_single<R: Recorder>(
    alloc: Global,
    rec: &mut R,
    parts: &[SumOutput],
    weakened: &[(Lit, u64)],
    target: &SumOutput,
    below: u64,
) -> Result<(), RecordFault>
    requires ready { IsReady (R.seen rec.old) }
    requires rising { AreRising parts.now }
    requires can { All (λ o. target.now.sum ≤ o.sum → CanImplyNow (R.seen rec.old)
        (o ∷ []) weakened.now target.now) parts.now }
    ensures { AddsClauses (R.seen rec.old) (R.seen rec.new) result
        (SinglesImply (R.seen rec.new) parts.now target.now below) }
{
    match least_between(parts, target.sum, below) {
        Some(least) => imply_by_one(alloc, rec, &least, weakened, target),
        None => Ok(()),
    }
}

// Adds the clause of this output and the least of the others with which it reaches the target's sum, where
// both together are below a number. With each greater one it implies that too.
fn add_pair<R: Recorder>(
    alloc: Global,
    rec: &mut R,
    part: &SumOutput,
    others: &[SumOutput],
    target: &SumOutput,
    below: u64,
) -> Result<(), RecordFault>
    requires ready { IsReady (R.seen rec.old) }
    requires rising { AreRising others.now }
    requires can { All (λ o. target.now.sum ≤ part.now.sum + o.sum → CanImplyNow (R.seen rec.old)
        (part.now ∷ o ∷ []) [] target.now) others.now }
    ensures { AddsClauses (R.seen rec.old) (R.seen rec.new) result
        (PairsImply (R.seen rec.new) part.now others.now target.now below) }
{
    let rest = target.sum.saturating_sub(part.sum);
    match least_between(others, rest, below.saturating_sub(part.sum)) {
        Some(least) => imply_by_two(alloc, rec, part, &least, target),
        None => Ok(()),
    }
}

// The clause of one output.
fn imply_by_one<R: Recorder>(
    alloc: Global,
    rec: &mut R,
    part: &SumOutput,
    weakened: &[(Lit, u64)],
    target: &SumOutput,
) -> Result<(), RecordFault>
    requires ready { IsReady (R.seen rec.old) }
    requires can { CanImplyNow (R.seen rec.old) (part.now ∷ []) weakened.now target.now }
    ensures { AddsClauses (R.seen rec.old) (R.seen rec.new) result
        (Always (R.seen rec.new) (Imply (part.now ∷ []) target.now)) }
{
    add_clause(alloc, rec, &[*part], weakened, *target)
}

// The clause of a pair.
fn imply_by_two<R: Recorder>(
    alloc: Global,
    rec: &mut R,
    first: &SumOutput,
    second: &SumOutput,
    target: &SumOutput,
) -> Result<(), RecordFault>
    requires ready { IsReady (R.seen rec.old) }
    requires can { CanImplyNow (R.seen rec.old) (first.now ∷ second.now ∷ []) [] target.now }
    ensures { AddsClauses (R.seen rec.old) (R.seen rec.new) result
        (Always (R.seen rec.new) (Imply (first.now ∷ second.now ∷ []) target.now)) }
{
    add_clause(alloc, rec, &[*first, *second], &[], *target)
}

// Adds clauses from the outputs of a node's children to the target, by which each output, and each pair of
// outputs, implies it whose sum is at least the target's and below a number: a clause for the least of each
// child, and for each of the first child's below the target a clause with its least partner.
// Greater ones imply these by the ties between neighbours, so propagation forces the same; clauses for all
// pairs would be as many as the product of both children's outputs.
pub(crate) fn add_window<R: Recorder>(
    alloc: Global,
    rec: &mut R,
    node: &Inner<'_>,
    target: &SumOutput,
    below: u64,
) -> Result<(), RecordFault>
    requires ready { IsReady (R.seen rec.old) }
    requires children { AreChildrenNow (R.seen rec.old) node.now }
    requires target { IsTargetNow (R.seen rec.old) node.now target.now }
    ensures { AddsClauses (R.seen rec.old) (R.seen rec.new) result
        (AreImplying (R.seen rec.new) node.now target.now below) }
{
    add_single(
        alloc,
        rec,
        node.first.outputs,
        node.second.terms,
        target,
        below,
    )?;
    add_single(
        alloc,
        rec,
        node.second.outputs,
        node.first.terms,
        target,
        below,
    )?;
    add_pairs(
        alloc,
        rec,
        node.first.outputs,
        node.second.outputs,
        target,
        below,
    )
}

// Adds for each of the first outputs whose sum is below the target's the clause with its least partner.
fn add_pairs<R: Recorder>(
    alloc: Global,
    rec: &mut R,
    firsts: &[SumOutput],
    seconds: &[SumOutput],
    target: &SumOutput,
    below: u64,
) -> Result<(), RecordFault>
    requires ready { IsReady (R.seen rec.old) }
    requires rising { AreRising firsts.now }
    requires rising_too { AreRising seconds.now }
    requires can { All (λ o. All (λ q. target.now.sum ≤ o.sum + q.sum
        → CanImplyNow (R.seen rec.old) (o ∷ q ∷ []) [] target.now) seconds.now) firsts.now }
    ensures { AddsClauses (R.seen rec.old) (R.seen rec.new) result
        (All (λ o. o.sum < target.now.sum → PairsImply (R.seen rec.new) o seconds.now
        target.now below) firsts.now) }
{
    for at in 0..place_of(firsts, target.sum) {
        add_pair(alloc, rec, &firsts[at], seconds, target, below)?;
    }
    Ok(())
}
