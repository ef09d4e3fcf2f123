// The outputs of a node, and those that it gets.
ghost use Rattle.std.specs.Prelude.{◌≡◌, ◌+◌, ◌-◌, ◌<◌, ◌^◌, ◌++◌, [], ◌∷◌, reverse, All, IfOk};
ghost use Rattle.sum_outputs.specs.Adding.{AddsClauses, IsReady, IsRecorded};
ghost use Rattle.sum_outputs.specs.Outputs.{AreRising, CanImplyNow};
ghost use Rattle.sum_outputs.specs.Joining.{AreDefinedNow, MayMake, SinglesImply};
ghost use Rattle.sum_outputs.specs.Sums.{last_sum};
ghost use Rattle.sum_outputs.specs.Falling.{AreAllBetween, AreExtended};

use crate::SumOutput;
use crate::clauses::add_single;
use crate::falling::{last_of, last_sum, make_falling};
use crate::inner::Inner;
use proof_rules::{RecordFault, Recorder};
use scut_base::{Items, NoMemory};
use std::alloc::Global;

// The outputs of an inner node, with those at all further sums up to the least of at least `k`, or at all.
// Neighbours are tied by clauses. Costs what the new outputs do, and a copy of the old ones.
pub(crate) fn extended<R: Recorder>(
    alloc: Global,
    rec: &mut R,
    node: &Inner<'_>,
    outputs: &[SumOutput],
    k: u64,
) -> Result<Items<SumOutput>, RecordFault>
    requires may { MayMake (R.seen rec.old) node.now k }
    requires outputs { AreDefinedNow (R.seen rec.old) node.now.terms.now outputs.now }
    requires gapless { AreAllBetween node.now.terms.now 0 (last_sum outputs.now) outputs.now }
    ensures recorded { IsRecorded (R.seen rec.old) (R.seen rec.new) result }
    ensures extended { IfOk result (AreExtended (R.seen rec.old) (R.seen rec.new)
        node.now.terms.now outputs.now k) }
{
    let falling = make_falling(alloc, rec, node, last_sum(outputs), k)?;
    tie(alloc, rec, last_of(falling.as_slice()), last_of(outputs))?;
    let all = joined(alloc, outputs, falling)?;
    Ok(all)
}

// The clauses by which outputs of a node imply smaller ones: each smaller one by the least of the greater.
pub(crate) fn tie<R: Recorder>(
    alloc: Global,
    rec: &mut R,
    greater: &[SumOutput],
    smaller: &[SumOutput],
) -> Result<(), RecordFault>
    requires ready { IsReady (R.seen rec.old) }
    requires rising { AreRising greater.now }
    requires can { All (λ o. All (λ q. CanImplyNow (R.seen rec.old) (q ∷ []) [] o) greater.now)
        smaller.now }
    ensures { AddsClauses (R.seen rec.old) (R.seen rec.new) result
        (All (λ o. SinglesImply (R.seen rec.new) greater.now o (2 ^ 64 - 1)) smaller.now) }
{
    for at in 0..smaller.len() {
        add_single(alloc, rec, greater, &[], &smaller[at], u64::MAX)?;
    }
    Ok(())
}

// The outputs with others behind them, of which the last is put first.
fn joined(
    alloc: Global,
    outputs: &[SumOutput],
    falling: Items<SumOutput>,
) -> Result<Items<SumOutput>, NoMemory>
    ensures { IfOk result (λ all. all ≡ outputs.now ++ reverse falling) }
{
    let mut falling = falling;
    let mut all = Items::with_capacity(alloc, outputs.len() + falling.len())?;
    all.extend_from_slice(outputs)?;
    while let Some(output) = falling.pop() {
        all.push(output)?;
    }
    Ok(all)
}
