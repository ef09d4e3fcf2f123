// Further outputs of a node, in rising order of sums without a gap.
ghost use Rattle.std.specs.Prelude.{◌≡◌, ◌-◌, ◌<◌, ◌≤◌, ◌^◌, [], length, drop, slice_index_or, All, IfOk};
ghost use Rattle.pb_lin.specs.Constraint.{total};
ghost use Rattle.sum_outputs.specs.Totals.{IsLeastSum};
ghost use Rattle.sum_outputs.specs.Adding.{DefinesMore, IsRecorded};
ghost use Rattle.sum_outputs.specs.Outputs.{AreRising};
ghost use Rattle.sum_outputs.specs.Joining.{AreOutputsNow, IsMade, MayMake};
ghost use Rattle.sum_outputs.specs.Sums.{IsRunTo, last_sum};
ghost use Rattle.sum_outputs.specs.Falling.{AreFallingTo};
ghost use Rattle.sum_outputs.specs.declared.sum_output.SumOutput.{SumOutput};

use crate::SumOutput;
use crate::inner::Inner;
use crate::output::make_output;
use crate::sums::least_sum;
use proof_rules::{RecordFault, Recorder};
use scut_base::{Items, NoMemory};
use std::alloc::Global;

// Makes the outputs of a node at the sums after its last one's, up to the least of at least `k` or the
// greatest. They come in falling order, so that each has the next greater one beside it when it is made. One
// call of `least_sum` and of `make_output` for each.
pub(crate) fn make_falling<R: Recorder>(
    alloc: Global,
    rec: &mut R,
    node: &Inner<'_>,
    last: u64,
    k: u64,
) -> Result<Items<SumOutput>, RecordFault>
    requires may { MayMake (R.seen rec.old) node.now k }
    requires last { last ≤ total node.now.terms.now }
    ensures recorded { IsRecorded (R.seen rec.old) (R.seen rec.new) result }
    ensures falling { IfOk result (AreFallingTo (R.seen rec.old) (R.seen rec.new)
        node.now.terms.now last k) }
    ensures defined { IfOk result (λ os. DefinesMore (R.seen rec.old) (R.seen rec.new)
        (length os)) }
{
    let mut sums = new_sums(alloc, node, last, k)?;
    let mut falling = Items::new(alloc);
    while let Some(run) = sums.pop() {
        let made = make_next(alloc, rec, node, falling.as_slice(), run)?;
        falling.push(made)?;
    }
    Ok(falling)
}

// Makes the next output below those that were made.
fn make_next<R: Recorder>(
    alloc: Global,
    rec: &mut R,
    node: &Inner<'_>,
    falling: &[SumOutput],
    run: (u64, u64),
) -> Result<SumOutput, RecordFault>
    requires may { MayMake (R.seen rec.old) node.now run.0 }
    requires falling { AreOutputsNow (R.seen rec.old) node.now.terms.now
        (drop (length falling.now - 1) falling.now) }
    requires greater { All (λ o. run.1 < o.sum) falling.now }
    requires least { IsLeastSum node.now.terms.now run.0 run.1 }
    ensures recorded { IsRecorded (R.seen rec.old) (R.seen rec.new) result }
    ensures made { IfOk result (IsMade (R.seen rec.old) (R.seen rec.new)
        node.now.terms.now run.0 run.1) }
{
    let next = last_of(falling);
    let below = next_sum(next, node.greatest + 1);
    make_output(alloc, rec, node, next, run.0, run.1, below)
}

// The sums after `last`, up to the least of at least `k` or the greatest, each after the number that follows
// the one before.
fn new_sums(
    alloc: Global,
    node: &Inner<'_>,
    last: u64,
    k: u64,
) -> Result<Items<(u64, u64)>, NoMemory>
    requires rising { AreRising node.now.first.outputs.now }
    requires rising_too { AreRising node.now.second.outputs.now }
    requires last { last ≤ total node.now.terms.now }
    requires small { total node.now.terms.now < 2 ^ 63 }
    ensures { IfOk result (IsRunTo node.now last k) }
{
    let mut sums = Items::new(alloc);
    let mut end = last;
    while end < k && end < node.greatest {
        let next = least_sum(
            node.first.outputs,
            node.second.outputs,
            end + 1,
            node.greatest,
        );
        sums.push((end + 1, next))?;
        end = next;
    }
    Ok(sums)
}

// The sum of the last output, and 0 where there is none.
pub(crate) fn last_sum(outputs: &[SumOutput]) -> u64
    ensures { result ≡ last_sum outputs.now }
{
    if outputs.is_empty() {
        return 0;
    }
    outputs[outputs.len() - 1].sum
}

// The last output alone, or none where there is none.
pub(crate) fn last_of(outputs: &[SumOutput]) -> &[SumOutput]
    ensures { result.now ≡ drop (length outputs.now - 1) outputs.now }
{
    &outputs[outputs.len().saturating_sub(1)..]
}

// The sum of the first output, or a number where there is none.
pub(crate) fn next_sum(outputs: &[SumOutput], number: u64) -> u64
    ensures none { outputs.now ≡ [] → result ≡ number }
    ensures some { (d : SumOutput) → 0 < length outputs.now
        → (slice_index_or outputs.now 0 d).sum ≡ result }
{
    if outputs.is_empty() {
        return number;
    }
    outputs[0].sum
}
