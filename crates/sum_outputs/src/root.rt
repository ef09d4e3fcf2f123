// An output of the root, where it is asked for (DECISIONS, outputs).
ghost use Rattle.std.specs.Prelude.{⊤, ◌≡◌, ◌≢◌, ◌<◌, ◌≤◌, ◌^◌, ◌++◌, [], ◌∷◌, true, false, length, take, drop, slice_index_or, slice_set, All, AllPairs, IfOk};
ghost use Rattle.pb_lin.specs.Constraint.{total};
ghost use Rattle.sum_outputs.specs.Totals.{IsLeastSum};
ghost use Rattle.pb_lin.specs.Place.{IsPlace};
ghost use Rattle.sum_outputs.specs.Outputs.{CanImplyNow};
ghost use Rattle.sum_outputs.specs.Falling.{IsAsked, asked_from};
ghost use Rattle.sum_outputs.specs.Adding.{AddsClauses, IsReady, IsRecorded};
ghost use Rattle.sum_outputs.specs.declared.sum_output.SumOutput.{SumOutput};
ghost use Rattle.sum_outputs.specs.Joining.{AreDefinedNow, AreOutputsNow, IsMade, MayMake};

use crate::SumOutput;
use crate::clauses::place_of;
use crate::falling::{last_of, next_sum};
use crate::inner::Inner;
use crate::node_outputs::tie;
use crate::output::make_output;
use crate::sums::least_sum;
use proof_rules::{RecordFault, Recorder};
use scut_base::{Items, NoMemory};
use std::alloc::Global;

/// The output of the root at the least sum of at least `k`, which is made where it isn't there, and all
/// outputs of the root. Costs a binary search for each output of the first child, and a copy of the
/// outputs; and where the output is made, its lines. A recorder's refusal is handed on, as is a want of
/// memory.
pub fn ask<R: Recorder>(
    alloc: Global,
    rec: &mut R,
    node: &Inner<'_>,
    outputs: &[SumOutput],
    k: u64,
) -> Result<(SumOutput, Items<SumOutput>), RecordFault>
    requires may { MayMake (R.seen rec.old) node.now k }
    requires outputs { AreDefinedNow (R.seen rec.old) node.now.terms.now outputs.now }
    requires most { k ≤ total node.now.terms.now }
    ensures recorded { IsRecorded (R.seen rec.old) (R.seen rec.new) result }
    ensures asked { IfOk result (λ r. IsAsked (R.seen rec.old) (R.seen rec.new)
        node.now.terms.now outputs.now k r.0 r.1) }
{
    let sum = least_sum(node.first.outputs, node.second.outputs, k, node.greatest);
    let place = place_of(outputs, sum);
    if has_sum(outputs, place, sum) {
        let again = asked_again(alloc, outputs, place, k)?;
        return Ok(again);
    }
    ask_anew(alloc, rec, node, outputs, place, k, sum)
}

// Whether the output at a place has this sum.
fn has_sum(outputs: &[SumOutput], place: usize, sum: u64) -> bool
    requires rising { AllPairs (λ o q. o.sum < q.sum) outputs.now }
    requires place { IsPlace (λ o. o.sum) outputs.now sum place }
    ensures there { result ≡ true → (place < length outputs.now)
        × ((d : SumOutput) → (slice_index_or outputs.now place d).sum ≡ sum) }
    ensures absent { result ≡ false → All (λ o. o.sum ≢ sum) outputs.now }
{
    place < outputs.len() && outputs[place].sum == sum
}

// The output at a place, for a smaller number too, and all outputs.
fn asked_again(
    alloc: Global,
    outputs: &[SumOutput],
    place: usize,
    k: u64,
) -> Result<(SumOutput, Items<SumOutput>), NoMemory>
    requires { place < length outputs.now }
    ensures { IfOk result (λ r. (d : SumOutput)
        → (r.0 ≡ asked_from k (slice_index_or outputs.now place d))
        × (r.1 ≡ slice_set outputs.now place r.0)) }
{
    let asked = asked_from(&outputs[place], k);
    let all = replaced(alloc, outputs, place, &asked)?;
    Ok((asked, all))
}

// The output, for a smaller number too.
fn asked_from(output: &SumOutput, k: u64) -> SumOutput
    ensures { result ≡ asked_from k output.now }
{
    SumOutput {
        sum: output.sum,
        from: k,
        lit: output.lit,
        lower: output.lower,
        upper: output.upper,
    }
}

// The outputs with another at a place.
fn replaced(
    alloc: Global,
    outputs: &[SumOutput],
    place: usize,
    by: &SumOutput,
) -> Result<Items<SumOutput>, NoMemory>
    requires { place < length outputs.now }
    ensures { IfOk result (λ all. all ≡ slice_set outputs.now place by.now) }
{
    let mut all = Items::with_capacity(alloc, outputs.len())?;
    all.extend_from_slice(outputs)?;
    all.set(place, *by);
    Ok(all)
}

// Makes the output of the root at a sum that has none, the least of at least `k`, and answers it and all
// outputs. Its neighbours are tied to it by clauses. Costs what the output does, and a copy of the others.
fn ask_anew<R: Recorder>(
    alloc: Global,
    rec: &mut R,
    node: &Inner<'_>,
    outputs: &[SumOutput],
    place: usize,
    k: u64,
    sum: u64,
) -> Result<(SumOutput, Items<SumOutput>), RecordFault>
    requires may { MayMake (R.seen rec.old) node.now k }
    requires outputs { AreDefinedNow (R.seen rec.old) node.now.terms.now outputs.now }
    requires place { IsPlace (λ o. o.sum) outputs.now sum place }
    requires absent { All (λ o. o.sum ≢ sum) outputs.now }
    requires least { IsLeastSum node.now.terms.now k sum }
    ensures recorded { IsRecorded (R.seen rec.old) (R.seen rec.new) result }
    ensures asked { IfOk result (λ r. IsAsked (R.seen rec.old) (R.seen rec.new)
        node.now.terms.now outputs.now k r.0 r.1) }
{
    let made = make_between(alloc, rec, node, &outputs[place..], k, sum)?;
    tie_one(alloc, rec, &made, last_of(&outputs[..place]))?;
    let all = inserted(alloc, outputs, place, made)?;
    Ok((made, all))
}

// The clauses by which an output of a node implies smaller ones.
fn tie_one<R: Recorder>(
    alloc: Global,
    rec: &mut R,
    greater: &SumOutput,
    smaller: &[SumOutput],
) -> Result<(), RecordFault>
    requires ready { IsReady (R.seen rec.old) }
    requires small { greater.now.sum < 2 ^ 63 }
    requires can { All (CanImplyNow (R.seen rec.old) (greater.now ∷ []) []) smaller.now }
    ensures { AddsClauses (R.seen rec.old) (R.seen rec.new) result ⊤ }
{
    tie(alloc, rec, &[*greater], smaller)
}

// The outputs with one more at a place.
fn inserted(
    alloc: Global,
    outputs: &[SumOutput],
    place: usize,
    output: SumOutput,
) -> Result<Items<SumOutput>, NoMemory>
    requires { place ≤ length outputs.now }
    ensures { IfOk result (λ all. all
        ≡ (take place outputs.now ++ output ∷ []) ++ drop place outputs.now) }
{
    let mut all = Items::with_capacity(alloc, outputs.len() + 1)?;
    all.extend_from_slice(&outputs[..place])?;
    all.push(output)?;
    all.extend_from_slice(&outputs[place..])?;
    Ok(all)
}

// Makes the output of the root at a sum that has none: the least of at least `k`. The outputs of other sums
// are there in any number; the next greater one implies it.
fn make_between<R: Recorder>(
    alloc: Global,
    rec: &mut R,
    node: &Inner<'_>,
    greater: &[SumOutput],
    k: u64,
    sum: u64,
) -> Result<SumOutput, RecordFault>
    requires may { MayMake (R.seen rec.old) node.now k }
    requires outputs { AreOutputsNow (R.seen rec.old) node.now.terms.now greater.now }
    requires greater { All (λ o. sum < o.sum) greater.now }
    requires least { IsLeastSum node.now.terms.now k sum }
    ensures recorded { IsRecorded (R.seen rec.old) (R.seen rec.new) result }
    ensures made { IfOk result (IsMade (R.seen rec.old) (R.seen rec.new) node.now.terms.now k sum) }
{
    let next = first_of(greater);
    let below = next_sum(next, node.greatest + 1);
    make_output(alloc, rec, node, next, k, sum, below)
}

// The first output alone, or none where there is none.
fn first_of(outputs: &[SumOutput]) -> &[SumOutput]
    ensures { result.now ≡ take 1 outputs.now }
{
    &outputs[..outputs.len().min(1)]
}
