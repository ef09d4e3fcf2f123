// What stands for "the sum is at least k", for k above 0.
ghost use Rattle.std.specs.Prelude.{◌≡◌, ◌<◌, ◌≤◌, length, pos, All, AllPairs, Contains, IfOk, OnOk, MatchOption};
ghost use Rattle.pb_lin.specs.Constraint.{total};
ghost use Rattle.sum_outputs.specs.Adding.{IsReady, IsRecorded};
ghost use Rattle.sum_outputs.specs.Tree.{IsTree};
ghost use Rattle.totalizer.specs.Meaning.{IsBound};
ghost use Rattle.totalizer.specs.Totalizing.{root_terms, Fits};
ghost use Rattle.totalizer.specs.Demanding.{AddsFor};
ghost use Rattle.totalizer.specs.Knowing.{IsKnown, IsUnknown};

use crate::Bound;
use crate::asking::make;
use proof_rules::{RecordFault, Recorder};
use scut_base::{Items, Lit};
use std::alloc::Global;
use sum_outputs::{Node, SumOutput, place_of};

// What stands for "the sum is at least `k`", which is made where it isn't there.
pub(crate) fn bound_at<R: Recorder>(
    alloc: Global,
    rec: &mut R,
    nodes: &[Node],
    made: &mut Items<Items<SumOutput>>,
    k: u64,
) -> Result<Bound, RecordFault>
    requires ready { IsReady (R.seen rec.old) }
    requires fits { Fits (R.seen rec.old) (record { nodes = nodes.now; made = made.old }) }
    requires from_one { 0 < k }
    ensures recorded { IsRecorded (R.seen rec.old) (R.seen rec.new) result }
    ensures bound { IfOk result (IsBound (R.seen rec.new).problem (R.seen rec.new).lines
        (root_terms nodes.now) (pos k)) }
    ensures added { IfOk result (AddsFor (R.seen rec.old) (R.seen rec.new)
        (pos k) (record { nodes = nodes.now; made = made.old })
        (record { nodes = nodes.now; made = made.new })) }
    ensures fits { OnOk result (Fits (R.seen rec.new)
        (record { nodes = nodes.now; made = made.new })) }
{
    if total_of(nodes) < k {
        return Ok(Bound::Never);
    }
    let root = nodes.len() - 1;
    match known(nodes[root].terms.as_slice(), made.at(root).as_slice(), k) {
        Some(bound) => Ok(bound),
        None => make(alloc, rec, nodes, made, k),
    }
}

// The sum of all weights; 0 where there is no node.
fn total_of(nodes: &[Node]) -> u64
    requires { IsTree nodes.now }
    ensures { result ≡ total (root_terms nodes.now) }
{
    match nodes.last() {
        Some(root) => root.total,
        None => 0,
    }
}

// What the root has for "the sum is at least `k`": the literal of its only term, or an output that stands for
// it. Costs a binary search.
fn known(terms: &[(Lit, u64)], outputs: &[SumOutput], k: u64) -> Option<Bound>
    requires some { 0 < length terms.now }
    requires rising { AllPairs (λ o q. o.sum < q.sum) outputs.now }
    requires apart { AllPairs (λ o q. o.sum < q.from) outputs.now }
    ensures { MatchOption result (IsUnknown terms.now outputs.now k)
        (IsKnown terms.now outputs.now k) }
{
    if let [term] = terms {
        return Some(Bound::At {
            lit: term.0,
            lower_line: 0,
        });
    }
    let output = standing_for(outputs, k)?;
    Some(Bound::At {
        lit: output.lit,
        lower_line: output.lower,
    })
}

// The output that stands for "the sum is at least `k`", if there is one.
pub(crate) fn standing_for(outputs: &[SumOutput], k: u64) -> Option<&SumOutput>
    requires rising { AllPairs (λ o q. o.sum < q.sum) outputs.now }
    requires apart { AllPairs (λ o q. o.sum < q.from) outputs.now }
    ensures { MatchOption result (All (λ o. o.from ≤ k → o.sum < k) outputs.now)
        (λ o. Contains outputs.now o.now × (o.now.from ≤ k) × (k ≤ o.now.sum)) }
{
    let place = place_of(outputs, k);
    if place == outputs.len() {
        return None;
    }
    let output = &outputs[place];
    if k < output.from {
        return None;
    }
    Some(output)
}
