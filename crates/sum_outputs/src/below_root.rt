// The outputs of all nodes below the root, up to a bound.
ghost use Rattle.std.specs.Prelude.{◌≡◌, ◌≢◌, ◌⊎◌, ◌+◌, ◌-◌, ◌<◌, ◌≤◌, min, true, false, length, OnOk};
ghost use Rattle.sum_outputs.specs.Adding.{IsReady, IsRecorded};
ghost use Rattle.sum_outputs.specs.Tree.{IsTree};
ghost use Rattle.sum_outputs.specs.Sums.{last_sum};
ghost use Rattle.sum_outputs.specs.MadeOutputs.{AreMadeNow, ExtendsTo, LacksOutputs, MayExtend};

use crate::SumOutput;
use crate::falling::last_sum;
use crate::inner::{Inner, outputs_at};
use crate::node::Node;
use crate::node_outputs::extended;
use proof_rules::{RecordFault, Recorder};
use scut_base::Items;
use std::alloc::Global;

/// Makes the outputs of all nodes before the last, each up to its least sum of at least `k`, or all. Costs a
/// look at each node, and where one lacks outputs a copy of those that it has and the lines of the new ones.
/// A recorder's refusal is handed on, as is a want of memory, and nothing is said of the outputs then.
pub fn extend_all<R: Recorder>(
    alloc: Global,
    rec: &mut R,
    nodes: &[Node],
    made: &mut Items<Items<SumOutput>>,
    k: u64,
) -> Result<(), RecordFault>
    requires ready { IsReady (R.seen rec.old) }
    requires tree { IsTree nodes.now }
    requires some { 0 < length nodes.now }
    requires made { AreMadeNow (R.seen rec.old) nodes.now made.old }
    requires from_one { 0 < k }
    ensures recorded { IsRecorded (R.seen rec.old) (R.seen rec.new) result }
    ensures extends { OnOk result (ExtendsTo (R.seen rec.old) (R.seen rec.new) nodes.now
        made.old made.new (length nodes.now - 1) k) }
{
    for at in 0..nodes.len() - 1 {
        extend_node(alloc, rec, nodes, made, at, k)?;
    }
    Ok(())
}

// Makes the outputs of a node before the last, whose children have theirs, where it hasn't got all of them.
fn extend_node<R: Recorder>(
    alloc: Global,
    rec: &mut R,
    nodes: &[Node],
    made: &mut Items<Items<SumOutput>>,
    at: usize,
    k: u64,
) -> Result<(), RecordFault>
    requires { MayExtend (R.seen rec.old) nodes.now made.old at k }
    ensures recorded { IsRecorded (R.seen rec.old) (R.seen rec.new) result }
    ensures extends { OnOk result (ExtendsTo (R.seen rec.old) (R.seen rec.new) nodes.now
        made.old made.new (at + 1) k) }
{
    if has_all(&nodes[at], outputs_at(made, at), k) {
        return Ok(());
    }
    extend_inner(alloc, rec, nodes, made, at, k)
}

// Whether a node has all outputs up to its least sum of at least `k`: it is a leaf, or the last one's sum is
// as great, or the greatest of all.
fn has_all(node: &Node, outputs: &[SumOutput], k: u64) -> bool
    ensures all { result ≡ true → (length node.now.terms ≡ 1)
        ⊎ (min k node.now.total ≤ last_sum outputs.now) }
    ensures lacks { result ≡ false → (length node.now.terms ≢ 1)
        × (last_sum outputs.now < min k node.now.total) }
{
    node.terms.len() == 1 || k.min(node.total) <= last_sum(outputs)
}

// Makes the outputs of an inner node before the last, whose children have theirs.
fn extend_inner<R: Recorder>(
    alloc: Global,
    rec: &mut R,
    nodes: &[Node],
    made: &mut Items<Items<SumOutput>>,
    at: usize,
    k: u64,
) -> Result<(), RecordFault>
    requires may { MayExtend (R.seen rec.old) nodes.now made.old at k }
    requires lacks { LacksOutputs nodes.now made.old at k }
    ensures recorded { IsRecorded (R.seen rec.old) (R.seen rec.new) result }
    ensures extends { OnOk result (ExtendsTo (R.seen rec.old) (R.seen rec.new) nodes.now
        made.old made.new (at + 1) k) }
{
    let node = Inner::of(nodes, made, at);
    let all = extended(alloc, rec, &node, outputs_at(made, at), k)?;
    made.set(at, all);
    Ok(())
}
