// An output of the root that isn't there.
ghost use Rattle.std.specs.Prelude.{◌-◌, ◌<◌, ◌≤◌, List, length, pos, slice_index_or, IfOk, OnOk};
ghost use Rattle.pb_lin.specs.Constraint.{total};
ghost use Rattle.sum_outputs.specs.Adding.{IsReady, IsRecorded};
ghost use Rattle.sum_outputs.specs.Falling.{IsAsked};
ghost use Rattle.sum_outputs.specs.MadeOutputs.{AreCompleteTo, AreMadeNow};
ghost use Rattle.sum_outputs.specs.declared.sum_output.SumOutput.{SumOutput};
ghost use Rattle.totalizer.specs.Meaning.{IsBound};
ghost use Rattle.totalizer.specs.Totalizing.{root_terms, Fits, IsRooted};
ghost use Rattle.totalizer.specs.Demanding.{AddsFor};

use crate::Bound;
use proof_rules::{RecordFault, Recorder};
use scut_base::Items;
use std::alloc::Global;
use sum_outputs::{Inner, Node, SumOutput, ask, extend_all};

// Makes the output of the root at the least sum of at least `k`, and before it those below the root that it
// stands on.
pub(crate) fn make<R: Recorder>(
    alloc: Global,
    rec: &mut R,
    nodes: &[Node],
    made: &mut Items<Items<SumOutput>>,
    k: u64,
) -> Result<Bound, RecordFault>
    requires ready { IsReady (R.seen rec.old) }
    requires fits { Fits (R.seen rec.old) (record { nodes = nodes.now; made = made.old }) }
    requires from_one { 0 < k }
    requires most { k ≤ total (root_terms nodes.now) }
    requires long { 1 < length (root_terms nodes.now) }
    ensures recorded { IsRecorded (R.seen rec.old) (R.seen rec.new) result }
    ensures bound { IfOk result (IsBound (R.seen rec.new).problem (R.seen rec.new).lines
        (root_terms nodes.now) (pos k)) }
    ensures added { IfOk result (AddsFor (R.seen rec.old) (R.seen rec.new)
        (pos k) (record { nodes = nodes.now; made = made.old })
        (record { nodes = nodes.now; made = made.new })) }
    ensures fits { OnOk result (Fits (R.seen rec.new)
        (record { nodes = nodes.now; made = made.new })) }
{
    extend_all(alloc, rec, nodes, made, k)?;
    let (asked, outputs) = ask_root(alloc, rec, nodes, made, k)?;
    made.set(nodes.len() - 1, outputs);
    Ok(Bound::At {
        lit: asked.lit,
        lower_line: asked.lower,
    })
}

// The output of the root at the least sum of at least `k`, and all outputs of the root.
fn ask_root<R: Recorder>(
    alloc: Global,
    rec: &mut R,
    nodes: &[Node],
    made: &Items<Items<SumOutput>>,
    k: u64,
) -> Result<(SumOutput, Items<SumOutput>), RecordFault>
    requires ready { IsReady (R.seen rec.old) }
    requires rooted { IsRooted nodes.now }
    requires made { AreMadeNow (R.seen rec.old) nodes.now made.now }
    requires complete { AreCompleteTo nodes.now made.now (length nodes.now - 1) k }
    requires from_one { 0 < k }
    requires most { k ≤ total (root_terms nodes.now) }
    requires long { 1 < length (root_terms nodes.now) }
    ensures recorded { IsRecorded (R.seen rec.old) (R.seen rec.new) result }
    ensures asked { IfOk result (λ r. (e : List SumOutput) → IsAsked (R.seen rec.old)
        (R.seen rec.new)
        (root_terms nodes.now) (slice_index_or made.now (length nodes.now - 1) e) k r.0 r.1) }
{
    let at = nodes.len() - 1;
    let root = Inner::of(nodes, made, at);
    ask(alloc, rec, &root, made.at(at).as_slice(), k)
}
