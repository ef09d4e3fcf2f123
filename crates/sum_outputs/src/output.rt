// One output of a node.
ghost use Rattle.std.specs.Prelude.{◌<◌, All, IfOk};
ghost use Rattle.sum_outputs.specs.Totals.{IsLeastSum};
ghost use Rattle.sum_outputs.specs.Adding.{IsRecorded};
ghost use Rattle.sum_outputs.specs.Joining.{AreOutputsNow, IsAboveAll, IsMade, MayMake};

use crate::SumOutput;
use crate::clauses::{add_single, add_window};
use crate::definition::define;
use crate::inner::Inner;
use proof_rules::{RecordFault, Recorder};
use std::alloc::Global;

// Makes the output of a node at a sum: its definition, the clause by which the next greater output, where
// there is one, implies it, and the clauses from the children's outputs. The sum is the least of at least
// `from`, and `below` is the next greater output's, or above all sums.
pub(crate) fn make_output<R: Recorder>(
    alloc: Global,
    rec: &mut R,
    node: &Inner<'_>,
    next: &[SumOutput],
    from: u64,
    sum: u64,
    below: u64,
) -> Result<SumOutput, RecordFault>
    requires may { MayMake (R.seen rec.old) node.now from }
    requires next { AreOutputsNow (R.seen rec.old) node.now.terms.now next.now }
    requires above { IsAboveAll node.now.terms.now next.now below }
    requires greater { All (λ o. sum < o.sum) next.now }
    requires least { IsLeastSum node.now.terms.now from sum }
    ensures recorded { IsRecorded (R.seen rec.old) (R.seen rec.new) result }
    ensures made { IfOk result (IsMade (R.seen rec.old) (R.seen rec.new)
        node.now.terms.now from sum) }
{
    let made = define(alloc, rec, node.terms, from, sum)?;
    add_single(alloc, rec, next, &[], &made, u64::MAX)?;
    add_window(alloc, rec, node, &made, below)?;
    Ok(made)
}
