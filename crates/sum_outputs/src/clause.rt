// Clauses between outputs.
ghost use Rattle.std.specs.Prelude.{◌≡◌, ◌<◌, ◌^◌};
ghost use Rattle.sum_outputs.specs.Adding.{AddsClauses, Always, IsReady};
ghost use Rattle.sum_outputs.specs.Outputs.{CanImplyNow, Imply, sums};

use crate::SumOutput;
use crate::adding::record;
use crate::tokens::clause_tokens;
use proof_laws::Line;
use proof_rules::{RecordFault, Recorder};
use scut_base::Lit;
use std::alloc::Global;

// Adds the clause "where the parts' literals are true, the target's is", by cutting planes: the variables of
// the node's other terms are weakened.
pub(crate) fn add_clause<R: Recorder>(
    alloc: Global,
    rec: &mut R,
    parts: &[SumOutput],
    weakened: &[(Lit, u64)],
    target: SumOutput,
) -> Result<(), RecordFault>
    requires ready { IsReady (R.seen rec.old) }
    requires parts { CanImplyNow (R.seen rec.old) parts.now weakened.now target }
    ensures { AddsClauses (R.seen rec.old) (R.seen rec.new) result
        (Always (R.seen rec.new) (Imply parts.now target)) }
{
    // Tells that the lines so far reach a state.
    let _vars = rec.state().vars();
    // The parts' terms and the target's cancel where their lines are summed; this much is left to be reached.
    let degree = sum_of(parts) + 1 - target.sum;
    let tokens = clause_tokens(alloc, parts, weakened, target.upper, degree)?;
    let _id = record(rec, Line::Pol { tokens })?;
    Ok(())
}

// The sums of these outputs together.
fn sum_of(parts: &[SumOutput]) -> u64
    requires { sums parts.now < 2 ^ 63 }
    ensures { result ≡ sums parts.now }
{
    let mut sum = 0;
    for part in parts {
        sum += part.sum;
    }
    sum
}
