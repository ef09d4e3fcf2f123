// A new variable that is true exactly where a sum reaches a number.
ghost use Rattle.std.specs.Prelude.{◌≡◌, ◌+◌, ◌<◌, ◌≤◌, IfOk, OnErr, All};
ghost use Rattle.pb_lin.specs.Constraint.{total};
ghost use Rattle.proof_laws.specs.State.{StateValue};
ghost use Rattle.sum_outputs.specs.Adding.{IsReached, IsReady, IsRecorded};
ghost use Rattle.sum_outputs.specs.Outputs.{IsDefinedBy, IsDefinedNext, IsInOrder, IsSumOf};
ghost use Rattle.sum_outputs.specs.Totals.{AreWeights};

use crate::SumOutput;
use crate::adding::record;
use pb_lin::Constraint;
use proof_laws::Line;
use proof_rules::{RecordFault, Recorder};
use scut_base::{Items, Lit, NoMemory};
use std::alloc::Global;

/// Defines the next variable as "the sum of these terms is at least `sum`". Nothing makes its literal true where
/// the sum is reached but the definition itself. `from` is noted in the output. A recorder's refusal is handed on,
/// as is a want of memory. Costs a sort of the terms.
pub fn define<R: Recorder>(
    alloc: Global,
    rec: &mut R,
    terms: &[(Lit, u64)],
    from: u64,
    sum: u64,
) -> Result<SumOutput, RecordFault>
    requires ready { IsReady (R.seen rec.old) }
    requires terms { AreWeights terms.now }
    requires some { 0 < sum }
    requires most { sum ≤ total terms.now }
    requires variables { (s : StateValue) → IsReached (R.seen rec.old) s
        → All (λ t. t.0.var ≤ s.vars) terms.now }
    ensures recorded { IsRecorded (R.seen rec.old) (R.seen rec.new) result }
    ensures kept { OnErr result ((R.seen rec.new).lines ≡ (R.seen rec.old).lines) }
    ensures sum { IfOk result (λ o. (o.sum ≡ sum) × (o.from ≡ from)) }
    ensures defined { IfOk result (IsDefinedNext (R.seen rec.old) (R.seen rec.new) terms.now) }
{
    let constraint = at_least(alloc, terms, sum)?;
    let var = rec.state().vars() + 1;
    define_next(rec, var, constraint, from, sum)
}

// Defines the next variable by a constraint.
fn define_next<R: Recorder>(
    rec: &mut R,
    var: u64,
    constraint: Constraint,
    from: u64,
    sum: u64,
) -> Result<SumOutput, RecordFault>
    requires ready { IsReady (R.seen rec.old) }
    requires next { (s : StateValue) → IsReached (R.seen rec.old) s → IsSumOf s constraint var sum }
    ensures recorded { IsRecorded (R.seen rec.old) (R.seen rec.new) result }
    ensures kept { OnErr result ((R.seen rec.new).lines ≡ (R.seen rec.old).lines) }
    ensures sum { IfOk result (λ o. (o.sum ≡ sum) × (o.from ≡ from)) }
    ensures defined { IfOk result (IsDefinedBy (R.seen rec.old) (R.seen rec.new) constraint) }
{
    // Tells that the lines so far reach a state.
    let _vars = rec.state().vars();
    let lower = record(
        rec,
        Line::Def {
            var,
            sum: constraint,
        },
    )?;
    Ok(SumOutput {
        sum,
        from,
        lit: Lit::new(var, false),
        lower,
        upper: lower + 1,
    })
}

// That the sum of these terms is at least a number.
fn at_least(alloc: Global, terms: &[(Lit, u64)], sum: u64) -> Result<Constraint, NoMemory>
    requires terms { AreWeights terms.now }
    ensures { IfOk result (IsInOrder terms.now sum) }
{
    let mut sorted = wide_terms(alloc, terms)?.into_vec();
    sorted.sort_unstable_by_key(|term| term.0.var());
    let constraint = Constraint::from_terms(alloc, &sorted, sum as u128)?;
    Ok(constraint)
}

// The same terms with coefficients of 128 bits.
fn wide_terms(alloc: Global, terms: &[(Lit, u64)]) -> Result<Items<(Lit, u128)>, NoMemory>
    ensures { IfOk result (λ wide. wide ≡ terms.now) }
{
    let mut wide = Items::with_capacity(alloc, terms.len())?;
    for term in terms {
        wide.push((term.0, term.1 as u128))?;
    }
    Ok(wide)
}
