// A core's outputs, and the line that more of its literals are true than of them.
ghost use Rattle.std.specs.Prelude.{◌≡◌, ◌<◌, ◌+◌, ◌++◌, ◌∷◌, [], List, length, map, IfOk, OnOk};
ghost use Rattle.scut_base.specs.Literal.{Literal};
ghost use Rattle.pb_lin.specs.Constraint.{literals, ones, opposite};
ghost use Rattle.sum_outputs.specs.Adding.{IsReady, IsRecorded};
ghost use Rattle.totalizer.specs.Totalizing.{Fits, HasVariables, IsBuilt, terms_of};
ghost use Rattle.proof_rules.specs.Recording.{Snapshot};
ghost use Rattle.sum_outputs.specs.Totals.{AreWeights};
ghost use Rattle.core_boosting.specs.Counting.{AddsOutput, CountsCore, CountsNow, HasCore, HasNext, IsLiveNow, counting, raised_tokens, times};

use crate::bounding::upper_tokens;
use crate::exchanging::derive;
use cutting_planes::PolToken;
use proof_rules::{RecordFault, Recorder};
use scut_base::{Items, Lit, NoMemory};
use std::alloc::Global;
use sum_outputs::in_memory;
use totalizer::{Bound, Totalizer};

// Outputs for "two of a core's literals are true", "three are" and so on, and the id of the line that more of the
// literals are true than of these.
#[derive(Drop)]
pub(crate) struct Counted {
    pub(crate) outputs: Items<Lit>,
    pub(crate) line: u64,
}

// All outputs over the literals of a core but the first, which its clause, the line of this id, makes true; and tokens
// of the line that at most one more of the literals is true than of the outputs.
pub(crate) fn count_core<R: Recorder>(
    alloc: Global,
    rec: &mut R,
    lits: &[Lit],
    id: u64,
) -> Result<(Counted, Items<PolToken>), RecordFault>
    requires ready { IsReady (R.seen rec.old) }
    requires core { HasCore (R.seen rec.old) lits.now id }
    ensures recorded { IsRecorded (R.seen rec.old) (R.seen rec.new) result }
    ensures counts { IfOk result
        (λ r. CountsCore (R.seen rec.old) (R.seen rec.new) lits.now r.0) }
{
    let mut totalizer = in_memory(totalizer_of(alloc, lits))?;
    let mut counted = Counted {
        outputs: Items::new(alloc),
        line: id,
    };
    for _ in 1..lits.len() {
        count_next(alloc, rec, &mut totalizer, &mut counted)?;
    }
    let upper = in_memory(upper_tokens(alloc, &totalizer, lits.len()))?;
    Ok((counted, upper))
}

// The totalizer of these literals, each with the weight 1.
fn totalizer_of(alloc: Global, lits: &[Lit]) -> Result<Totalizer, NoMemory>
    requires { AreWeights (ones lits.now) }
    ensures built { IfOk result (IsBuilt (ones lits.now)) }
    ensures fits { IfOk result (λ t. (a : Snapshot) → HasVariables a (ones lits.now) → Fits a t) }
{
    let mut terms = Items::with_capacity(alloc, lits.len())?;
    for lit in lits {
        terms.push((*lit, 1))?;
    }
    Totalizer::build(alloc, terms.as_slice())
}

// The next output, and the line that counts it too.
fn count_next<R: Recorder>(
    alloc: Global,
    rec: &mut R,
    totalizer: &mut Totalizer,
    counted: &mut Counted,
) -> Result<(), RecordFault>
    requires ready { IsReady (R.seen rec.old) }
    requires so { CountsNow (R.seen rec.old) (literals (terms_of totalizer.old))
        totalizer.old counted.old }
    requires more { length counted.old.outputs + 1 < length (terms_of totalizer.old) }
    ensures recorded { IsRecorded (R.seen rec.old) (R.seen rec.new) result }
    ensures so { OnOk result (CountsNow (R.seen rec.new) (literals (terms_of totalizer.old))
        totalizer.new counted.new) }
    ensures added { OnOk result (AddsOutput (R.seen rec.old) counted.old counted.new) }
{
    let sum = counted.outputs.len() as u64 + 2;
    let Bound::At { lit, lower_line } = totalizer.output(rec, sum as i64)? else {
        // There are as many literals.
        return Ok(());
    };
    count_by(alloc, rec, counted, lit, lower_line)
}

// Adds the line that counts this output too, whose lower line is the one of this id.
fn count_by<R: Recorder>(
    alloc: Global,
    rec: &mut R,
    counted: &mut Counted,
    output: Lit,
    lower_line: u64,
) -> Result<(), RecordFault>
    requires ready { IsReady (R.seen rec.old) }
    requires next { (lits : List Literal)
        × HasNext (R.seen rec.old) lits counted.old output lower_line }
    ensures recorded { IsRecorded (R.seen rec.old) (R.seen rec.new) result }
    ensures outputs { OnOk result (counted.new.outputs ≡ counted.old.outputs ++ output ∷ []) }
    ensures line { OnOk result ((lits : List Literal)
        → HasNext (R.seen rec.old) lits counted.old output lower_line
        → IsLiveNow (R.seen rec.new) counted.new.line
        (counting lits (map opposite (counted.old.outputs ++ output ∷ [])))) }
{
    let count = counted.outputs.len() as u64 + 1;
    let tokens = in_memory(raised_tokens(alloc, counted.line, count, lower_line))?;
    in_memory(counted.outputs.push(output))?;
    counted.line = derive(rec, tokens)?;
    Ok(())
}

// The tokens `LINE t * LOWER + (t + 1) d`.
fn raised_tokens(
    alloc: Global,
    line: u64,
    count: u64,
    lower: u64,
) -> Result<Items<PolToken>, NoMemory>
    ensures { IfOk result (λ tokens. tokens ≡ raised_tokens line count lower) }
{
    let mut tokens = Items::with_capacity(alloc, 5)?;
    tokens.push(PolToken::Id(line))?;
    push_factor(&mut tokens, count)?;
    tokens.push(PolToken::Id(lower))?;
    tokens.push(PolToken::Add)?;
    tokens.push(PolToken::Div(count as i128 + 1))?;
    Ok(tokens)
}

// Multiplies by this number, unless it is 1.
pub(crate) fn push_factor(tokens: &mut Items<PolToken>, factor: u64) -> Result<(), NoMemory>
    ensures { OnOk result (tokens.new ≡ tokens.old ++ times factor) }
{
    if factor > 1 {
        tokens.push(PolToken::Mul(factor as i128))?;
    }
    Ok(())
}
