// What is done where the relaxations tell no more.
ghost use Rattle.std.specs.Prelude.{◌≡◌, ◌<◌, length, IfOk, true, IfErr, IfSome, IsOk, OnOk};
ghost use Rattle.sum_outputs.specs.Adding.{IsReady, IsRecorded};
ghost use Rattle.search_base.specs.CostBounds.{FitBounds, reforms_of};
ghost use Rattle.search_base.specs.Good.{GoesOn};
ghost use Rattle.search_base.specs.Turns.{IsEndLine, IsInOrder, IsSearchFault};
ghost use Rattle.relaxations.specs.Ending.{IsGoodButForSome, IsKeptEnd, StaysGoodBut};

use crate::defined_outputs::{DefinedOutput, DefinedOutputs, imply};
use cutting_planes::PolToken;
use linear_lines::add_line;
use oracle::{Answer, Oracle, OracleFault};
use pb_lin::PbProblem;
use proof_rules::{RecordFault, Recorder};
use scut_base::{Items, NoMemory};
use search_base::{Bounds, adding_stays_good_but, asking_stays_good_but};
use std::alloc::Global;
use sum_outputs::{SumOutput, in_memory};
use totalizer::{fitting_stays, own_lines_stay, reform_stays};

// A kept line `0 >= 1`, where the oracle answers that nothing is left; `None` where it doesn't.
pub(crate) fn end_line<O: Oracle>(alloc: Global, oracle: &mut O) -> Result<Option<u64>, OracleFault>
    requires good { IsGoodButForSome (O.seen oracle.old) }
    ensures ended { IfOk result (λ found. IfSome found (IsKeptEnd (O.seen oracle.new))) }
    ensures stays { OnOk result (StaysGoodBut (O.seen oracle.old) (O.seen oracle.new)) }
    ensures fault { IfErr result (IsSearchFault (O.seen oracle.old) (O.seen oracle.new)) }
    ensures unspent { IsInOrder result → IsOk result }
    ensures goes_on { GoesOn (O.seen oracle.old) (O.seen oracle.new) }
{
    asking_stays_good_but();
    adding_stays_good_but();
    match oracle.solve(&[]) {
        Ok(Answer::Unsat(core)) => {
            let id = keep(alloc, oracle, core.id)?;
            Ok(id)
        }
        Ok(Answer::Sat(_)) => Ok(None),
        Err(OracleFault::Spent { .. }) => Ok(None),
        Err(fault) => Err(fault),
    }
}

// States the live line of this id once more, so that it is a kept one; its id where it is `0 >= 1`.
fn keep<R: Recorder>(alloc: Global, rec: &mut R, id: u64) -> Result<Option<u64>, RecordFault>
    requires ready { IsReady (R.seen rec.old) }
    ensures recorded { IsRecorded (R.seen rec.old) (R.seen rec.new) result }
    ensures kept { IfOk result (λ found. IfSome found (IsKeptEnd (R.seen rec.new))) }
{
    let tokens = in_memory(line_again(alloc, id))?;
    let Some(kept) = add_line(alloc, rec, tokens)? else {
        return Ok(None);
    };
    if is_end(rec, kept) {
        return Ok(Some(kept));
    }
    Ok(None)
}

// Whether the line of this id is `0 >= 1`.
fn is_end<R: Recorder>(rec: &R, id: u64) -> bool
    ensures { result ≡ true → IsEndLine (R.seen rec.now).problem (R.seen rec.now).lines id }
{
    match rec.state().live().get(id) {
        Some(line) => line.len() == 0 && line.degree() == 1,
        None => false,
    }
}

// The tokens of a line that is that of this id.
fn line_again(alloc: Global, id: u64) -> Result<Items<PolToken>, NoMemory> {
    let mut tokens = Items::new(alloc);
    tokens.push(PolToken::Id(id))?;
    Ok(tokens)
}

// Ties each output that was defined to that of the bounds at its sum, which it implies.
pub(crate) fn tie_bounds<R: Recorder>(
    alloc: Global,
    rec: &mut R,
    bounds: &mut Bounds,
    problem: &PbProblem,
    defined: &DefinedOutputs,
) -> Result<(), RecordFault>
    requires ready { IsReady (R.seen rec.old) }
    requires problem { (R.seen rec.old).problem ≡ problem.now }
    requires fits { FitBounds (R.seen rec.old) bounds.old }
    ensures recorded { IsRecorded (R.seen rec.old) (R.seen rec.new) result }
    ensures fits { OnOk result (FitBounds (R.seen rec.new) bounds.new) }
    ensures reforms { reforms_of bounds.new ≡ reforms_of bounds.old }
{
    for (objective, row) in problem.costs().iter().enumerate() {
        let outputs = defined.outputs(objective);
        tie_objective(alloc, rec, bounds, objective, row.offset(), outputs)?;
    }
    Ok(())
}

// Ties those of one objective.
fn tie_objective<R: Recorder>(
    alloc: Global,
    rec: &mut R,
    bounds: &mut Bounds,
    objective: usize,
    offset: i64,
    outputs: &[DefinedOutput],
) -> Result<(), RecordFault>
    requires ready { IsReady (R.seen rec.old) }
    requires fits { FitBounds (R.seen rec.old) bounds.old }
    requires there { objective < length (R.seen rec.old).problem.costs }
    ensures recorded { IsRecorded (R.seen rec.old) (R.seen rec.new) result }
    ensures fits { OnOk result (FitBounds (R.seen rec.new) bounds.new) }
    ensures reforms { reforms_of bounds.new ≡ reforms_of bounds.old }
{
    for defined in outputs {
        let output = &defined.output;
        let Ok(value) = i64::try_from(i128::from(offset) + i128::from(output.sum)) else {
            continue;
        };
        tie_output(alloc, rec, bounds, objective, value, output)?;
    }
    Ok(())
}

// Ties one output, which stands for this value.
fn tie_output<R: Recorder>(
    alloc: Global,
    rec: &mut R,
    bounds: &mut Bounds,
    objective: usize,
    value: i64,
    output: &SumOutput,
) -> Result<(), RecordFault>
    requires ready { IsReady (R.seen rec.old) }
    requires fits { FitBounds (R.seen rec.old) bounds.old }
    requires there { objective < length (R.seen rec.old).problem.costs }
    ensures recorded { IsRecorded (R.seen rec.old) (R.seen rec.new) result }
    ensures fits { OnOk result (FitBounds (R.seen rec.new) bounds.new) }
    ensures reforms { reforms_of bounds.new ≡ reforms_of bounds.old }
{
    own_lines_stay();
    fitting_stays();
    reform_stays();
    bounds.at_least(rec, objective, value)?;
    match bounds.made_for(objective, value) {
        Some(made) => imply(alloc, rec, output, made),
        None => Ok(()),
    }
}
