// Totalizers of rows (DECISIONS, row-totalizers).
ghost use Rattle.std.specs.Prelude.{◌≡◌, IfOk, IfSome};
ghost use Rattle.pb_lin.specs.Constraint.{IsMerged, UpTo, negation};
ghost use Rattle.sum_outputs.specs.Adding.{IsReady, IsRecorded};
ghost use Rattle.sum_outputs.specs.Totals.{AreWeights};
ghost use Rattle.totalizer.specs.Totalizing.{HasVariables};

use crate::row_sizes::{may_count, room_for, taken_room};
use cutting_planes::PolToken;
use linear_lines::add_clause_line;
use pb_lin::{Constraint, LinFault, PbProblem};
use proof_rules::{RecordFault, Recorder};
use scut_base::{Items, Lit, NoMemory};
use std::alloc::Global;
use sum_outputs::in_memory;
use totalizer::{Bound, Totalizer};

// Gives each row that isn't a clause, and whose sum is small, a totalizer over the opposites of its literals (Bailleux and
// Boufkhad 2003; with weights Joshi, Martins and Manquinho 2015): the output that stands for more of them than the row
// leaves is denied by a clause. It ends where so many lines were made as are estimated to be worth their time.
pub(crate) fn add_row_totalizers<R: Recorder>(
    alloc: Global,
    rec: &mut R,
    problem: &PbProblem,
) -> Result<(), RecordFault>
    requires ready { IsReady (R.seen rec.old) }
    requires problem { (R.seen rec.old).problem ≡ problem.now }
    ensures { IsRecorded (R.seen rec.old) (R.seen rec.new) result }
{
    // Tells that the rows' variables are the problem's.
    let _vars = problem.vars();
    let mut room = room_for(problem.rows().len());
    for (at, row) in problem.rows().iter().enumerate() {
        add_totalizer(alloc, rec, row, at as u64 + 1, &mut room)?;
    }
    Ok(())
}

// Gives the row of this id a totalizer, if it counts and there is room for it.
fn add_totalizer<R: Recorder>(
    alloc: Global,
    rec: &mut R,
    row: &Constraint,
    id: u64,
    room: &mut u64,
) -> Result<(), RecordFault>
    requires ready { IsReady (R.seen rec.old) }
    requires variables { UpTo (R.seen rec.old).problem.vars row.now }
    ensures { IsRecorded (R.seen rec.old) (R.seen rec.new) result }
{
    if !may_count(row) {
        return Ok(());
    }
    match in_memory(negation_of(alloc, row))? {
        Some(exceeded) => add_sum(alloc, rec, &exceeded, id, room),
        None => Ok(()),
    }
}

// The row's negation; `None` where it is too large.
fn negation_of(alloc: Global, row: &Constraint) -> Result<Option<Constraint>, NoMemory>
    ensures { IfOk result (λ found. IfSome found (λ c. c ≡ negation row.now)) }
{
    match row.negated(alloc) {
        Ok(negation) => Ok(Some(negation)),
        Err(LinFault::Overflow) => Ok(None),
        Err(LinFault::NoMemory) => Err(NoMemory),
    }
}

// The same where the row's negation is this.
fn add_sum<R: Recorder>(
    alloc: Global,
    rec: &mut R,
    exceeded: &Constraint,
    id: u64,
    room: &mut u64,
) -> Result<(), RecordFault>
    requires ready { IsReady (R.seen rec.old) }
    requires variables { UpTo (R.seen rec.old).problem.vars exceeded.now }
    ensures { IsRecorded (R.seen rec.old) (R.seen rec.new) result }
{
    let Some(terms) = in_memory(weights_of(alloc, exceeded))? else {
        return Ok(());
    };
    let Some(least) = taken_room(terms.as_slice(), exceeded.degree(), room) else {
        return Ok(());
    };
    match output_of(alloc, rec, terms.as_slice(), least)? {
        Bound::At { lower_line, .. } => deny(alloc, rec, id, lower_line, exceeded.degree()),
        _ => Ok(()),
    }
}

// What stands for "the sum is at least `k`".
fn output_of<R: Recorder>(
    alloc: Global,
    rec: &mut R,
    terms: &[(Lit, u64)],
    k: i64,
) -> Result<Bound, RecordFault>
    requires ready { IsReady (R.seen rec.old) }
    requires weights { AreWeights terms.now }
    requires variables { HasVariables (R.seen rec.old) terms.now }
    ensures { IsRecorded (R.seen rec.old) (R.seen rec.new) result }
{
    let mut sum = in_memory(Totalizer::build(alloc, terms))?;
    sum.output(rec, k)
}

// The terms with their weights in half the room; `None` where one is too large.
fn weights_of(alloc: Global, sum: &Constraint) -> Result<Option<Items<(Lit, u64)>>, NoMemory>
    ensures terms { IfOk result (λ found. IfSome found (λ terms. terms ≡ sum.now.terms)) }
    ensures merged { IsMerged sum.now.terms }
{
    let mut terms = Items::with_capacity(alloc, sum.len())?;
    for at in 0..sum.len() {
        let (lit, coefficient) = sum.term(at);
        if coefficient > u128::from(u64::MAX) {
            return Ok(None);
        }
        terms.push((lit, coefficient as u64))?;
    }
    Ok(Some(terms))
}

// States the clause by which the output of this lower line is false, which stands for at least `k` opposites of the row's
// literals.
fn deny<R: Recorder>(
    alloc: Global,
    rec: &mut R,
    id: u64,
    lower_line: u64,
    k: u128,
) -> Result<(), RecordFault>
    requires ready { IsReady (R.seen rec.old) }
    ensures { IsRecorded (R.seen rec.old) (R.seen rec.new) result }
{
    // The least sum from `k` on that the weights have, for which the output stands.
    let sum = match rec.state().live().get(lower_line) {
        Some(line) => line.degree(),
        None => k,
    };
    let tokens = in_memory(denial(alloc, id, lower_line, sum.saturating_sub(k)))?;
    add_clause_line(alloc, rec, tokens)?;
    Ok(())
}

// The tokens `ROW LOWER + s`: the literals cancel to the total, and the output's opposite is left; divided where the
// output stands for a sum that is by so much above `k`.
fn denial(
    alloc: Global,
    row: u64,
    lower_line: u64,
    above: u128,
) -> Result<Items<PolToken>, NoMemory> {
    let mut tokens = Items::with_capacity(alloc, 5)?;
    tokens.push(PolToken::Id(row))?;
    tokens.push(PolToken::Id(lower_line))?;
    tokens.push(PolToken::Add)?;
    tokens.push(PolToken::Saturate)?;
    if let Ok(above) = u32::try_from(above) {
        if above > 0 {
            tokens.push(PolToken::Div(i128::from(above) + 1))?;
        }
    }
    Ok(tokens)
}
