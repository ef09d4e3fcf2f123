// The bounds of one objective.
ghost use Rattle.std.specs.Prelude.{◌≡◌, ◌≤◌, ◌<◌, ◌^◌, ◌<ℤ◌, length, pos, AllPairs, Contains, IfOk, MatchOption, MatchResult, OnOk};
ghost use Rattle.std.specs.List.{insert};
ghost use Rattle.pb_lin.specs.CostRow.{CostRowValue};
ghost use Rattle.sum_outputs.specs.Adding.{IsReady, IsRecorded};
ghost use Rattle.sum_outputs.specs.Totals.{AreWeights, definitions};
ghost use Rattle.totalizer.specs.Demanding.{AddsFor};
ghost use Rattle.totalizer.specs.Meaning.{IsBound};
ghost use Rattle.totalizer.specs.Totalizing.{Fits, FitsSome, terms_of};
ghost use Rattle.search_base.specs.CostBounds.{AddsBound, BoundsRow, IsAnswerFor, IsCostBound, IsNextUnmade, IsNextValue, greatest_of};
ghost use Rattle.search_base.specs.OneBound.{AddsObjectiveLine, CanSum, FitsRow, HasOwnLiteral, IsObjectiveLineFor, IsNewBound, IsOutputFor, IsPlaceFor, IsSumFor, KeepsBut, KeepsRow, MakesObjectiveLine, NeedsObjectiveLine, sum_of};
ghost use Rattle.search_base.specs.Outputs.{IsMadeAt, IsUnmadeAt};

use cutting_planes::PolToken;
use proof_laws::Line;
use proof_rules::{RecordFault, Recorder};
use scut_base::{Items, Lit, NoMemory};
use std::alloc::Global;
use sum_outputs::{SumOutput, in_memory, record};
use totalizer::{Bound, Reform, Totalizer, fitting_stays, own_lines_stay, reform_stays};

/// The line that says of the objective what the line of an output says of the reform's terms.
#[derive(Clone, Copy, Debug)]
pub struct ObjectiveLine {
    /// The output's variable.
    pub var: u64,
    /// The id of the line.
    pub line: u64,
}

/// The bounds of one objective: its reform, and a totalizer of the reform's terms. Where the reform has a line,
/// `objective_lines` has those of the outputs that were asked for, in rising order of variables.
#[derive(Drop)]
pub struct ObjectiveBound {
    pub reform: Reform,
    pub totalizer: Totalizer,
    pub objective_lines: Vec<ObjectiveLine>,
}

impl ObjectiveBound {
    // Those of a reform, of which nothing has been asked.
    pub(crate) fn new(alloc: Global, reform: Reform) -> Result<ObjectiveBound, NoMemory>
        requires { AreWeights reform.terms }
        ensures { IfOk result (IsNewBound reform) }
    {
        let totalizer = Totalizer::build(alloc, reform.terms.as_slice())?;
        Ok(ObjectiveBound {
            reform,
            totalizer,
            objective_lines: Vec::new(alloc),
        })
    }

    // What stands for "the objective's cost is at least `value`".
    pub(crate) fn at_least<R: Recorder>(
        &mut self,
        alloc: Global,
        rec: &mut R,
        value: i64,
    ) -> Result<Bound, RecordFault>
        requires ready { IsReady (R.seen rec.old) }
        requires fits { FitsRow (R.seen rec.old) self.old }
        ensures recorded { IsRecorded (R.seen rec.old) (R.seen rec.new) result }
        ensures bound { IfOk result (λ bound. (row : CostRowValue)
            → BoundsRow (R.seen rec.old) row self.old
            → IsCostBound (R.seen rec.new).problem (R.seen rec.new).lines row value bound) }
        ensures answer { IfOk result (IsAnswerFor self.old.reform value) }
        ensures literal { IfOk result (HasOwnLiteral self.new) }
        ensures added { IfOk result (AddsBound (R.seen rec.old) (R.seen rec.new)
            value self.old self.new) }
        ensures fits { OnOk result (KeepsRow (R.seen rec.old) (R.seen rec.new) self.old self.new) }
        ensures reform { self.new.reform ≡ self.old.reform }
        ensures nodes { self.new.totalizer.nodes ≡ self.old.totalizer.nodes }
    {
        fitting_stays();
        reform_stays();
        own_lines_stay();
        let above = i128::from(value) - i128::from(self.reform.offset);
        let bound = bound_of(&mut self.totalizer, rec, above)?;
        // Tells of which kind the live lines are.
        let _vars = rec.state().vars();
        match bound {
            Bound::Always { .. } => Ok(Bound::Always {
                lower_line: self.reform.lower_line,
            }),
            Bound::Never => Ok(Bound::Never),
            Bound::At { lit, lower_line } => {
                let lower_line = self.objective_line(alloc, rec, lit, lower_line)?;
                Ok(Bound::At { lit, lower_line })
            }
        }
    }

    // The line that says of the objective what the line of an output says of the terms; 0 is that of the only
    // term. Made where it isn't there.
    fn objective_line<R: Recorder>(
        &mut self,
        alloc: Global,
        rec: &mut R,
        lit: Lit,
        output_line: u64,
    ) -> Result<u64, RecordFault>
        requires ready { IsReady (R.seen rec.old) }
        requires fits { FitsRow (R.seen rec.old) self.old }
        requires output { IsOutputFor (R.seen rec.old) self.old lit output_line }
        ensures recorded { IsRecorded (R.seen rec.old) (R.seen rec.new) result }
        ensures covers { IfOk result (IsObjectiveLineFor (R.seen rec.old) (R.seen rec.new)
            self.old lit output_line) }
        ensures added { OnOk result (MakesObjectiveLine (R.seen rec.old) (R.seen rec.new)
            self.old self.new lit) }
        ensures fits { OnOk result (KeepsRow (R.seen rec.old) (R.seen rec.new) self.old self.new) }
        ensures kept { KeepsBut self.old self.new }
    {
        // Tells of which kind the live lines are.
        let _vars = rec.state().vars();
        let lower_line = self.reform.lower_line;
        if lower_line == 0 {
            return Ok(output_line);
        }
        if output_line == 0 {
            return Ok(lower_line);
        }
        match place_in(self.objective_lines.as_slice(), lit.var()) {
            Ok(line) => Ok(line),
            Err(place) => self.new_objective_line(alloc, rec, lit, output_line, place),
        }
    }

    // Makes that line, for a literal that has none.
    fn new_objective_line<R: Recorder>(
        &mut self,
        alloc: Global,
        rec: &mut R,
        lit: Lit,
        output_line: u64,
        place: usize,
    ) -> Result<u64, RecordFault>
        requires ready { IsReady (R.seen rec.old) }
        requires fits { FitsRow (R.seen rec.old) self.old }
        requires output { IsOutputFor (R.seen rec.old) self.old lit output_line }
        requires needs { NeedsObjectiveLine self.old }
        requires place { IsPlaceFor self.old.objective_lines.items lit.var place }
        ensures recorded { IsRecorded (R.seen rec.old) (R.seen rec.new) result }
        ensures covers { IfOk result (IsObjectiveLineFor (R.seen rec.old) (R.seen rec.new)
            self.old lit output_line) }
        ensures added { OnOk result (AddsObjectiveLine (R.seen rec.old) (R.seen rec.new) self.new lit.var) }
        ensures fits { OnOk result (KeepsRow (R.seen rec.old) (R.seen rec.new) self.old self.new) }
        ensures kept { KeepsBut self.old self.new }
    {
        fitting_stays();
        reform_stays();
        own_lines_stay();
        let var = lit.var();
        let line = add_sum(alloc, rec, self.reform.lower_line, output_line)?;
        in_memory(insert_line(
            &mut self.objective_lines,
            place,
            ObjectiveLine { var, line },
        ))?;
        Ok(line)
    }

    // The output that stands for "the reform is at least `value`", where it has been made.
    pub(crate) fn made_for(&self, value: i64) -> Option<&SumOutput>
        requires fits { FitsSome self.now.totalizer }
        ensures { MatchOption result (IsUnmadeAt self.now value)
            (λ o. IsMadeAt self.now value o.now) }
    {
        let k = u64::try_from(i128::from(value) - i128::from(self.reform.offset)).ok()?;
        self.totalizer.made_for(k)
    }

    // The least value above `value` that the reform can have, where that is known: the offset, or what an
    // output that was made stands for.
    pub(crate) fn next_value(&self, value: i64) -> Option<i64>
        requires fits { FitsSome self.now.totalizer }
        requires weights { AreWeights self.now.reform.terms }
        requires terms { terms_of self.now.totalizer ≡ self.now.reform.terms }
        requires small { greatest_of self.now.reform <ℤ pos (2 ^ 63) }
        ensures { MatchOption result (IsNextUnmade self.now value)
            (IsNextValue self.now.reform value) }
    {
        let offset = i128::from(self.reform.offset);
        if i128::from(value) < offset {
            return Some(self.reform.offset);
        }
        let k = u64::try_from(i128::from(value) - offset + 1).ok()?;
        let output = self.totalizer.made_for(k)?;
        Some((offset + i128::from(output.sum)) as i64)
    }
}

// The line that was made for the output of a variable, or the place where it would stand.
fn place_in(lines: &[ObjectiveLine], var: u64) -> Result<u64, usize>
    requires { AllPairs (λ c d. c.var < d.var) lines.now }
    ensures { MatchResult result (λ line. Contains lines.now (record { var = var; line = line }))
        (IsPlaceFor lines.now var) }
{
    let place = lines.partition_point(|line| line.var < var);
    if place < lines.len() && lines[place].var == var {
        return Ok(lines[place].line);
    }
    Err(place)
}

// Puts a line between those of lower and those of greater variables.
fn insert_line(
    lines: &mut Vec<ObjectiveLine>,
    place: usize,
    line: ObjectiveLine,
) -> Result<(), NoMemory>
    requires { place ≤ length lines.old.items }
    ensures { OnOk result (lines.new.items ≡ insert lines.old.items place line) }
{
    lines.insert(place, line)?;
    Ok(())
}

// Records the sum of two lines, and answers its id.
fn add_sum<R: Recorder>(
    alloc: Global,
    rec: &mut R,
    first: u64,
    second: u64,
) -> Result<u64, RecordFault>
    requires ready { IsReady (R.seen rec.old) }
    requires fits { CanSum (R.seen rec.old) first second }
    ensures recorded { IsRecorded (R.seen rec.old) (R.seen rec.new) result }
    ensures sum { IfOk result (IsSumFor (R.seen rec.old) (R.seen rec.new) first second) }
    ensures defined { OnOk result
        (definitions (R.seen rec.new).lines ≡ definitions (R.seen rec.old).lines) }
{
    // Tells of which kind the live lines are.
    let _vars = rec.state().vars();
    let tokens = in_memory(sum_tokens(alloc, first, second))?;
    record(rec, Line::Pol { tokens })
}

// The sum of two lines.
fn sum_tokens(alloc: Global, first: u64, second: u64) -> Result<Items<PolToken>, NoMemory>
    ensures { IfOk result (λ tokens. tokens ≡ sum_of first second) }
{
    let mut tokens = Items::with_capacity(alloc, 3)?;
    tokens.push(PolToken::Id(first))?;
    tokens.push(PolToken::Id(second))?;
    tokens.push(PolToken::Add)?;
    Ok(tokens)
}

// What stands for "the totalizer's sum is at least `k`", for any `k`.
fn bound_of<R: Recorder>(
    totalizer: &mut Totalizer,
    rec: &mut R,
    k: i128,
) -> Result<Bound, RecordFault>
    requires ready { IsReady (R.seen rec.old) }
    requires fits { Fits (R.seen rec.old) totalizer.old }
    ensures recorded { IsRecorded (R.seen rec.old) (R.seen rec.new) result }
    ensures bound { IfOk result (IsBound (R.seen rec.new).problem (R.seen rec.new).lines
        (terms_of totalizer.old) k) }
    ensures added { IfOk result (AddsFor (R.seen rec.old) (R.seen rec.new)
        k totalizer.old totalizer.new) }
    ensures fits { OnOk result (Fits (R.seen rec.new) totalizer.new) }
    ensures nodes { totalizer.new.nodes ≡ totalizer.old.nodes }
{
    if k < 1 {
        return Ok(Bound::Always { lower_line: 0 });
    }
    let Ok(k) = i64::try_from(k) else {
        // The weights sum below 2^63.
        return Ok(Bound::Never);
    };
    totalizer.output(rec, k)
}
