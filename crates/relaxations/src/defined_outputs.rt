// Outputs of objectives that are only defined: true exactly where the objective costs at least a value.
ghost use Rattle.std.specs.Prelude.{◌≡◌, ◌<◌, ◌≤◌};
ghost use Rattle.pb_lin.specs.Constraint.{TermsUpTo, total};
ghost use Rattle.sum_outputs.specs.Adding.{IsReady, IsRecorded};

use cutting_planes::PolToken;
use linear_lines::add_line;
use pb_lin::{CostRow, PbProblem};
use proof_rules::{RecordFault, Recorder};
use scut_base::{Items, Lit, NoMemory};
use std::alloc::Global;
use sum_outputs::{SumOutput, define, in_memory, leaf_output, total_of};

// What stands for "the objective costs at least a value".
#[derive(Clone, Copy, Debug)]
pub(crate) enum Standing {
    // It always does.
    Always,
    // It never does.
    Never,
    // It does exactly where the output's literal is true.
    Output(DefinedOutput),
}

// An output that was defined. Sums of its objective are multiples of the divisor, the weights' greatest common divisor; where the
// output's literal is false, the limit line says that the sum is at most the output's less the divisor.
#[derive(Clone, Copy, Debug)]
pub(crate) struct DefinedOutput {
    pub(crate) output: SumOutput,
    pub(crate) limit_line: u64,
    pub(crate) divisor: u64,
}

impl DefinedOutput {
    fn of(output: &SumOutput, limit_line: u64, divisor: u64) -> DefinedOutput {
        DefinedOutput {
            output: *output,
            limit_line,
            divisor,
        }
    }
}

// For each objective the outputs that were defined, in rising order of sums.
#[derive(Debug, Drop)]
pub(crate) struct DefinedOutputs {
    alloc: Global,
    lists: Vec<Vec<DefinedOutput>>,
}

impl DefinedOutputs {
    // None yet, of so many objectives.
    pub(crate) fn new(alloc: Global, objectives: usize) -> Result<DefinedOutputs, NoMemory> {
        let mut lists = Vec::new(alloc);
        for _objective in 0..objectives {
            lists.push(Vec::new(alloc))?;
        }
        Ok(DefinedOutputs { alloc, lists })
    }

    // The outputs of an objective.
    pub(crate) fn outputs(&self, objective: usize) -> &[DefinedOutput] {
        match self.lists.as_slice().get(objective) {
            Some(outputs) => outputs.as_slice(),
            None => &[],
        }
    }

    // What stands for "the objective costs at least `value`": an output of that sum, which is defined where it isn't
    // there. Costs a sort of the objective's terms where it is defined.
    pub(crate) fn at_least<R: Recorder>(
        &mut self,
        rec: &mut R,
        problem: &PbProblem,
        objective: usize,
        value: i64,
    ) -> Result<Standing, RecordFault>
        requires ready { IsReady (R.seen rec.old) }
        requires problem { (R.seen rec.old).problem ≡ problem.now }
        ensures recorded { IsRecorded (R.seen rec.old) (R.seen rec.new) result }
    {
        // Tells that the rows' variables are the problem's.
        let _vars = problem.vars();
        let Some(row) = problem.costs().get(objective) else {
            return Ok(Standing::Never);
        };
        let above = i128::from(value) - i128::from(row.offset());
        self.reaching(rec, objective, row, above)
    }

    // What stands for "the sum of the row's terms is at least `least`", which is rounded up to a multiple of their divisor.
    fn reaching<R: Recorder>(
        &mut self,
        rec: &mut R,
        objective: usize,
        row: &CostRow,
        least: i128,
    ) -> Result<Standing, RecordFault>
        requires ready { IsReady (R.seen rec.old) }
        requires variables { TermsUpTo (R.seen rec.old).problem.vars row.now.terms }
        ensures recorded { IsRecorded (R.seen rec.old) (R.seen rec.new) result }
    {
        if least <= 0 {
            return Ok(Standing::Always);
        }
        let total = total_of(row.terms());
        if i128::from(total) < least {
            return Ok(Standing::Never);
        }
        let divisor = divisor_of(row.terms());
        if let [term] = row.terms() {
            return Ok(Standing::Output(DefinedOutput::of(&leaf_output(*term), 0, divisor)));
        }
        let sum = multiple_from(least as u64, divisor).min(total);
        let defined = self.output(rec, objective, row, sum, divisor)?;
        Ok(Standing::Output(defined))
    }

    // The output at this sum.
    fn output<R: Recorder>(
        &mut self,
        rec: &mut R,
        objective: usize,
        row: &CostRow,
        sum: u64,
        divisor: u64,
    ) -> Result<DefinedOutput, RecordFault>
        requires ready { IsReady (R.seen rec.old) }
        requires variables { TermsUpTo (R.seen rec.old).problem.vars row.now.terms }
        requires some { 0 < sum }
        requires most { sum ≤ total row.now.terms }
        ensures recorded { IsRecorded (R.seen rec.old) (R.seen rec.new) result }
    {
        let outputs = self.outputs(objective);
        let place = outputs.partition_point(|defined| defined.output.sum < sum);
        if let Some(defined) = outputs.get(place) {
            if defined.output.sum == sum {
                return Ok(*defined);
            }
        }
        self.define_at(rec, objective, row, sum, place, divisor)
    }

    // Defines the output at this sum, whose place among the objective's is this.
    fn define_at<R: Recorder>(
        &mut self,
        rec: &mut R,
        objective: usize,
        row: &CostRow,
        sum: u64,
        place: usize,
        divisor: u64,
    ) -> Result<DefinedOutput, RecordFault>
        requires ready { IsReady (R.seen rec.old) }
        requires variables { TermsUpTo (R.seen rec.old).problem.vars row.now.terms }
        requires some { 0 < sum }
        requires most { sum ≤ total row.now.terms }
        ensures recorded { IsRecorded (R.seen rec.old) (R.seen rec.new) result }
    {
        let output = define(self.alloc, rec, row.terms(), sum, sum)?;
        self.add(rec, objective, place, &output, divisor)
    }

    // Adds a new output at its place among the objective's.
    fn add<R: Recorder>(
        &mut self,
        rec: &mut R,
        objective: usize,
        place: usize,
        output: &SumOutput,
        divisor: u64,
    ) -> Result<DefinedOutput, RecordFault>
        requires ready { IsReady (R.seen rec.old) }
        ensures recorded { IsRecorded (R.seen rec.old) (R.seen rec.new) result }
    {
        let limit_line = limit_line(self.alloc, rec, output.upper, divisor)?;
        self.tie(rec, objective, place, output)?;
        let defined = DefinedOutput::of(output, limit_line, divisor);
        in_memory(self.insert(objective, place, &defined))?;
        Ok(defined)
    }

    // Adds the clauses by which the next greater output implies a new one, and that the next smaller one.
    fn tie<R: Recorder>(
        &self,
        rec: &mut R,
        objective: usize,
        place: usize,
        output: &SumOutput,
    ) -> Result<(), RecordFault>
        requires ready { IsReady (R.seen rec.old) }
        ensures recorded { IsRecorded (R.seen rec.old) (R.seen rec.new) result }
    {
        let outputs = self.outputs(objective);
        imply_some(self.alloc, rec, at(outputs, place), Some(output))?;
        imply_some(self.alloc, rec, Some(output), before(outputs, place))
    }

    // Puts an output at its place.
    fn insert(
        &mut self,
        objective: usize,
        place: usize,
        defined: &DefinedOutput,
    ) -> Result<(), NoMemory> {
        if let Some(outputs) = self.lists.get_mut(objective) {
            if place <= outputs.len() {
                outputs.insert(place, *defined)?;
            }
        }
        Ok(())
    }
}

// The output at a place.
fn at(outputs: &[DefinedOutput], place: usize) -> Option<&SumOutput> {
    match outputs.get(place) {
        Some(defined) => Some(&defined.output),
        None => None,
    }
}

// The output before a place.
fn before(outputs: &[DefinedOutput], place: usize) -> Option<&SumOutput> {
    if place == 0 {
        return None;
    }
    at(outputs, place - 1)
}

// Adds the line of an output's upper line divided by the divisor and multiplied by it again, which rounds its numbers up;
// of the divisor 1 it is the upper line.
fn limit_line<R: Recorder>(
    alloc: Global,
    rec: &mut R,
    upper: u64,
    divisor: u64,
) -> Result<u64, RecordFault>
    requires ready { IsReady (R.seen rec.old) }
    ensures recorded { IsRecorded (R.seen rec.old) (R.seen rec.new) result }
{
    if divisor <= 1 {
        return Ok(upper);
    }
    let tokens = in_memory(rounding(alloc, upper, divisor))?;
    match add_line(alloc, rec, tokens)? {
        Some(line) => Ok(line),
        None => Ok(upper),
    }
}

// The tokens of that line.
fn rounding(alloc: Global, upper: u64, divisor: u64) -> Result<Items<PolToken>, NoMemory> {
    let mut tokens = Items::new(alloc);
    tokens.push(PolToken::Id(upper))?;
    tokens.push(PolToken::Div(i128::from(divisor)))?;
    tokens.push(PolToken::Mul(i128::from(divisor)))?;
    Ok(tokens)
}

// The greatest common divisor of all weights; 0 where there is no term.
fn divisor_of(terms: &[(Lit, u64)]) -> u64 {
    let mut divisor = 0;
    for term in terms {
        divisor = common_divisor(divisor, term.1);
    }
    divisor
}

// The greatest common divisor of two numbers (Euclid).
fn common_divisor(one: u64, other: u64) -> u64 {
    let mut divisor = one;
    let mut rest = other;
    while rest > 0 {
        let next = divisor % rest;
        divisor = rest;
        rest = next;
    }
    divisor
}

// The least multiple of the divisor that is at least a number, where it is one of 64 bits; the number where there is no divisor.
fn multiple_from(number: u64, divisor: u64) -> u64
    ensures { number ≤ result }
{
    if divisor == 0 {
        return number;
    }
    match number % divisor {
        0 => number,
        rest => number.saturating_add(divisor - rest),
    }
}

// Adds the clause by which one output implies another, where both are there.
fn imply_some<R: Recorder>(
    alloc: Global,
    rec: &mut R,
    greater: Option<&SumOutput>,
    smaller: Option<&SumOutput>,
) -> Result<(), RecordFault>
    requires ready { IsReady (R.seen rec.old) }
    ensures recorded { IsRecorded (R.seen rec.old) (R.seen rec.new) result }
{
    let Some(greater) = greater else {
        return Ok(());
    };
    let Some(smaller) = smaller else {
        return Ok(());
    };
    imply(alloc, rec, greater, smaller)
}

// Adds the clause by which one output implies another of no greater sum, where their lines make it.
pub(crate) fn imply<R: Recorder>(
    alloc: Global,
    rec: &mut R,
    greater: &SumOutput,
    smaller: &SumOutput,
) -> Result<(), RecordFault>
    requires ready { IsReady (R.seen rec.old) }
    ensures recorded { IsRecorded (R.seen rec.old) (R.seen rec.new) result }
{
    if greater.sum < smaller.sum {
        return Ok(());
    }
    let tokens = in_memory(implying(alloc, greater, smaller))?;
    add_line(alloc, rec, tokens)?;
    Ok(())
}

// The tokens of that clause: the sum of the lower line of the one and the upper line of the other, whose degree is one
// more than the difference of the sums.
fn implying(
    alloc: Global,
    greater: &SumOutput,
    smaller: &SumOutput,
) -> Result<Items<PolToken>, NoMemory> {
    let mut tokens = Items::new(alloc);
    tokens.push(PolToken::Id(greater.lower))?;
    tokens.push(PolToken::Id(smaller.upper))?;
    tokens.push(PolToken::Add)?;
    tokens.push(PolToken::Saturate)?;
    if smaller.sum < greater.sum {
        tokens.push(PolToken::Div(i128::from(greater.sum - smaller.sum) + 1))?;
    }
    Ok(tokens)
}
