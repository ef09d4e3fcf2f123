// Questions to the relaxations.
ghost use Rattle.std.specs.Prelude.{◌≡◌, IfOk, IfSome};
ghost use Rattle.pb_lin.specs.Problem.{IsProblemModel};
ghost use Rattle.sum_outputs.specs.Adding.{IsReady, IsRecorded};
ghost use Rattle.relaxations.specs.Told.{IsTold};

use crate::defined_outputs::{DefinedOutput, DefinedOutputs, Standing};
use branch_and_bound::{Limit, Target};
use front_set::CostVec;
use linear_search::{LinearSearch, Reply, model_of};
use pb_lin::PbProblem;
use proof_rules::{RecordFault, Recorder};
use scut_base::{Assignment, Items, Lit, NoMemory};
use search_base::costs_at;
use std::alloc::Global;
use sum_outputs::in_memory;

// What comes of a question.
#[derive(Debug, Drop)]
pub(crate) enum Told {
    // Nothing keeps to the limits.
    Closed,
    // This model does, and of such models it has the least cost by the target, as far as the relaxation tells.
    Model(Assignment),
    // It isn't known.
    Unknown,
}

// The relaxation of a problem, and the outputs that questions to it have defined.
#[derive(Drop)]
pub(crate) struct Asking<'a> {
    pub(crate) alloc: Global,
    pub(crate) linear: &'a mut LinearSearch,
    // How much work it may do in all.
    pub(crate) most: u64,
    pub(crate) defined: DefinedOutputs,
}

// What a question assumes, and its limits as the relaxation takes them.
#[derive(Debug, Drop)]
struct Limits {
    lits: Items<Lit>,
    asked: Items<Limit>,
}

// The cut of a model, in order of variables, and for each objective the line that bounds it.
#[derive(Debug, Drop)]
pub(crate) struct Cut {
    pub(crate) lits: Items<Lit>,
    pub(crate) rows: Items<u64>,
}

impl<'a> Asking<'a> {
    // Whether a model's costs are at most the limits, as far as the relaxation tells; of such models it seeks the best by the
    // target. Costs an output for each objective, and what `LinearSearch::ask` does.
    pub(crate) fn ask<R: Recorder>(
        &mut self,
        rec: &mut R,
        problem: &PbProblem,
        limits: &CostVec,
        target: Target,
    ) -> Result<Told, RecordFault>
        requires ready { IsReady (R.seen rec.old) }
        requires problem { (R.seen rec.old).problem ≡ problem.now }
        ensures recorded { IsRecorded (R.seen rec.old) (R.seen rec.new) result }
        ensures told { IfOk result (IsTold problem.now) }
    {
        let Some(question) = self.limits(rec, problem, limits)? else {
            return Ok(Told::Closed);
        };
        self.answer(rec, problem, limits, &question, target)
    }

    // What comes of the question whether a model keeps to these limits.
    fn answer<R: Recorder>(
        &mut self,
        rec: &mut R,
        problem: &PbProblem,
        limits: &CostVec,
        question: &Limits,
        target: Target,
    ) -> Result<Told, RecordFault>
        requires ready { IsReady (R.seen rec.old) }
        requires problem { (R.seen rec.old).problem ≡ problem.now }
        ensures recorded { IsRecorded (R.seen rec.old) (R.seen rec.new) result }
        ensures told { IfOk result (IsTold problem.now) }
    {
        let lits = question.lits.as_slice();
        match self
            .linear
            .ask(rec, problem, lits, question.asked.as_slice(), target)?
        {
            Reply::Closed(_core) => Ok(Told::Closed),
            Reply::Model(model) => {
                let told = in_memory(told_of(self.alloc, problem, limits, model.as_slice()))?;
                Ok(told)
            }
            Reply::Unknown => Ok(Told::Unknown),
        }
    }

    // Whether the relaxation may be asked once more.
    pub(crate) fn may_ask(&self) -> bool {
        self.linear.work() <= self.most
    }

    // The same as `ask`; where the relaxation tells, as much may be lost on further questions as this one has cost.
    pub(crate) fn ask_and_earn<R: Recorder>(
        &mut self,
        rec: &mut R,
        problem: &PbProblem,
        limits: &CostVec,
        target: Target,
    ) -> Result<Told, RecordFault>
        requires ready { IsReady (R.seen rec.old) }
        requires problem { (R.seen rec.old).problem ≡ problem.now }
        ensures recorded { IsRecorded (R.seen rec.old) (R.seen rec.new) result }
        ensures told { IfOk result (IsTold problem.now) }
    {
        let before = self.linear.work();
        let told = self.ask(rec, problem, limits, target)?;
        if !matches!(told, Told::Unknown) {
            let spent = self.linear.work().saturating_sub(before);
            self.linear.earn(spent);
        }
        Ok(told)
    }

    // As `ask`, where the last question was about the limits around these: it goes on in that question's tree. Costs an output
    // for each objective, and what `LinearSearch::ask_further` does.
    pub(crate) fn ask_below<R: Recorder>(
        &mut self,
        rec: &mut R,
        problem: &PbProblem,
        limits: &CostVec,
        around: &CostVec,
    ) -> Result<Told, RecordFault>
        requires ready { IsReady (R.seen rec.old) }
        requires problem { (R.seen rec.old).problem ≡ problem.now }
        ensures recorded { IsRecorded (R.seen rec.old) (R.seen rec.new) result }
        ensures told { IfOk result (IsTold problem.now) }
    {
        let Some(question) = self.limits(rec, problem, limits)? else {
            return Ok(Told::Closed);
        };
        self.ask_further(rec, problem, limits, around, &question)
    }

    // The same, where the limits have their outputs. Clauses of the tree name outputs of the limits around, so these are
    // assumed too, as they follow.
    fn ask_further<R: Recorder>(
        &mut self,
        rec: &mut R,
        problem: &PbProblem,
        limits: &CostVec,
        around: &CostVec,
        question: &Limits,
    ) -> Result<Told, RecordFault>
        requires ready { IsReady (R.seen rec.old) }
        requires problem { (R.seen rec.old).problem ≡ problem.now }
        ensures recorded { IsRecorded (R.seen rec.old) (R.seen rec.new) result }
        ensures told { IfOk result (IsTold problem.now) }
    {
        let Some(wider) = self.limits(rec, problem, around)? else {
            return Ok(Told::Closed);
        };
        self.answer_further(rec, problem, limits, question, &wider)
    }

    // What comes of the question in the tree of the wider one.
    fn answer_further<R: Recorder>(
        &mut self,
        rec: &mut R,
        problem: &PbProblem,
        limits: &CostVec,
        question: &Limits,
        wider: &Limits,
    ) -> Result<Told, RecordFault>
        requires ready { IsReady (R.seen rec.old) }
        requires problem { (R.seen rec.old).problem ≡ problem.now }
        ensures recorded { IsRecorded (R.seen rec.old) (R.seen rec.new) result }
        ensures told { IfOk result (IsTold problem.now) }
    {
        let lits = in_memory(joined(self.alloc, &question.lits, &wider.lits))?;
        let asked = question.asked.as_slice();
        match self
            .linear
            .ask_further(rec, problem, lits.as_slice(), asked)?
        {
            Reply::Closed(_core) => Ok(Told::Closed),
            Reply::Model(model) => {
                let told = in_memory(told_of(self.alloc, problem, limits, model.as_slice()))?;
                Ok(told)
            }
            Reply::Unknown => Ok(Told::Unknown),
        }
    }

    // The limits of the objectives that may exceed theirs; `None` where one always does.
    fn limits<R: Recorder>(
        &mut self,
        rec: &mut R,
        problem: &PbProblem,
        limits: &CostVec,
    ) -> Result<Option<Limits>, RecordFault>
        requires ready { IsReady (R.seen rec.old) }
        requires problem { (R.seen rec.old).problem ≡ problem.now }
        ensures recorded { IsRecorded (R.seen rec.old) (R.seen rec.new) result }
    {
        let mut question = Limits {
            lits: Items::new(self.alloc),
            asked: Items::new(self.alloc),
        };
        for (objective, limit) in limits.as_slice().iter().enumerate() {
            if !self.may_keep(rec, problem, objective, *limit, &mut question)? {
                return Ok(None);
            }
        }
        Ok(Some(question))
    }

    // Adds the limit of an objective, if it may be exceeded. False where it always is.
    fn may_keep<R: Recorder>(
        &mut self,
        rec: &mut R,
        problem: &PbProblem,
        objective: usize,
        limit: i64,
        question: &mut Limits,
    ) -> Result<bool, RecordFault>
        requires ready { IsReady (R.seen rec.old) }
        requires problem { (R.seen rec.old).problem ≡ problem.now }
        ensures recorded { IsRecorded (R.seen rec.old) (R.seen rec.new) result }
    {
        match self.excess(rec, problem, objective, limit)? {
            Standing::Always => Ok(false),
            Standing::Never => Ok(true),
            Standing::Output(defined) => {
                let most = most_within(problem, objective, limit, defined.divisor);
                in_memory(add_limit(question, objective, most, &defined))?;
                Ok(true)
            }
        }
    }

    // The cut of a model of these costs. Costs an output for each objective.
    pub(crate) fn cut_at<R: Recorder>(
        &mut self,
        rec: &mut R,
        problem: &PbProblem,
        costs: &CostVec,
    ) -> Result<Cut, RecordFault>
        requires ready { IsReady (R.seen rec.old) }
        requires problem { (R.seen rec.old).problem ≡ problem.now }
        ensures recorded { IsRecorded (R.seen rec.old) (R.seen rec.new) result }
    {
        let mut lits = Vec::new(self.alloc);
        let mut rows = Items::new(self.alloc);
        for (objective, cost) in costs.as_slice().iter().enumerate() {
            let standing = self.defined.at_least(rec, problem, objective, *cost)?;
            in_memory(add_standing(&mut lits, &mut rows, standing))?;
        }
        lits.sort_unstable_by_key(|lit| lit.var());
        Ok(Cut {
            lits: Items::from_vec(lits),
            rows,
        })
    }

    // What stands for "the objective's cost exceeds its limit".
    fn excess<R: Recorder>(
        &mut self,
        rec: &mut R,
        problem: &PbProblem,
        objective: usize,
        limit: i64,
    ) -> Result<Standing, RecordFault>
        requires ready { IsReady (R.seen rec.old) }
        requires problem { (R.seen rec.old).problem ≡ problem.now }
        ensures recorded { IsRecorded (R.seen rec.old) (R.seen rec.new) result }
    {
        match limit.checked_add(1) {
            Some(least) => self.defined.at_least(rec, problem, objective, least),
            None => Ok(Standing::Never),
        }
    }
}

// The greatest cost within a limit, where costs differ by multiples of the divisor.
fn most_within(problem: &PbProblem, objective: usize, limit: i64, divisor: u64) -> i64 {
    let Some(row) = problem.costs().get(objective) else {
        return limit;
    };
    let above = i128::from(limit) - i128::from(row.offset());
    if above <= 0 || divisor == 0 {
        return limit;
    }
    match i64::try_from(above % i128::from(divisor)) {
        Ok(rest) => limit.saturating_sub(rest),
        Err(_) => limit,
    }
}

// Adds the limit of an objective that this output says is exceeded.
fn add_limit(
    question: &mut Limits,
    objective: usize,
    most: i64,
    defined: &DefinedOutput,
) -> Result<(), NoMemory> {
    question.lits.push(defined.output.lit.not())?;
    question.asked.push(Limit {
        objective,
        most,
        upper_line: defined.limit_line,
        reform_line: 0,
    })
}

// Adds what stands for an objective's cost to a cut: its line, and the opposite of its literal, once.
fn add_standing(
    lits: &mut Vec<Lit>,
    rows: &mut Items<u64>,
    standing: Standing,
) -> Result<(), NoMemory> {
    let Standing::Output(DefinedOutput { output, .. }) = standing else {
        return rows.push(0);
    };
    let denial = output.lit.not();
    if !lits.as_slice().contains(&denial) {
        lits.push(denial)?;
    }
    rows.push(output.lower)
}

// The literals of two questions, each once.
fn joined(alloc: Global, some: &Items<Lit>, others: &Items<Lit>) -> Result<Items<Lit>, NoMemory> {
    let mut lits = Items::new(alloc);
    lits.extend_from_slice(some.as_slice())?;
    for lit in others.as_slice() {
        if !some.as_slice().contains(lit) {
            lits.push(*lit)?;
        }
    }
    Ok(lits)
}

// What a proposed model tells.
fn told_of(
    alloc: Global,
    problem: &PbProblem,
    limits: &CostVec,
    lits: &[Lit],
) -> Result<Told, NoMemory>
    ensures told { IfOk result (IsTold problem.now) }
{
    match model_within(alloc, problem, limits, lits)? {
        Some(model) => Ok(Told::Model(model)),
        None => Ok(Told::Unknown),
    }
}

// The model that these literals make, where it is one whose costs are at most the limits.
fn model_within(
    alloc: Global,
    problem: &PbProblem,
    limits: &CostVec,
    lits: &[Lit],
) -> Result<Option<Assignment>, NoMemory>
    ensures model { IfOk result (λ found. IfSome found (IsProblemModel problem.now)) }
{
    let Some(model) = model_of(alloc, problem, lits)? else {
        return Ok(None);
    };
    let costs = costs_at(alloc, problem, &model)?;
    if costs.len() == limits.len() && costs.weakly_dominates(limits) {
        return Ok(Some(model));
    }
    Ok(None)
}
