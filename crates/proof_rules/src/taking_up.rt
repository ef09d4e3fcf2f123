// What a legal line makes of a state.
ghost use Rattle.std.specs.Prelude.{◌≡◌, ◌+◌, ◌≤◌, ◌<◌, ◌^◌, None, length, map, All, AllPairs, IfOk, OnOk, OnErr};
ghost use Rattle.pb_lin.specs.Constraint.{TermsUpTo, UpTo, size};
ghost use Rattle.pb_lin.specs.CostRow.{row_cost};
ghost use Rattle.pb_lin.specs.Problem.{IsProblem, problem_costs};
ghost use Rattle.proof_laws.specs.State.{IsState};
ghost use Rattle.proof_laws.specs.Steps.{with_definition, with_solution, reached_if, reached_only_if};
ghost use Rattle.proof_laws.specs.Refusal.{assignment_of, misplaced};
ghost use Rattle.proof_laws.specs.Legal.{IsLegal, IsNext};
ghost use Rattle.proof_laws.specs.Laws.{StandsBefore};
ghost use Rattle.proof_rules.specs.Verdict.{IsValueMade};

use crate::definition::{reached_if, reached_only_if};
use crate::reached::Reached;
use crate::solution::assignment_of;
use front_set::CostVec;
use pb_lin::{Constraint, CostRow, PbProblem, row_cost};
use proof_laws::Line;
use scut_base::{Assignment, Duplicate, Items, Lit, NoMemory, Partial};
use std::alloc::Global;

// Takes up a legal line, with the constraint that its tokens make where it is a `pol` line.
pub(crate) fn take_up(
    alloc: Global,
    problem: &PbProblem,
    reached: &mut Reached,
    scratch: &mut Partial,
    line: &Line,
    made: Option<Constraint>,
) -> Result<(), NoMemory>
    requires before { StandsBefore problem.now reached.old line.now }
    requires legal { IsLegal problem.now reached.old line.now }
    requires made { IsValueMade reached.old line.now made }
    requires variables { reached.old.vars ≤ length scratch.old }
    ensures next { OnOk result (IsNext problem.now reached.old line.now reached.new) }
    ensures same { OnErr result (reached.new ≡ reached.old) }
    ensures variables { reached.new.vars ≤ length scratch.new }
{
    match made {
        Some(c) => reached.add(c),
        None => take_up_given(alloc, problem, reached, scratch, line),
    }
}

// The same of a line that is handed over: its constraint stays without being copied.
pub(crate) fn take_up_owned(
    alloc: Global,
    problem: &PbProblem,
    reached: &mut Reached,
    scratch: &mut Partial,
    line: Line,
    made: Option<Constraint>,
) -> Result<(), NoMemory>
    requires before { StandsBefore problem.now reached.old line }
    requires legal { IsLegal problem.now reached.old line }
    requires made { IsValueMade reached.old line made }
    requires variables { reached.old.vars ≤ length scratch.old }
    ensures next { OnOk result (IsNext problem.now reached.old line reached.new) }
    ensures same { OnErr result (reached.new ≡ reached.old) }
    ensures variables { reached.new.vars ≤ length scratch.new }
{
    match line {
        Line::Rup { goal, .. } => reached.add(goal),
        Line::Learn { goal, .. } => reached.learn(goal),
        Line::Red { goal, .. } => reached.add(goal),
        Line::Dom { goal, .. } => reached.add(goal),
        other => take_up(alloc, problem, reached, scratch, &other, made),
    }
}

// Takes up a legal line of another kind than `pol`.
fn take_up_given(
    alloc: Global,
    problem: &PbProblem,
    reached: &mut Reached,
    scratch: &mut Partial,
    line: &Line,
) -> Result<(), NoMemory>
    requires before { StandsBefore problem.now reached.old line.now }
    requires legal { IsLegal problem.now reached.old line.now }
    requires given { IsValueMade reached.old line.now None }
    requires variables { reached.old.vars ≤ length scratch.old }
    ensures next { OnOk result (IsNext problem.now reached.old line.now reached.new) }
    ensures same { OnErr result (reached.new ≡ reached.old) }
    ensures variables { reached.new.vars ≤ length scratch.new }
{
    match line {
        Line::Pol { .. } => unreachable!(),
        Line::Rup { goal, .. } => reached.add(goal.copy(alloc)?),
        Line::Learn { goal, .. } => reached.learn(goal.copy(alloc)?),
        Line::Def { sum, .. } => define(alloc, reached, scratch, sum),
        Line::Red { goal, .. } => reached.add(goal.copy(alloc)?),
        Line::Dom { goal, .. } => reached.add(goal.copy(alloc)?),
        Line::Sol { model, cut, .. } => log(alloc, problem, reached, model.as_slice(), cut),
        Line::Del { ids } => {
            reached.delete(ids.as_slice());
            Ok(())
        }
        Line::Reduce { ids } => {
            reached.delete(ids.as_slice());
            Ok(())
        }
        Line::End { .. } => {
            reached.end();
            Ok(())
        }
    }
}

// One more variable, as the truth of a constraint.
fn define(
    alloc: Global,
    reached: &mut Reached,
    scratch: &mut Partial,
    sum: &Constraint,
) -> Result<(), NoMemory>
    requires variables { UpTo reached.old.vars sum.now }
    requires upper { size (reached_if (reached.old.vars + 1) sum.now) ≤ 2 ^ 100 }
    requires lower { size (reached_only_if (reached.old.vars + 1) sum.now) ≤ 2 ^ 100 }
    requires next { IsState (with_definition reached.old sum.now) }
    requires room { reached.old.vars ≤ length scratch.old }
    ensures ok { OnOk result (reached.new ≡ with_definition reached.old sum.now) }
    ensures err { OnErr result (reached.new ≡ reached.old) }
    ensures room { reached.new.vars ≤ length scratch.new }
{
    let vars = reached.vars;
    let upper = reached_if(alloc, vars, sum)?;
    let lower = reached_only_if(alloc, vars, sum)?;
    scratch.grow(vars + 1)?;
    reached.define(sum, upper, lower)
}

// One more logged model, with the clause of the cut.
fn log(
    alloc: Global,
    problem: &PbProblem,
    reached: &mut Reached,
    model: &[Lit],
    cut: &Items<Lit>,
) -> Result<(), NoMemory>
    requires problem { IsProblem problem.now }
    requires model { misplaced 1 problem.now.vars model.now ≡ None }
    requires cut { AllPairs (λ l m. l.var < m.var) cut.now }
    requires next { IsState
        (with_solution reached.old cut.now (problem_costs problem.now (assignment_of model.now))) }
    ensures ok { OnOk result (reached.new
        ≡ with_solution reached.old cut.now (problem_costs problem.now (assignment_of model.now))) }
    ensures err { OnErr result (reached.new ≡ reached.old) }
    ensures vars { reached.new.vars ≡ reached.old.vars }
{
    let a = assignment_of(alloc, model)?;
    let costs = costs_of(alloc, problem.costs(), &a)?;
    let clause = Constraint::clause(cut.copy(alloc)?);
    reached.log(clause, costs)
}

// The values of the rows.
fn costs_of(alloc: Global, rows: &[CostRow], a: &Assignment) -> Result<CostVec, NoMemory>
    requires { All (λ r. TermsUpTo (length a.now) r.terms) rows.now }
    ensures { IfOk result (λ costs. costs ≡ map (row_cost a.now) rows.now) }
{
    let mut costs = Items::with_capacity(alloc, rows.len())?;
    for row in rows {
        costs.push(row_cost(row, a))?;
    }
    Ok(CostVec::from_items(costs))
}
