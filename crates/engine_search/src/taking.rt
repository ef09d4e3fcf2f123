// What an engine knows of a proof (DECISIONS, engine-lines).

use clause_engine::Engine;
use pb_lin::{Constraint, CostRow, PbProblem};
use proof_rules::ProofState;
use scut_base::NoMemory;
use std::alloc::Global;

// Tells a new engine which variables clauses and questions to come may name: those of the objectives, and those that are
// made beside the problem's own. Others may be eliminated; the problem's rows keep theirs by themselves.
fn expect_outputs(engine: &mut Engine, problem: &PbProblem) -> Result<(), NoMemory> {
    for cost in problem.costs() {
        expect_terms(engine, cost)?;
    }
    Ok(())
}

fn expect_terms(engine: &mut Engine, cost: &CostRow) -> Result<(), NoMemory> {
    for (lit, _weight) in cost.terms() {
        engine.expect(lit.var())?;
    }
    Ok(())
}

// Takes up the live lines from this id on: the problem's rows, and clauses. Other lines follow from these, or say what
// new variables stand for, which clauses tell too. `false` where the engine can't take a line up.
pub(crate) fn take_up(
    alloc: Global,
    engine: &mut Engine,
    problem: &PbProblem,
    state: &ProofState,
    from: u64,
) -> Result<bool, NoMemory> {
    engine.expect_from(problem.vars().saturating_add(1));
    if !engine.grow(state.vars())? {
        return Ok(false);
    }
    if from == 1 {
        expect_outputs(engine, problem)?;
    }
    let rows = problem.rows().len() as u64;
    for id in from..state.next_id() {
        let Some(line) = state.live().get(id) else {
            continue;
        };
        if !take_line(alloc, engine, id, line, id <= rows)? {
            return Ok(false);
        }
    }
    Ok(true)
}

// Takes up a line, if it is a clause or a row that says something.
fn take_line(
    alloc: Global,
    engine: &mut Engine,
    id: u64,
    line: &Constraint,
    is_row: bool,
) -> Result<bool, NoMemory> {
    if line.is_clause() {
        return engine.add_clause(id, line.literals());
    }
    if !is_row || line.degree() == 0 {
        return Ok(true);
    }
    let Ok(degree) = u64::try_from(line.degree()) else {
        return Ok(false);
    };
    let mut terms = Vec::with_capacity(alloc, line.len())?;
    for at in 0..line.len() {
        let (lit, coefficient) = line.term(at);
        let Ok(coefficient) = u64::try_from(coefficient.min(line.degree())) else {
            return Ok(false);
        };
        terms.push((lit, coefficient))?;
    }
    engine.add_row(id, terms.as_slice(), degree)
}
