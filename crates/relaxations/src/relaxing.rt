// Questions to linear relaxations.
ghost use Rattle.std.specs.Prelude.{◌≡◌, ◌<◌, length, IfOk, IfSome};
ghost use Rattle.search_base.specs.CostBounds.{FitSome};
ghost use Rattle.relaxations.specs.Questions.{IsQuestion};
ghost use Rattle.relaxations.specs.Telling.{IsGoodWithSome, SeeksOn, Tells};

use crate::Below;
use crate::arranging::Arranger;
use crate::extending::extended;
use crate::question::{Question, questioned};
use crate::seeking::told_by_core;
use crate::standing::clashing;
use branch_and_bound::{Limit, Target};
use engine_search::solution_by;
use front_set::CostVec;
use linear_search::{LinearSearch, Reply};
use oracle::{Oracle, OracleFault};
use pb_lin::PbProblem;
use scut_base::{Items, Lit, NoMemory};
use search_base::{
    Bounds, adding_stays_good, bounding_stays_good, costs_at, turn_lines_join, turn_lines_keep_own,
};
use std::alloc::Global;
use totalizer::own_lines_stay;

// What `oracle_below` asks, of linear relaxations of the problem: `Some` is an answer as `oracle_below` gives it, and `None`
// says that it isn't known. The oracle isn't asked: a model that a relaxation proposes is tried on all that is live, and where it
// is refused, once more with its parts in order. Where the bounds alone tell, nothing is asked. A limit of `i64::MAX` is none.
// After `Spent` it may be asked again.
//
// Costs a bound for each objective, what `LinearSearch::ask` does, and passes over live lines where a model is proposed.
pub(crate) fn linear_below<O: Oracle>(
    alloc: Global,
    oracle: &mut O,
    bounds: &mut Bounds,
    linear: &mut LinearSearch,
    arranger: &mut Arranger,
    problem: &PbProblem,
    limits: &CostVec,
) -> Result<Option<Below>, OracleFault>
    requires good { IsGoodWithSome (O.seen oracle.old) bounds.old }
    requires problem { (O.seen oracle.old).problem ≡ problem.now }
    requires count { length limits.now ≡ length (O.seen oracle.old).problem.costs }
    ensures tells { IfOk result (λ below. IfSome below (Tells (O.seen oracle.new) limits.now)) }
    ensures seeks { SeeksOn (O.seen oracle.old) (O.seen oracle.new) bounds.old bounds.new result }
{
    bounding_stays_good();
    turn_lines_join();
    let question = questioned(alloc, oracle, bounds, limits)?;
    ask_linear(
        alloc, oracle, bounds, linear, arranger, problem, limits, &question,
    )
}

// The same, where the bounds have been asked for.
fn ask_linear<O: Oracle>(
    alloc: Global,
    oracle: &mut O,
    bounds: &Bounds,
    linear: &mut LinearSearch,
    arranger: &mut Arranger,
    problem: &PbProblem,
    limits: &CostVec,
    question: &Question,
) -> Result<Option<Below>, OracleFault>
    requires good { IsGoodWithSome (O.seen oracle.old) bounds.now }
    requires problem { (O.seen oracle.old).problem ≡ problem.now }
    requires count { length limits.now ≡ length (O.seen oracle.old).problem.costs }
    requires asked { IsQuestion (O.seen oracle.old) limits.now question.now.excesses
        question.now.last question.now.lits }
    ensures tells { IfOk result (λ below. IfSome below (Tells (O.seen oracle.new) limits.now)) }
    ensures seeks { SeeksOn (O.seen oracle.old) (O.seen oracle.new) bounds.now bounds.now result }
{
    own_lines_stay();
    adding_stays_good();
    turn_lines_join();
    turn_lines_keep_own();
    let objectives = limits.as_slice().len();
    let excesses = question.excesses.as_slice();
    let Some(lits) = &question.lits else {
        let stands = clashing(alloc, excesses, question.last, objectives)?;
        return Ok(Some(Below::Above { stands }));
    };
    let asked = linear_limits(alloc, bounds, limits)?;
    match linear.ask(
        oracle,
        problem,
        lits.as_slice(),
        asked.as_slice(),
        Target::Sum,
    )? {
        Reply::Closed(core) => {
            let below = told_by_core(alloc, excesses, core, objectives)?;
            Ok(Some(below))
        }
        Reply::Model(model) => {
            let below = propose(alloc, oracle, arranger, problem, limits, model.as_slice())?;
            Ok(below)
        }
        Reply::Unknown => Ok(None),
    }
}

// The model that these literals make, or that they make once they are in order, where all that is live holds in it and its
// costs are at most the limits.
fn propose<O: Oracle>(
    alloc: Global,
    oracle: &O,
    arranger: &mut Arranger,
    problem: &PbProblem,
    limits: &CostVec,
    lits: &[Lit],
) -> Result<Option<Below>, NoMemory>
    requires problem { (O.seen oracle.now).problem ≡ problem.now }
    requires count { length limits.now ≡ length (O.seen oracle.now).problem.costs }
    ensures tells { IfOk result (λ below. IfSome below (Tells (O.seen oracle.now) limits.now)) }
{
    let found = tried(alloc, oracle, problem, limits, lits)?;
    if found.is_some() {
        return Ok(found);
    }
    match arranger.arranged(alloc, oracle.state(), problem, lits)? {
        Some(arranged) => tried(alloc, oracle, problem, limits, arranged.as_slice()),
        None => Ok(None),
    }
}

// The model that these literals make, where all that is live holds in it and its costs are at most the limits.
fn tried<O: Oracle>(
    alloc: Global,
    oracle: &O,
    problem: &PbProblem,
    limits: &CostVec,
    lits: &[Lit],
) -> Result<Option<Below>, NoMemory>
    requires problem { (O.seen oracle.now).problem ≡ problem.now }
    requires count { length limits.now ≡ length (O.seen oracle.now).problem.costs }
    ensures tells { IfOk result (λ below. IfSome below (Tells (O.seen oracle.now) limits.now)) }
{
    let proposed = extended(alloc, oracle.state(), problem, lits)?;
    let Some(model) = solution_by(oracle, problem, lits, proposed) else {
        return Ok(None);
    };
    // Tells that the lines reach a state.
    let _state = oracle.state();
    let costs = costs_at(alloc, problem, &model)?;
    if costs.weakly_dominates(limits) {
        return Ok(Some(Below::Model(model)));
    }
    Ok(None)
}

// The limits as a relaxation takes them, of the objectives that have one.
fn linear_limits(alloc: Global, bounds: &Bounds, limits: &CostVec) -> Result<Items<Limit>, NoMemory>
    requires fits { FitSome bounds.now }
    requires count { length limits.now ≡ length bounds.now }
{
    let mut asked = Items::new(alloc);
    for (objective, limit) in limits.as_slice().iter().enumerate() {
        if let Some(limit) = linear_limit(bounds, objective, *limit) {
            asked.push(limit)?;
        }
    }
    Ok(asked)
}

// The limit of an objective, where an output was made that stands for more. It is less by one than what the
// output stands for, since that is what the output's line speaks of.
fn linear_limit(bounds: &Bounds, objective: usize, limit: i64) -> Option<Limit>
    requires fits { FitSome bounds.now }
    requires there { objective < length bounds.now }
    ensures { IfSome result (λ l. l.objective ≡ objective) }
{
    let output = bounds.made_for(objective, limit.checked_add(1)?)?;
    let upper_line = output.upper;
    let next = bounds.next_value(objective, limit)?;
    Some(Limit {
        objective,
        most: next.saturating_sub(1),
        upper_line,
        reform_line: bounds.reform_line(objective),
    })
}
