// Questions to an oracle.
ghost use Rattle.std.specs.Prelude.{◌≡◌, ◌≤◌, length, IfOk, IfErr};
ghost use Rattle.relaxations.specs.Cores.{IsToldByCore};
ghost use Rattle.relaxations.specs.Telling.{IsGoodWithSome, SeeksOn, Tells, TellsAny};

use crate::Below;
use crate::question::questioned;
use crate::solving::solve;
use crate::standing::{clashing, standing};
use engine_search::EngineSearch;
use front_set::CostVec;
use oracle::{Answer, Core, Oracle, OracleFault};
use pb_lin::PbProblem;
use search_base::{Bounds, bounding_stays_good, turn_lines_join, turn_lines_keep_own};
use std::alloc::Global;
use totalizer::{Bound, own_lines_stay};

// Whether a model is left whose costs are at most these limits. Where the bounds alone tell that none is, nobody
// is asked; else the oracle is, and from the thousandth learned clause on the engine first. A limit of `i64::MAX` is
// none. After `Spent` it may be asked again.
//
// Costs a bound for each objective, and a call of the engine or of the oracle.
pub(crate) fn oracle_below<O: Oracle>(
    alloc: Global,
    engine: &mut EngineSearch,
    oracle: &mut O,
    bounds: &mut Bounds,
    problem: &PbProblem,
    limits: &CostVec,
) -> Result<Below, OracleFault>
    requires good { IsGoodWithSome (O.seen oracle.old) bounds.old }
    requires problem { (O.seen oracle.old).problem ≡ problem.now }
    requires count { length limits.now ≡ length (O.seen oracle.old).problem.costs }
    ensures tells { IfOk result (Tells (O.seen oracle.new) limits.now) }
    ensures seeks { SeeksOn (O.seen oracle.old) (O.seen oracle.new) bounds.old bounds.new result }
{
    own_lines_stay();
    bounding_stays_good();
    turn_lines_join();
    turn_lines_keep_own();
    let question = questioned(alloc, oracle, bounds, limits)?;
    let objectives = limits.as_slice().len();
    let excesses = question.excesses.as_slice();
    let Some(lits) = &question.lits else {
        let stands = clashing(alloc, excesses, question.last, objectives)?;
        return Ok(Below::Above { stands });
    };
    match solve(engine, oracle, bounds, problem, lits.as_slice())? {
        Answer::Sat(model) => Ok(Below::Model(model)),
        Answer::Unsat(core) => told_by_core(alloc, excesses, core, objectives),
    }
}

// What a core says of the limits.
pub(crate) fn told_by_core(
    alloc: Global,
    excesses: &[Bound],
    core: Core,
    objectives: usize,
) -> Result<Below, OracleFault>
    requires { length excesses.now ≤ objectives }
    ensures told { IfOk result (IsToldByCore excesses.now core.lits core.id objectives) }
    ensures fault { IfErr result (λ f. f ≡ OracleFault.NoMemory) }
{
    if core.lits.is_empty() {
        return Ok(Below::End { id: core.id });
    }
    let stands = standing(alloc, excesses, core.lits.as_slice(), objectives)?;
    Ok(Below::Above { stands })
}

// Whether a model is left: it never answers `Above`. After `Spent` it may be asked again. Costs a call of the
// engine or of the oracle.
pub(crate) fn oracle_any<O: Oracle>(
    engine: &mut EngineSearch,
    oracle: &mut O,
    bounds: &Bounds,
    problem: &PbProblem,
) -> Result<Below, OracleFault>
    requires good { IsGoodWithSome (O.seen oracle.old) bounds.now }
    requires problem { (O.seen oracle.old).problem ≡ problem.now }
    ensures tells { IfOk result (TellsAny (O.seen oracle.new)) }
    ensures seeks { SeeksOn (O.seen oracle.old) (O.seen oracle.new) bounds.now bounds.now result }
{
    match solve(engine, oracle, bounds, problem, &[])? {
        Answer::Sat(model) => Ok(Below::Model(model)),
        Answer::Unsat(core) => Ok(Below::End { id: core.id }),
    }
}
