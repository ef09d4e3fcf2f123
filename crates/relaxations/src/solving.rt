// Whether literals can be true together: of an oracle, and of a clause engine beside it (DECISIONS, engine-first).
ghost use Rattle.std.specs.Prelude.{◌≡◌, IfOk, IfSome};
ghost use Rattle.oracle.specs.Solving.{AreAssumptions, IsAnswer, Reaches};
ghost use Rattle.relaxations.specs.Spending.{has_spent};
ghost use Rattle.relaxations.specs.Telling.{IsGoodWithSome, SeeksOn};

use crate::limits::FIRST_CLAUSES;
use engine_search::EngineSearch;
use oracle::{Answer, Oracle, OracleFault};
use pb_lin::PbProblem;
use scut_base::Lit;
use search_base::{
    Bounds, asking_stays_good, deriving_stays_good, turn_lines_join, turn_lines_keep_own,
};
use totalizer::own_lines_stay;

// What the oracle answers, until `FIRST_CLAUSES` were learned; from then on what the engine answers, and where it doesn't, the
// oracle. After `Spent` it may be asked again.
pub(crate) fn solve<O: Oracle>(
    engine: &mut EngineSearch,
    oracle: &mut O,
    bounds: &Bounds,
    problem: &PbProblem,
    lits: &[Lit],
) -> Result<Answer, OracleFault>
    requires good { IsGoodWithSome (O.seen oracle.old) bounds.now }
    requires problem { (O.seen oracle.old).problem ≡ problem.now }
    requires assumptions { Reaches (O.seen oracle.old).problem (O.seen oracle.old).lines
        (λ s. AreAssumptions s.vars lits.now) }
    ensures answer { IfOk result
        (IsAnswer (O.seen oracle.old).problem (O.seen oracle.new).lines lits.now) }
    ensures seeks { SeeksOn (O.seen oracle.old) (O.seen oracle.new) bounds.now bounds.now result }
{
    own_lines_stay();
    turn_lines_keep_own();
    if let Some(answer) = solve_at_first(oracle, bounds, lits)? {
        return Ok(answer);
    }
    if let Some(answer) = ask_engine(engine, oracle, bounds, problem, lits)? {
        return Ok(answer);
    }
    ask_oracle(oracle, bounds, lits)
}

// What the oracle answers before `FIRST_CLAUSES` are learned; `None` where they are.
fn solve_at_first<O: Oracle>(
    oracle: &mut O,
    bounds: &Bounds,
    lits: &[Lit],
) -> Result<Option<Answer>, OracleFault>
    requires good { IsGoodWithSome (O.seen oracle.old) bounds.now }
    requires assumptions { Reaches (O.seen oracle.old).problem (O.seen oracle.old).lines
        (λ s. AreAssumptions s.vars lits.now) }
    ensures answer { IfOk result (λ found. IfSome found
        (IsAnswer (O.seen oracle.old).problem (O.seen oracle.new).lines lits.now)) }
    ensures seeks { SeeksOn (O.seen oracle.old) (O.seen oracle.new) bounds.now bounds.now result }
{
    asking_stays_good();
    turn_lines_join();
    if FIRST_CLAUSES <= oracle.state().learned() {
        return Ok(None);
    }
    let told = oracle.solve_limited(lits, FIRST_CLAUSES);
    if has_spent(FIRST_CLAUSES, &told) {
        return Ok(None);
    }
    match told {
        Ok(answer) => Ok(Some(answer)),
        Err(fault) => Err(fault),
    }
}

// Whether so many clauses were learned, and one more would have been.
fn has_spent(most: u64, told: &Result<Answer, OracleFault>) -> bool
    ensures { result ≡ has_spent most told.now }
{
    match told {
        Err(OracleFault::Spent { learned }) => *learned >= most,
        _ => false,
    }
}

// What the engine answers; `None` where it doesn't.
fn ask_engine<O: Oracle>(
    engine: &mut EngineSearch,
    oracle: &mut O,
    bounds: &Bounds,
    problem: &PbProblem,
    lits: &[Lit],
) -> Result<Option<Answer>, OracleFault>
    requires good { IsGoodWithSome (O.seen oracle.old) bounds.now }
    requires problem { (O.seen oracle.old).problem ≡ problem.now }
    ensures answer { IfOk result (λ found. IfSome found
        (IsAnswer (O.seen oracle.old).problem (O.seen oracle.new).lines lits.now)) }
    ensures seeks { SeeksOn (O.seen oracle.old) (O.seen oracle.new) bounds.now bounds.now result }
{
    deriving_stays_good();
    turn_lines_join();
    let found = engine.ask(oracle, problem, lits)?;
    Ok(found)
}

// What the oracle answers.
fn ask_oracle<O: Oracle>(
    oracle: &mut O,
    bounds: &Bounds,
    lits: &[Lit],
) -> Result<Answer, OracleFault>
    requires good { IsGoodWithSome (O.seen oracle.old) bounds.now }
    requires assumptions { Reaches (O.seen oracle.old).problem (O.seen oracle.old).lines
        (λ s. AreAssumptions s.vars lits.now) }
    ensures answer { IfOk result
        (IsAnswer (O.seen oracle.old).problem (O.seen oracle.new).lines lits.now) }
    ensures seeks { SeeksOn (O.seen oracle.old) (O.seen oracle.new) bounds.now bounds.now result }
{
    asking_stays_good();
    turn_lines_join();
    oracle.solve(lits)
}
