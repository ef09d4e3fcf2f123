// Cores of an objective's literals.
ghost use Rattle.std.specs.Prelude.{◌≡◌, List, map, All, IfOk, OnOk, MatchOption};
ghost use Rattle.pb_lin.specs.Constraint.{IsVariable, literals, opposite};
ghost use Rattle.oracle.specs.Solving.{Reaches};
ghost use Rattle.sum_outputs.specs.Totals.{AreWeights};
ghost use Rattle.core_boosting.specs.Boosting.{BoostsOn, EndsBoosting, HasCoreLine, MayBoost};
ghost use Rattle.core_boosting.specs.Exchanging.{IsOfRow, KeepsRow};

use crate::exchanging::take_up;
use oracle::{Answer, Oracle, OracleFault};
use scut_base::{Items, Lit, NoMemory};
use std::alloc::Global;
use totalizer::Reform;

// Above so many variables no further core is taken up, so that the sizes of its lines stay below the limit.
const MOST_VARIABLES: u64 = 1 << 40;

// Takes up cores of the objective's literals while there are some.
pub(crate) fn take_up_cores<O: Oracle>(
    alloc: Global,
    oracle: &mut O,
    reform: &mut Reform,
) -> Result<(), OracleFault>
    requires may { MayBoost (O.seen oracle.old) }
    requires row { IsOfRow (O.seen oracle.old) reform.old }
    ensures row { OnOk result
        (KeepsRow (O.seen oracle.old) (O.seen oracle.new) reform.old reform.new) }
    ensures ends { OnOk result (Reaches (O.seen oracle.new).problem (O.seen oracle.new).lines
        (EndsBoosting (O.seen oracle.new).problem reform.new.terms)) }
    ensures goes_on { BoostsOn (O.seen oracle.old) (O.seen oracle.new) result }
{
    while let Some(id) = next_core(alloc, oracle, reform.terms.as_slice())? {
        take_up(alloc, oracle, reform, id)?;
    }
    Ok(())
}

// The id of a live clause over some of these terms' literals, if they can't all be false; `None` also where the line
// `0 >= 1` is live or there are too many variables.
fn next_core<O: Oracle>(
    alloc: Global,
    oracle: &mut O,
    terms: &[(Lit, u64)],
) -> Result<Option<u64>, OracleFault>
    requires may { MayBoost (O.seen oracle.old) }
    requires weights { AreWeights terms.now }
    requires variables { Reaches (O.seen oracle.old).problem (O.seen oracle.old).lines
        (λ s. All (λ t. IsVariable s.vars t.0.var) terms.now) }
    ensures core { IfOk result (λ found. Reaches (O.seen oracle.new).problem
        (O.seen oracle.new).lines (λ s. MatchOption found
        (EndsBoosting (O.seen oracle.new).problem terms.now s)
        (λ id. HasCoreLine terms.now id s))) }
    ensures goes_on { BoostsOn (O.seen oracle.old) (O.seen oracle.new) result }
{
    if oracle.state().vars() > MOST_VARIABLES {
        return Ok(None);
    }
    let denials = denials(alloc, terms)?;
    match oracle.solve(denials.as_slice())? {
        Answer::Sat(_) => Ok(None),
        Answer::Unsat(core) => {
            if core.lits.is_empty() {
                return Ok(None);
            }
            Ok(Some(core.id))
        }
    }
}

// The opposites of the terms' literals.
fn denials(alloc: Global, terms: &[(Lit, u64)]) -> Result<Items<Lit>, NoMemory>
    ensures { IfOk result (λ lits. lits ≡ map opposite (literals terms.now)) }
{
    let mut lits = Items::with_capacity(alloc, terms.len())?;
    for term in terms {
        lits.push(term.0.not())?;
    }
    Ok(lits)
}
