// A search over objectives that were boosted.
ghost use Rattle.std.specs.Prelude.{◌≡◌, [], IfOk};
ghost use Rattle.instance_normal.specs.NormalForm.{IsNormalFormOf};
ghost use Rattle.proof_laws.specs.Earned.{IsBoosted};
ghost use Rattle.search_base.specs.CostBounds.{AreReforms};
ghost use Rattle.search_base.specs.Laws.{IsPrepared};
ghost use Rattle.certified_front.specs.Planning.{IsBoostedAtEnd};
ghost use Rattle.certified_front.specs.Stopping.{SearchesFront};

use crate::searching::front_over;
use crate::term_order::ordered;
use crate::{Ending, Found};
use cdcl_laws::learned_is_counted;
use core_boosting::{boost_all, boosted_stays};
use instance::Instance;
use oracle::{Oracle, OracleFault};
use pb_lin::PbProblem;
use proof_rules::RecordFault;
use search_base::{Search, logged_is_reached};
use std::alloc::Global;
use sum_outputs::in_memory;
use totalizer::Reform;

// Boosts all objectives, and searches over what they are then. Where all clauses that may be learned are spent before,
// nothing is found.
pub(crate) fn front_boosted<O: Oracle, S: Search>(
    alloc: Global,
    oracle: &mut O,
    problem: &PbProblem,
    inst: &Instance,
    search: &mut S,
) -> Result<Found, RecordFault>
    requires normal { IsNormalFormOf inst.now problem.now }
    requires problem { (O.seen oracle.old).problem ≡ problem.now }
    requires prepared { IsPrepared (O.seen oracle.old) }
    requires serves { S.serves search.old problem.now }
    ensures front { SearchesFront inst.now problem.now (O.seen oracle.old) (O.seen oracle.new) result }
    ensures boosted { IfOk result
        (λ found. IsBoostedAtEnd problem.now (O.seen oracle.new).lines found.ending) }
{
    learned_is_counted();
    logged_is_reached();
    match boost_all(alloc, oracle, problem) {
        Ok(boosted) => front_over_boosted(alloc, oracle, problem, inst, boosted, search),
        Err(OracleFault::Spent { learned }) => Ok(nothing(alloc, learned)),
        Err(OracleFault::Failed) => Err(RecordFault::Failed),
        Err(OracleFault::Full) => Err(RecordFault::Full),
        Err(OracleFault::NoMemory) => Err(RecordFault::NoMemory),
    }
}

// Nothing, where so many clauses were learned as may be.
fn nothing(alloc: Global, learned: u64) -> Found
    ensures entries { result.entries.items ≡ [] }
    ensures ending { result.ending ≡ Ending.Incomplete learned }
{
    Found {
        entries: Vec::new(alloc),
        ending: Ending::Incomplete { learned },
    }
}

// Searches over boosted objectives, whose terms are put in order.
fn front_over_boosted<O: Oracle, S: Search>(
    alloc: Global,
    oracle: &mut O,
    problem: &PbProblem,
    inst: &Instance,
    boosted: Vec<Reform>,
    search: &mut S,
) -> Result<Found, RecordFault>
    requires normal { IsNormalFormOf inst.now problem.now }
    requires problem { (O.seen oracle.old).problem ≡ problem.now }
    requires prepared { IsPrepared (O.seen oracle.old) }
    requires reforms { AreReforms (O.seen oracle.old) boosted.items }
    requires boosted { IsBoosted problem.now (O.seen oracle.old).lines }
    requires serves { S.serves search.old problem.now }
    ensures front { SearchesFront inst.now problem.now (O.seen oracle.old) (O.seen oracle.new) result }
    ensures boosted { IfOk result
        (λ found. IsBoostedAtEnd problem.now (O.seen oracle.new).lines found.ending) }
{
    boosted_stays();
    let reforms = in_memory(ordered(alloc, problem, boosted))?;
    front_over(alloc, oracle, problem, inst, reforms, search)
}
