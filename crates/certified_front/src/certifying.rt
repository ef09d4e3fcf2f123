// A whole search, from no lines to the end of the proof.
ghost use Rattle.std.specs.Prelude.{◌≡◌, [], false};
ghost use Rattle.instance_normal.specs.NormalForm.{IsNormalFormOf};
ghost use Rattle.search_base.specs.Laws.{IsPrepared};
ghost use Rattle.certified_front.specs.Fronts.{CertifiesFront};
ghost use Rattle.certified_front.specs.Planning.{ArePrepared};
ghost use Rattle.certified_front.specs.Stopping.{SearchesFront};

use crate::boosting::front_boosted;
use crate::preparing::prepare;
use crate::searching::front_over;
use crate::term_order::ordered;
use crate::{Found, Plan};
use alike::Alike;
use instance::Instance;
use oracle::Oracle;
use pb_lin::PbProblem;
use proof_rules::RecordFault;
use search_base::{Search, own_reforms};
use std::alloc::Global;
use sum_outputs::in_memory;

/// Searches for the front of an instance, of which the problem is the normal form, over an oracle without lines, which it
/// leaves with a proof: by this search, after what the plan says. `Complete` where the proof has ended, `Incomplete` where
/// the oracle's limit of learned clauses was reached. Any other fault of the oracle is handed on, and the search isn't used
/// again.
pub fn certified_front<O: Oracle, S: Search>(
    alloc: Global,
    oracle: &mut O,
    problem: &PbProblem,
    inst: &Instance,
    plan: Plan,
    search: &mut S,
) -> Result<Found, RecordFault>
    requires normal { IsNormalFormOf inst.now problem.now }
    requires problem { (O.seen oracle.old).problem ≡ problem.now }
    requires begun { (O.seen oracle.old).lines ≡ [] }
    requires whole { (O.seen oracle.old).broken ≡ false }
    requires serves { S.serves search.old problem.now }
    ensures { CertifiesFront inst.now plan (O.seen oracle.old) (O.seen oracle.new) result }
{
    let mut adviser = Alike::new(alloc);
    prepare(alloc, oracle, problem, plan, &mut adviser)?;
    front_prepared(alloc, oracle, problem, inst, plan, search)
}

// Searches from the lines that the plan prepares.
fn front_prepared<O: Oracle, S: Search>(
    alloc: Global,
    oracle: &mut O,
    problem: &PbProblem,
    inst: &Instance,
    plan: Plan,
    search: &mut S,
) -> Result<Found, RecordFault>
    requires normal { IsNormalFormOf inst.now problem.now }
    requires problem { (O.seen oracle.old).problem ≡ problem.now }
    requires prepared { IsPrepared (O.seen oracle.old) }
    requires planned { ArePrepared plan problem.now (O.seen oracle.old).lines }
    requires serves { S.serves search.old problem.now }
    ensures { CertifiesFront inst.now plan (O.seen oracle.old) (O.seen oracle.new) result }
{
    if plan.boost {
        front_boosted(alloc, oracle, problem, inst, search)
    } else {
        front_in_own_terms(alloc, oracle, problem, inst, search)
    }
}

// Searches from prepared lines, over the objectives in their own terms.
fn front_in_own_terms<O: Oracle, S: Search>(
    alloc: Global,
    oracle: &mut O,
    problem: &PbProblem,
    inst: &Instance,
    search: &mut S,
) -> Result<Found, RecordFault>
    requires normal { IsNormalFormOf inst.now problem.now }
    requires problem { (O.seen oracle.old).problem ≡ problem.now }
    requires prepared { IsPrepared (O.seen oracle.old) }
    requires serves { S.serves search.old problem.now }
    ensures { SearchesFront inst.now problem.now (O.seen oracle.old) (O.seen oracle.new) result }
{
    // Tells that a text can spell each line, for which the laws of the rule book are.
    let _state = oracle.state();
    // Tells that the problem is within its limits.
    let _vars = problem.vars();
    let own = in_memory(own_reforms(alloc, problem))?;
    let reforms = in_memory(ordered(alloc, problem, own))?;
    front_over(alloc, oracle, problem, inst, reforms, search)
}
