// What is done before a search.
ghost use Rattle.std.specs.Prelude.{◌≡◌, [], false, IfErr, OnOk};
ghost use Rattle.proof_rules.specs.Recording.{KeepsRecorder};
ghost use Rattle.recording.specs.Adding.{Adds};
ghost use Rattle.recording.specs.Advice.{IsAdvice};
ghost use Rattle.search_base.specs.Laws.{IsPrepared};
ghost use Rattle.harden.specs.Hardened.{hardened};
ghost use Rattle.certified_front.specs.Planning.{ArePrepared, hardened_by};
ghost use Rattle.certified_front.specs.Stopping.{IsStop};

use harden::harden;
use oracle::{Oracle, OracleFault};
use pb_lin::PbProblem;
use proof_rules::{Judge, RecordFault};
use recording::{Adviser, consult, in_memory};
use search_base::{advised_stays_prepared, no_lines_are_prepared};
use std::alloc::Global;

/// What is done before a search.
#[derive(Clone, Copy, Debug, PartialEq, Eq)]
pub struct Plan {
    /// Whether literals that may as well be false are made false.
    pub harden: bool,
    /// Whether lower bounds of all objectives are raised core by core.
    pub boost: bool,
}

// Adds the lines that the plan asks for to an oracle without lines, and then those of the adviser's that are legal.
pub(crate) fn prepare<O: Oracle, A: Adviser>(
    alloc: Global,
    oracle: &mut O,
    problem: &PbProblem,
    plan: Plan,
    adviser: &mut A,
) -> Result<(), RecordFault>
    requires problem { (O.seen oracle.old).problem ≡ problem.now }
    requires begun { (O.seen oracle.old).lines ≡ [] }
    requires whole { (O.seen oracle.old).broken ≡ false }
    ensures prepared { OnOk result (IsPrepared (O.seen oracle.new)) }
    ensures planned { OnOk result (ArePrepared plan problem.now (O.seen oracle.new).lines) }
    ensures stop { IfErr result (IsStop (O.seen oracle.old) (O.seen oracle.new)) }
    ensures keeps { KeepsRecorder (O.seen oracle.old) (O.seen oracle.new) }
{
    harden_by(alloc, oracle, problem, plan)?;
    take_proposals(alloc, oracle, problem, adviser)
}

// Takes those lines of the adviser's that are legal after prepared ones.
fn take_proposals<O: Oracle, A: Adviser>(
    alloc: Global,
    oracle: &mut O,
    problem: &PbProblem,
    adviser: &mut A,
) -> Result<(), RecordFault>
    requires problem { (O.seen oracle.old).problem ≡ problem.now }
    requires prepared { IsPrepared (O.seen oracle.old) }
    ensures prepared { OnOk result (IsPrepared (O.seen oracle.new)) }
    ensures stop { IfErr result (IsStop (O.seen oracle.old) (O.seen oracle.new)) }
    ensures adds { Adds IsAdvice (O.seen oracle.old) (O.seen oracle.new) }
{
    advised_stays_prepared();
    let mut judge = in_memory(Judge::new(alloc, problem))?;
    consult(&mut judge, oracle, problem, adviser)
}

// Hardens, where the plan says so.
fn harden_by<O: Oracle>(
    alloc: Global,
    oracle: &mut O,
    problem: &PbProblem,
    plan: Plan,
) -> Result<(), RecordFault>
    requires problem { (O.seen oracle.old).problem ≡ problem.now }
    requires begun { (O.seen oracle.old).lines ≡ [] }
    requires whole { (O.seen oracle.old).broken ≡ false }
    ensures prepared { OnOk result (IsPrepared (O.seen oracle.new)) }
    ensures lines { OnOk result ((O.seen oracle.new).lines ≡ hardened_by plan problem.now) }
    ensures stop { IfErr result (IsStop (O.seen oracle.old) (O.seen oracle.new)) }
    ensures keeps { KeepsRecorder (O.seen oracle.old) (O.seen oracle.new) }
{
    no_lines_are_prepared();
    // Tells that the problem is within its limits.
    let _vars = problem.vars();
    if plan.harden {
        return harden_first(alloc, oracle, problem);
    }
    Ok(())
}

// Hardens, for which there is room.
fn harden_first<O: Oracle>(
    alloc: Global,
    oracle: &mut O,
    problem: &PbProblem,
) -> Result<(), RecordFault>
    requires problem { (O.seen oracle.old).problem ≡ problem.now }
    requires begun { (O.seen oracle.old).lines ≡ [] }
    requires whole { (O.seen oracle.old).broken ≡ false }
    ensures prepared { OnOk result (IsPrepared (O.seen oracle.new)) }
    ensures hardened { OnOk result ((O.seen oracle.new).lines ≡ hardened problem.now) }
    ensures stop { IfErr result (IsStop (O.seen oracle.old) (O.seen oracle.new)) }
    ensures keeps { KeepsRecorder (O.seen oracle.old) (O.seen oracle.new) }
{
    match harden(alloc, oracle, problem) {
        Ok(_) => Ok(()),
        Err(OracleFault::Failed) => Err(RecordFault::Failed),
        Err(OracleFault::NoMemory) => Err(RecordFault::NoMemory),
        Err(OracleFault::Full | OracleFault::Spent { .. }) => unreachable!(),
    }
}
