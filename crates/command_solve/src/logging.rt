// A search whose proof goes to a file.
ghost use Rattle.std.specs.Prelude.{◌≡◌, [], false, IfOk, IfErr};
ghost use Rattle.scut_base.specs.Faults.{NoneFell};
ghost use Rattle.instance_normal.specs.NormalForm.{IsNormalFormOf};
ghost use Rattle.proof_text.specs.LogParts.{IsLogStopped};
ghost use Rattle.command_solve.specs.Logging.{IsLogged, IsSearched};

use cdcl_core::{NoRoom, Solver};
use certified_front::{Found, Plan, certified_front};
use instance::Instance;
use pb_lin::PbProblem;
use proof_rules::{RecordFault, Recorder};
use proof_text::{FileRecorder, LogVersion};
use scut_base::Shelf;
use search_base::Search;
use std::alloc::Global;
use watch_prop::WatchProp;

// Searches for the front of an instance, of which this is the normal form, with a log of this version in this file, after
// what the plan says. After a fault the log is as before, or a part of one.
pub(crate) fn search_with_log<'a, S: Search, H: Shelf>(
    alloc: Global,
    inst: &Instance,
    problem: &'a PbProblem,
    log: &'a str,
    version: LogVersion,
    limit: Option<u64>,
    plan: Plan,
    search: &mut S,
    shelf: &'a mut H,
) -> Result<Found, RecordFault>
    requires normal { IsNormalFormOf inst.now problem.now }
    requires serves { S.serves search.old problem.now }
    ensures found { IfOk result (IsLogged (H.world shelf.old).files (H.world shelf.new).files
        inst.now problem.now log.now version limit plan) }
    ensures stopped { IfErr result (λ fault. IsLogStopped fault (H.world shelf.old).files
        (H.world shelf.new).files problem.now log.now version
        (H.world shelf.old).faults (H.world shelf.new).faults) }
    ensures said { (H.world shelf.new).said ≡ (H.world shelf.old).said }
    ensures warned { (H.world shelf.new).warned ≡ (H.world shelf.old).warned }
    ensures later { NoneFell (H.world shelf.old).faults (H.world shelf.new).faults }
{
    let recorder = match FileRecorder::with_version(alloc, shelf, log, problem, version) {
        Ok(recorder) => recorder,
        Err(refused) => return Err(refused.fault),
    };
    let (found, recorder) = search_over(alloc, inst, problem, recorder, limit, plan, search);
    let _shelf = recorder.finish();
    found
}

// Searches over a recorder without lines, and hands it back with a proof, or with a part of one.
fn search_over<R: Recorder + Drop, S: Search>(
    alloc: Global,
    inst: &Instance,
    problem: &PbProblem,
    recorder: R,
    limit: Option<u64>,
    plan: Plan,
    search: &mut S,
) -> (Result<Found, RecordFault>, R)
    requires normal { IsNormalFormOf inst.now problem.now }
    requires problem { (R.seen recorder).problem ≡ problem.now }
    requires begun { (R.seen recorder).lines ≡ [] }
    requires whole { (R.seen recorder).broken ≡ false }
    requires serves { S.serves search.old problem.now }
    ensures { IsSearched inst.now problem.now limit plan (R.seen recorder) (R.seen result.1)
        result.0 }
{
    let mut solver = match Solver::new(alloc, recorder, WatchProp::new(alloc), problem, limit) {
        Ok(solver) => solver,
        Err(refused) => {
            let NoRoom { recorder } = refused;
            return (Err(RecordFault::NoMemory), recorder);
        }
    };
    let found = certified_front(alloc, &mut solver, problem, inst, plan, search);
    (found, solver.into_recorder())
}
