// A search for one model of a problem, whose proof goes to a file.
ghost use Rattle.std.specs.Prelude.{◌≡◌, None, false, []};
ghost use Rattle.oracle.specs.Solving.{IsAnswer};
ghost use Rattle.representative_search.specs.Seeking.{HasSearched, IsFound, IsSought, Leaves, LeavesLog};

use crate::ending::end_proof;
use crate::relaxing::{Relaxed, relax};
use cdcl_core::{NoRoom, Solver};
use oracle::{Answer, Oracle, OracleFault};
use pb_lin::PbProblem;
use proof_rules::{RecordFault, Recorder};
use proof_text::FileRecorder;
use scut_base::{Assignment, Shelf};
use std::alloc::Global;
use watch_prop::WatchProp;

// A model of the problem, or none, and then the log is an ended proof of that, which logs nothing: by its linear relaxation, and where
// that doesn't tell, by a solver. The log is begun anew.
pub(crate) fn seek_model<H: Shelf>(
    alloc: Global,
    shelf: &mut H,
    name: &str,
    problem: &PbProblem,
) -> Result<Option<Assignment>, RecordFault>
    ensures { LeavesLog (IsSought (H.world shelf.old).files (H.world shelf.new).files name.now
        problem.now) problem.now name.now (H.world shelf.old) (H.world shelf.new) result }
{
    match relax(alloc, shelf, name, problem)? {
        Relaxed::Known(found) => Ok(found),
        Relaxed::Unknown => search(alloc, shelf, name, problem),
    }
}

// The same by a solver alone.
fn search<'a, H: Shelf>(
    alloc: Global,
    shelf: &'a mut H,
    name: &'a str,
    problem: &'a PbProblem,
) -> Result<Option<Assignment>, RecordFault>
    ensures { LeavesLog (IsSought (H.world shelf.old).files (H.world shelf.new).files name.now
        problem.now) problem.now name.now (H.world shelf.old) (H.world shelf.new) result }
{
    let recorder = match FileRecorder::new(alloc, shelf, name, problem) {
        Ok(recorder) => recorder,
        Err(refused) => return Err(refused.fault),
    };
    let (sought, recorder) = seek_over(alloc, problem, recorder);
    let _shelf = recorder.finish();
    sought
}

// Searches over a recorder without lines, and hands it back with a proof, or with a part of one.
fn seek_over<R: Recorder + Drop>(
    alloc: Global,
    problem: &PbProblem,
    recorder: R,
) -> (Result<Option<Assignment>, RecordFault>, R)
    requires problem { (R.seen recorder).problem ≡ problem.now }
    requires begun { (R.seen recorder).lines ≡ [] }
    requires whole { (R.seen recorder).broken ≡ false }
    ensures { Leaves (IsFound problem.now) (R.seen recorder) (R.seen result.1) result.0 }
{
    let mut solver = match Solver::new(alloc, recorder, WatchProp::new(alloc), problem, None) {
        Ok(solver) => solver,
        Err(refused) => {
            let NoRoom { recorder } = refused;
            return (Err(RecordFault::NoMemory), recorder);
        }
    };
    let sought = seek_by(&mut solver);
    (sought, solver.into_recorder())
}

// Asks an oracle without lines for a model, and ends the proof where there is none.
fn seek_by<O: Oracle>(oracle: &mut O) -> Result<Option<Assignment>, RecordFault>
    requires begun { (O.seen oracle.old).lines ≡ [] }
    requires whole { (O.seen oracle.old).broken ≡ false }
    requires unlimited { (O.seen oracle.old).limit ≡ None }
    ensures { Leaves (IsFound (O.seen oracle.old).problem)
        (O.seen oracle.old) (O.seen oracle.new) result }
{
    // Tells that no lines reach a state.
    let _state = oracle.state();
    match oracle.solve(&[]) {
        Ok(answer) => take_answer(oracle, answer),
        Err(OracleFault::Spent { learned: _ }) => unreachable!(),
        Err(OracleFault::Failed) => Err(RecordFault::Failed),
        Err(OracleFault::Full) => Err(RecordFault::Full),
        Err(OracleFault::NoMemory) => Err(RecordFault::NoMemory),
    }
}

// Hands out a model, or ends the proof by the line of a core.
fn take_answer<O: Oracle>(oracle: &mut O, answer: Answer) -> Result<Option<Assignment>, RecordFault>
    requires searched { HasSearched (O.seen oracle.old) }
    requires answer { IsAnswer (O.seen oracle.old).problem (O.seen oracle.old).lines [] answer }
    ensures { Leaves (IsFound (O.seen oracle.old).problem)
        (O.seen oracle.old) (O.seen oracle.new) result }
{
    match answer {
        Answer::Sat(model) => {
            // Tells that the lines reach a state.
            let _state = oracle.state();
            Ok(Some(model))
        }
        Answer::Unsat(core) => {
            end_proof(oracle, core.id)?;
            Ok(None)
        }
    }
}
