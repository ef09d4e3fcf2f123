// What the linear relaxation of a problem tells of its models; the proof goes to a file (DECISIONS, models-first).
ghost use Rattle.std.specs.Prelude.{◌≡◌, false, [], IfOk};
ghost use Rattle.sum_outputs.specs.Adding.{IsReady, IsRecorded};
ghost use Rattle.linear_search.specs.Replies.{IsReply};
ghost use Rattle.representative_search.specs.Seeking.{IsRelaxed, IsSought, Leaves, LeavesLog, WhereKnown};

use crate::ending::end_proof;
use branch_and_bound::Target;
use linear_search::{LinearSearch, Reply, model_of};
use pb_lin::PbProblem;
use proof_rules::{RecordFault, Recorder};
use proof_text::FileRecorder;
use scut_base::{Assignment, Shelf};
use std::alloc::Global;

// What may be lost on a question that stays open is a quarter of this, in numbers touched: some tenths of a second.
const PURSE: u64 = 800_000_000;

// What a relaxation tells.
#[derive(Debug, Drop)]
pub(crate) enum Relaxed {
    // A model, or that there is none.
    Known(Option<Assignment>),
    // Nothing.
    Unknown,
}

// A model of the problem by its linear relaxation, or none, and then the log is an ended proof of that, which logs nothing; or nothing
// is known. The log is begun anew.
pub(crate) fn relax<'a, H: Shelf>(
    alloc: Global,
    shelf: &'a mut H,
    name: &'a str,
    problem: &'a PbProblem,
) -> Result<Relaxed, RecordFault>
    ensures { LeavesLog (λ told. WhereKnown told (IsSought (H.world shelf.old).files
        (H.world shelf.new).files name.now problem.now)) problem.now name.now
        (H.world shelf.old) (H.world shelf.new) result }
{
    let mut recorder = match FileRecorder::new(alloc, shelf, name, problem) {
        Ok(recorder) => recorder,
        Err(refused) => return Err(refused.fault),
    };
    let told = relax_over(alloc, problem, &mut recorder);
    let _shelf = recorder.finish();
    told
}

// Asks the relaxation over a recorder without lines, and ends the proof where it tells that there is no model.
fn relax_over<R: Recorder>(
    alloc: Global,
    problem: &PbProblem,
    rec: &mut R,
) -> Result<Relaxed, RecordFault>
    requires problem { (R.seen rec.old).problem ≡ problem.now }
    requires begun { (R.seen rec.old).lines ≡ [] }
    requires whole { (R.seen rec.old).broken ≡ false }
    ensures { Leaves (IsRelaxed problem.now) (R.seen rec.old) (R.seen rec.new) result }
{
    // Tells that no lines reach a state.
    let _state = rec.state();
    match ask(alloc, problem, rec)? {
        Reply::Closed(core) => {
            end_proof(rec, core.id)?;
            Ok(Relaxed::Known(None))
        }
        Reply::Model(lits) => match model_of(alloc, problem, lits.as_slice())? {
            Some(model) => Ok(Relaxed::Known(Some(model))),
            None => Ok(Relaxed::Unknown),
        },
        Reply::Unknown => Ok(Relaxed::Unknown),
    }
}

// What the relaxation answers where nothing is assumed.
fn ask<R: Recorder>(alloc: Global, problem: &PbProblem, rec: &mut R) -> Result<Reply, RecordFault>
    requires ready { IsReady (R.seen rec.old) }
    requires problem { (R.seen rec.old).problem ≡ problem.now }
    ensures recorded { IsRecorded (R.seen rec.old) (R.seen rec.new) result }
    ensures reply { IfOk result (IsReply (R.seen rec.new) []) }
{
    let mut search = LinearSearch::new(alloc, problem, PURSE)?;
    search.ask(rec, problem, &[], &[], Target::Sum)
}
