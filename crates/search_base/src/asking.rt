// What stands for the costs of a model, objective by objective.
ghost use Rattle.std.specs.Prelude.{◌≡◌, length, IfOk, OnOk};
ghost use Rattle.sum_outputs.specs.Adding.{IsReady, IsRecorded};
ghost use Rattle.search_base.specs.CostBounds.{FitBounds, reforms_of};
ghost use Rattle.search_base.specs.Cutting.{AreAnswers, AreAsked};

use crate::Bounds;
use front_set::CostVec;
use proof_rules::{RecordFault, Recorder};
use scut_base::Items;
use std::alloc::Global;
use sum_outputs::in_memory;
use totalizer::{Bound, own_lines_stay};

// For each objective what stands for "it costs at least this number". Costs what `Bounds::at_least` does.
pub(crate) fn answers_at<R: Recorder>(
    alloc: Global,
    rec: &mut R,
    bounds: &mut Bounds,
    costs: &CostVec,
) -> Result<Items<Bound>, RecordFault>
    requires ready { IsReady (R.seen rec.old) }
    requires fits { FitBounds (R.seen rec.old) bounds.old }
    requires count { length costs.now ≡ length (R.seen rec.old).problem.costs }
    ensures recorded { IsRecorded (R.seen rec.old) (R.seen rec.new) result }
    ensures fits { OnOk result (FitBounds (R.seen rec.new) bounds.new) }
    ensures answers { IfOk result
        (AreAnswers (R.seen rec.new).problem (R.seen rec.new).lines costs.now) }
    ensures reforms { reforms_of bounds.new ≡ reforms_of bounds.old }
    ensures asked { IfOk result (AreAsked (reforms_of bounds.old) costs.now) }
{
    own_lines_stay();
    let mut answers = Items::new(alloc);
    for (objective, value) in costs.as_slice().iter().enumerate() {
        let answer = bounds.at_least(rec, objective, *value)?;
        in_memory(answers.push(answer))?;
    }
    Ok(answers)
}
