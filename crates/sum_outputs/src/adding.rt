// One line more in a recorder.
ghost use Rattle.std.specs.Prelude.{◌≡◌, ◌++◌, ◌∷◌, [], IfOk, OnOk, OnErr};
ghost use Rattle.proof_laws.specs.WellFormed.{IsWellFormed};
ghost use Rattle.proof_rules.specs.Recording.{MayBeAdded, IsNextId};
ghost use Rattle.recording.specs.Advice.{IsConservative};
ghost use Rattle.sum_outputs.specs.Adding.{IsReady, IsRecorded};

use proof_laws::Line;
use proof_rules::{RecordFault, Recorder};

/// Records a definition or a line by cutting planes, and answers the first id that it makes. The recorder's
/// refusal is handed on. It owns the line, so that its callers, which leave by `?`, own none.
///
/// `pol_may_be_added` says which lines by cutting planes may be recorded, and what is live under the id then.
pub fn record<R: Recorder>(rec: &mut R, line: Line) -> Result<u64, RecordFault>
    requires ready { IsReady (R.seen rec.old) }
    requires formed { IsWellFormed line }
    requires kind { IsConservative line }
    requires legal { MayBeAdded (R.seen rec.old).problem (R.seen rec.old).lines line }
    ensures recorded { IsRecorded (R.seen rec.old) (R.seen rec.new) result }
    ensures added { OnOk result ((R.seen rec.new).lines ≡ (R.seen rec.old).lines ++ line ∷ []) }
    ensures kept { OnErr result ((R.seen rec.new).lines ≡ (R.seen rec.old).lines) }
    ensures id { IfOk result (IsNextId (R.seen rec.old).problem (R.seen rec.old).lines) }
{
    record_lent(rec, &line)
}

// The same of a line that is lent.
fn record_lent<R: Recorder>(rec: &mut R, line: &Line) -> Result<u64, RecordFault>
    requires ready { IsReady (R.seen rec.old) }
    requires formed { IsWellFormed line.now }
    requires kind { IsConservative line.now }
    requires legal { MayBeAdded (R.seen rec.old).problem (R.seen rec.old).lines line.now }
    ensures recorded { IsRecorded (R.seen rec.old) (R.seen rec.new) result }
    ensures added { OnOk result ((R.seen rec.new).lines ≡ (R.seen rec.old).lines ++ line.now ∷ []) }
    ensures kept { OnErr result ((R.seen rec.new).lines ≡ (R.seen rec.old).lines) }
    ensures id { IfOk result (IsNextId (R.seen rec.old).problem (R.seen rec.old).lines) }
{
    // Tells that the lines so far reach a state.
    let _vars = rec.state().vars();
    let id = rec.add_line(line)?;
    // And that they still do.
    let _state = rec.state();
    Ok(id)
}
