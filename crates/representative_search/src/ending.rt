// The end of a proof that logs nothing.
ghost use Rattle.std.specs.Prelude.{◌≡◌, Some, []};
ghost use Rattle.std.specs.FinMap.{get};
ghost use Rattle.proof_laws.specs.WellFormed.{IsWellFormed};
ghost use Rattle.oracle.specs.Solving.{Reaches};
ghost use Rattle.representative_search.specs.Seeking.{EndsBy, HasEnded, IsOpen, Leaves};

use proof_laws::Line;
use proof_rules::{RecordFault, Recorder};

// Ends the proof by a live line `0 >= 1`.
pub(crate) fn end_proof<R: Recorder>(rec: &mut R, id: u64) -> Result<(), RecordFault>
    requires open { IsOpen (R.seen rec.old) }
    requires line { Reaches (R.seen rec.old).problem (R.seen rec.old).lines
        (λ s. get s.live id ≡ Some (record { terms = []; degree = 1 })) }
    ensures { Leaves (λ lines _. HasEnded (R.seen rec.old).problem lines)
        (R.seen rec.old) (R.seen rec.new) result }
{
    // Tells that ids are below the next one.
    let _vars = rec.state().vars();
    end_by(rec, &Line::End { id })
}

// Ends the proof by this line, which its caller owns.
fn end_by<R: Recorder>(rec: &mut R, line: &Line) -> Result<(), RecordFault>
    requires open { IsOpen (R.seen rec.old) }
    requires formed { IsWellFormed line.now }
    requires line { EndsBy (R.seen rec.old) line.now }
    ensures { Leaves (λ lines _. HasEnded (R.seen rec.old).problem lines)
        (R.seen rec.old) (R.seen rec.new) result }
{
    // Tells that the lines reach a state.
    let _before = rec.state();
    rec.add_line(line)?;
    // And that they still do.
    let _after = rec.state();
    Ok(())
}
