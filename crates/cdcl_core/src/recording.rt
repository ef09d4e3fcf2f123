// Lines that a search records.
ghost use Rattle.std.specs.Prelude.{◌≡◌, ◌++◌, ◌∷◌, [], List, false, IfOk, IfErr, OnOk, OnErr};
ghost use Rattle.pb_lin.specs.Constraint.{ConstraintValue};
ghost use Rattle.hint_rup.specs.declared.hint.Hint.{Hint};
ghost use Rattle.proof_laws.specs.WellFormed.{IsWellFormed};
ghost use Rattle.proof_laws.specs.declared.line.Line.TheVariants.{Learn};
ghost use Rattle.proof_rules.specs.Recording.{KeepsRecorder, MayBeAdded, IsNextId};
ghost use Rattle.cdcl_core.specs.Work.{IsRecordCause};

use oracle::OracleFault;
use pb_lin::Constraint;
use proof_laws::Line;
use proof_rules::Recorder;

/// Records a line, and answers the first id that it makes.
pub(crate) fn record<R: Recorder>(recorder: &mut R, line: &Line) -> Result<u64, OracleFault>
    requires formed { IsWellFormed line.now }
    requires legal { MayBeAdded (R.seen recorder.old).problem (R.seen recorder.old).lines line.now }
    requires whole { (R.seen recorder.old).broken ≡ false }
    ensures added { OnOk result
        ((R.seen recorder.new).lines ≡ (R.seen recorder.old).lines ++ line.now ∷ []) }
    ensures id { IfOk result (IsNextId (R.seen recorder.old).problem (R.seen recorder.old).lines) }
    ensures whole { OnOk result ((R.seen recorder.new).broken ≡ false) }
    ensures same { OnErr result ((R.seen recorder.new).lines ≡ (R.seen recorder.old).lines) }
    ensures cause { IfErr result (IsRecordCause (R.seen recorder.old) (R.seen recorder.new)) }
    ensures keeps { KeepsRecorder (R.seen recorder.old) (R.seen recorder.new) }
{
    match recorder.add_line(line) {
        Ok(id) => Ok(id),
        Err(fault) => Err(OracleFault::from(fault)),
    }
}

/// The same of a line that is made for the call, so that a caller which leaves by `?` owns none.
pub(crate) fn record_made<R: Recorder>(recorder: &mut R, line: Line) -> Result<u64, OracleFault>
    requires formed { IsWellFormed line }
    requires legal { MayBeAdded (R.seen recorder.old).problem (R.seen recorder.old).lines line }
    requires whole { (R.seen recorder.old).broken ≡ false }
    ensures added { OnOk result ((R.seen recorder.new).lines ≡ (R.seen recorder.old).lines ++ line ∷ []) }
    ensures id { IfOk result (IsNextId (R.seen recorder.old).problem (R.seen recorder.old).lines) }
    ensures whole { OnOk result ((R.seen recorder.new).broken ≡ false) }
    ensures same { OnErr result ((R.seen recorder.new).lines ≡ (R.seen recorder.old).lines) }
    ensures cause { IfErr result (IsRecordCause (R.seen recorder.old) (R.seen recorder.new)) }
    ensures keeps { KeepsRecorder (R.seen recorder.old) (R.seen recorder.new) }
{
    record(recorder, &line)
}

/// The clause of a learned line.
pub(crate) fn learned_goal(line: &Line) -> &Constraint
    requires { (goal : ConstraintValue) × (hints : List Hint) × (line.now ≡ Learn goal hints) }
    ensures { (goal : ConstraintValue) (hints : List Hint)
        → line.now ≡ Learn goal hints → result.now ≡ goal }
{
    match line {
        Line::Learn { goal, hints: _ } => goal,
        _ => unreachable!(),
    }
}
