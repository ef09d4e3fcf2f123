// Laws of lines without hints, and of trails without decisions.
ghost use Rattle.std.specs.Prelude.{ℕ};
ghost use Rattle.pb_lin.specs.LineMap.{LineMap};
ghost use Rattle.clause_prop.specs.Steps.{TrailValue, cut};
ghost use Rattle.clause_prop.specs.Propagating.{Extends};
ghost use Rattle.cdcl_trail.specs.SearchTrail.{IsSearchTrail, IsUndecided};
ghost use Rattle.command_elaborate.specs.Kept.{IsFlat};
ghost use Rattle.command_elaborate.specs.Laws.{ElaboratedReplayLoosely, ElaborationsGoOn, ElaborationsReplay, HintsConflictByPropagation, LooselyJudgedOnce};

/// Law: lines that conflict, each propagated once in an order, conflict by propagation in any order, for propagation
/// stays inside every closed partial assignment.
pub fn hints_conflict_by_propagation()
    ensures { HintsConflictByPropagation }
{}

/// Law: a line is loosely refused for one reason at most, or has one next state at most, and never both.
pub fn line_is_judged_loosely_once()
    ensures { LooselyJudgedOnce }
{}

/// Law: where the lines with hints are legal, each where it stands, those without lead loosely to the same state.
pub fn elaborated_lines_replay_loosely()
    ensures { ElaboratedReplayLoosely }
{}

/// Law: elaborating the lines of a proof refuses none of them exactly where they lead loosely to a state. Then what
/// was answered is the same lines but for hints, and a proof that reaches this state.
pub fn elaborations_replay()
    ensures { ElaborationsReplay }
{}

/// Law: what was elaborated goes on with the next line, by what `Elaborator::add` answers for it.
pub fn elaboration_goes_on()
    ensures { ElaborationsGoOn }
{}

/// Law: what lines force where all steps are of level 0 is of level 0.
pub(crate) fn flat_trail_stays()
    ensures longer { (store : LineMap) (old new : TrailValue) → IsFlat old → Extends store old new
        → IsFlat new }
    ensures shorter { (t : TrailValue) (keep : ℕ) → IsFlat t → IsFlat (cut t keep) }
{}

/// Law: a decision is above level 0.
pub(crate) fn flat_trail_is_undecided()
    ensures { (store : LineMap) (t : TrailValue) → IsSearchTrail store t → IsFlat t
        → IsUndecided t }
{}
