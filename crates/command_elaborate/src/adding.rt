// Lines that are added, beside a state.
ghost use Rattle.std.specs.Prelude.{◌≡◌, ◌≢◌, true, false, None, Some, fold, IfOk, IfErr, MatchOption, OnOk, OnErr};
ghost use Rattle.std.specs.FinMap.{remove};
ghost use Rattle.proof_laws.specs.State.{Fits};
ghost use Rattle.proof_laws.specs.WellFormed.{IsWellFormed};
ghost use Rattle.proof_laws.specs.Legal.{IsRefused};
ghost use Rattle.proof_laws.specs.declared.why.Why.TheVariants.{RupOpen};
ghost use Rattle.command_elaborate.specs.Loose.{IsLooseNext};
ghost use Rattle.command_elaborate.specs.Adding.{gone_with, open_goal, with_hints};
ghost use Rattle.command_elaborate.specs.Kept.{IsFlat, IsKept};
ghost use Rattle.command_elaborate.specs.Reasons.{IsAdded, IsLooseReason};

use crate::fault::ElabFault;
use crate::finding::hints_in;
use crate::hint_laws::flat_trail_stays;
use cdcl_state::Search;
use clause_prop::Propagator;
use hint_rup::Hint;
use pb_lin::{Constraint, PbProblem};
use proof_laws::{Line, Why};
use proof_rules::{ProofState, StepFault};
use scut_base::{Duplicate, Items, NoMemory};
use std::alloc::Global;

// Whether only hints are missing, if that.
fn is_open(why: Why) -> bool
    ensures yes { result ≡ true → why ≡ RupOpen }
    ensures no { result ≡ false → why ≢ RupOpen }
{
    match why {
        Why::RupOpen => true,
        _ => false,
    }
}

/// Steps a line, with hints where it is to have some and has none.
pub(crate) fn add_line<P: Propagator + Drop>(
    alloc: Global,
    problem: &PbProblem,
    state: &mut ProofState,
    search: &mut Search<P>,
    next: &mut u64,
    line: &Line,
) -> Result<Line, ElabFault>
    requires fits { Fits problem.now state.old }
    requires formed { IsWellFormed line.now }
    requires kept { IsKept state.old next.old search.old }
    ensures added { IfOk result (λ new. IsAdded problem.now state.old line.now new state.new) }
    ensures loosely { OnOk result (IsLooseNext problem.now state.old line.now state.new) }
    ensures refused { IfErr result (IsLooseReason problem.now state.old line.now) }
    ensures same { OnErr result (state.new ≡ state.old) }
    ensures kept { IsKept state.new next.new search.new }
    ensures fits { Fits problem.now state.new }
{
    let mut new = line.copy(alloc)?;
    step_line(alloc, problem, state, search, next, &mut new)?;
    Ok(new)
}

// Steps a line, and gives it hints where it is to have some and has none. It is lent, so that none lies across the
// ways out. After an `Err` it isn't used again.
fn step_line<P: Propagator + Drop>(
    alloc: Global,
    problem: &PbProblem,
    state: &mut ProofState,
    search: &mut Search<P>,
    next: &mut u64,
    line: &mut Line,
) -> Result<(), ElabFault>
    requires fits { Fits problem.now state.old }
    requires formed { IsWellFormed line.old }
    requires kept { IsKept state.old next.old search.old }
    ensures added { OnOk result (IsAdded problem.now state.old line.old line.new state.new) }
    ensures loosely { OnOk result (IsLooseNext problem.now state.old line.old state.new) }
    ensures refused { IfErr result (IsLooseReason problem.now state.old line.old) }
    ensures same { OnErr result (state.new ≡ state.old) }
    ensures kept { IsKept state.new next.new search.new }
    ensures fits { Fits problem.now state.new }
{
    match state.step(problem, line) {
        Ok(()) => {
            let_go(search, line);
            Ok(())
        }
        Err(StepFault::NoMemory) => Err(ElabFault::NoMemory),
        Err(StepFault::Refused(why)) => {
            if is_open(why) {
                return add_open(alloc, problem, state, search, next, line);
            }
            Err(ElabFault::Refused(why))
        }
    }
}

// Looks for the hints of a line that is refused as open, and steps it with them.
fn add_open<P: Propagator + Drop>(
    alloc: Global,
    problem: &PbProblem,
    state: &mut ProofState,
    search: &mut Search<P>,
    next: &mut u64,
    line: &mut Line,
) -> Result<(), ElabFault>
    requires fits { Fits problem.now state.old }
    requires formed { IsWellFormed line.old }
    requires kept { IsKept state.old next.old search.old }
    requires refused { IsRefused problem.now state.old line.old RupOpen }
    ensures added { OnOk result (IsAdded problem.now state.old line.old line.new state.new) }
    ensures loosely { OnOk result (IsLooseNext problem.now state.old line.old state.new) }
    ensures refused { IfErr result (IsLooseReason problem.now state.old line.old) }
    ensures same { OnErr result (state.new ≡ state.old) }
    ensures kept { IsKept state.new next.new search.new }
    ensures fits { Fits problem.now state.new }
{
    let Some(goal) = open_goal(line) else {
        return Err(ElabFault::Refused(Why::RupOpen));
    };
    let Some(hints) = hints_in(alloc, search, state, next, goal)? else {
        return Err(ElabFault::Refused(Why::RupOpen));
    };
    give_hints(line, hints);
    state.advance(problem, line)?;
    Ok(())
}

// The goal of a line that is to be given hints.
fn open_goal(line: &Line) -> Option<&Constraint>
    ensures { MatchOption result (open_goal line.now ≡ None)
        (λ g. open_goal line.now ≡ Some g.now) }
{
    match line {
        Line::Rup { goal, hints } | Line::Learn { goal, hints } if hints.is_empty() => Some(goal),
        _ => None,
    }
}

// Gives a line these hints in place of its own.
fn give_hints(line: &mut Line, hints: Items<Hint>)
    ensures { line.new ≡ with_hints line.old hints }
{
    match line {
        Line::Rup { hints: old, .. } => *old = hints,
        Line::Learn { hints: old, .. } => *old = hints,
        _ => {}
    }
}

// Lets go of the lines that this one removes.
fn let_go<P: Propagator + Drop>(search: &mut Search<P>, line: &Line)
    requires flat { IsFlat search.old.trail }
    ensures store { search.new.store ≡ fold remove search.old.store (gone_with line.now) }
    ensures vars { search.new.trail.vars ≡ search.old.trail.vars }
    ensures flat { IsFlat search.new.trail }
{
    match line {
        Line::Del { ids } => drop_all(search, ids.as_slice()),
        Line::Reduce { ids } => drop_all(search, ids.as_slice()),
        _ => {}
    }
}

// Lets go of the lines of these ids, and of what they forced.
fn drop_all<P: Propagator + Drop>(search: &mut Search<P>, ids: &[u64])
    requires flat { IsFlat search.old.trail }
    ensures store { search.new.store ≡ fold remove search.old.store ids.now }
    ensures vars { search.new.trail.vars ≡ search.old.trail.vars }
    ensures flat { IsFlat search.new.trail }
{
    flat_trail_stays();
    for id in ids {
        search.forget(*id);
    }
}
