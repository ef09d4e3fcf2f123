// The lines of a tree that closed (DECISIONS, tree-lines).
ghost use Rattle.std.specs.Prelude.{◌≡◌, IfOk, IfSome};
ghost use Rattle.recording.specs.Recorded.{IsClauseNow, IsReady};
ghost use Rattle.recording.specs.Adding.{IsAdded};
ghost use Rattle.recording.specs.Advice.{IsConservative};

use branch_and_bound::{BranchAndBound, Node, TreeLine};
use cutting_planes::PolToken;
use pb_lin::{Constraint, PbProblem, Witness};
use proof_laws::{Goal, GoalProof, Line};
use proof_rules::{Judge, RecordFault, Recorder};
use recording::{ClauseLine, in_memory, last_clause, take_conservative, taken_ends_advised};
use scut_base::{Items, NoMemory};
use std::alloc::Global;

// Writes the lines that the last node stands on, and then its own, whose clause is answered. Each is judged; `None` where one
// of them isn't legal, and then those before it are written.
pub(crate) fn write_tree<R: Recorder>(
    alloc: Global,
    rec: &mut R,
    problem: &PbProblem,
    nodes: &[Node],
    search: &mut BranchAndBound,
) -> Result<Option<ClauseLine>, RecordFault>
    requires ready { IsReady (R.seen rec.old) }
    requires problem { (R.seen rec.old).problem ≡ problem.now }
    ensures recorded { IsAdded IsConservative (R.seen rec.old) (R.seen rec.new) result }
    ensures line { IfOk result (λ line. IfSome line (λ l. IsClauseNow (R.seen rec.new) l.id l.clause)) }
{
    taken_ends_advised();
    // Tells that the problem is within its limits.
    let _vars = problem.vars();
    let first = rec.state().next_id();
    let lines = in_memory(lines_of_tree(alloc, nodes, search, first))?;
    let mut judge = in_memory(Judge::new(alloc, problem))?;
    let taken = take_conservative(&mut judge, rec, lines.as_slice())?;
    search.forget_from(first.saturating_add(taken as u64));
    if taken == 0 || taken < lines.len() {
        return Ok(None);
    }
    in_memory(last_clause(alloc, rec))
}

// The lines that the last node stands on, and its own, where the first gets this id.
fn lines_of_tree(
    alloc: Global,
    nodes: &[Node],
    search: &mut BranchAndBound,
    first: u64,
) -> Result<Items<Line>, NoMemory> {
    let mut lines = Items::new(alloc);
    for line in search.lines_of(nodes, first)? {
        let line = match line {
            TreeLine::Sum(tokens) => Line::Pol { tokens },
            TreeLine::Implied(goal, tokens) => implied_line(alloc, goal, tokens)?,
        };
        lines.push(line)?;
    }
    Ok(lines)
}

// The line that adds a constraint, since the tokens contradict its negation: it is redundant, by an empty witness.
fn implied_line(
    alloc: Global,
    goal: Constraint,
    tokens: Items<PolToken>,
) -> Result<Line, NoMemory> {
    let mut proofs = Items::with_capacity(alloc, 1)?;
    proofs.push((Goal::Itself, GoalProof::Pol(tokens)))?;
    Ok(Line::Red {
        goal,
        witness: Witness::from_images(Items::new(alloc)),
        proofs,
    })
}
