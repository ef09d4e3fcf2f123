// Lines that state clauses, added to a recorder.
ghost use Rattle.std.specs.Prelude.{◌≡◌, IfOk, MatchOption};
ghost use Rattle.proof_laws.specs.State.{StateValue};
ghost use Rattle.sum_outputs.specs.Adding.{IsReached, IsReady, IsRecorded};
ghost use Rattle.sum_outputs.specs.Laws.{AreTokensOf};
ghost use Rattle.linear_lines.specs.Stating.{AddsClauseLine, AddsLine, MakesClause, MakesNoClauseNow, MakesNoneNow};

use crate::making::{clause_of, made_of};
use cutting_planes::PolToken;
use pb_lin::Constraint;
use proof_laws::Line;
use proof_rules::{RecordFault, Recorder};
use scut_base::Items;
use std::alloc::Global;
use sum_outputs::{in_memory, pol_may_be_added, record};

/// Adds the line by cutting planes of these tokens where they make a constraint of the live lines, and answers its id;
/// `None` exactly where they make none, and then no line was added. Costs their evaluation.
pub fn add_line<R: Recorder>(
    alloc: Global,
    rec: &mut R,
    tokens: Items<PolToken>,
) -> Result<Option<u64>, RecordFault>
    requires ready { IsReady (R.seen rec.old) }
    ensures recorded { IsRecorded (R.seen rec.old) (R.seen rec.new) result }
    ensures line { IfOk result (λ line. MatchOption line
        ((R.seen rec.new ≡ R.seen rec.old) × MakesNoneNow (R.seen rec.old) tokens)
        (AddsLine (R.seen rec.old) (R.seen rec.new) tokens)) }
{
    // Tells that the lines so far reach a state.
    let _vars = rec.state().vars();
    match in_memory(made_of(alloc, rec.state(), tokens.as_slice()))? {
        None => Ok(None),
        Some(made) => {
            let id = state_made(rec, tokens, &made)?;
            Ok(Some(id))
        }
    }
}

// Adds the line of tokens that make this constraint.
fn state_made<R: Recorder>(
    rec: &mut R,
    tokens: Items<PolToken>,
    made: &Constraint,
) -> Result<u64, RecordFault>
    requires ready { IsReady (R.seen rec.old) }
    requires makes { (s : StateValue) → IsReached (R.seen rec.old) s
        → AreTokensOf s tokens made.now }
    ensures recorded { IsRecorded (R.seen rec.old) (R.seen rec.new) result }
    ensures line { IfOk result (AddsLine (R.seen rec.old) (R.seen rec.new) tokens) }
{
    pol_may_be_added();
    // Tells that the lines so far reach a state.
    let _vars = rec.state().vars();
    let id = record(rec, Line::Pol { tokens })?;
    // And that they still do.
    let _state = rec.state();
    Ok(id)
}

/// A clause that a line states, with its id.
#[derive(Debug, Drop)]
pub struct ClauseLine {
    pub id: u64,
    pub clause: Constraint,
}

/// Adds the line by cutting planes of these tokens where they make a clause of the live lines; `None` exactly
/// where they make none, and then no line was added. Costs their evaluation.
pub fn add_clause_line<R: Recorder>(
    alloc: Global,
    rec: &mut R,
    tokens: Items<PolToken>,
) -> Result<Option<ClauseLine>, RecordFault>
    requires ready { IsReady (R.seen rec.old) }
    ensures recorded { IsRecorded (R.seen rec.old) (R.seen rec.new) result }
    ensures line { IfOk result (λ line. MatchOption line
        ((R.seen rec.new ≡ R.seen rec.old) × MakesNoClauseNow (R.seen rec.old) tokens)
        (λ l. AddsClauseLine (R.seen rec.old) (R.seen rec.new) tokens l.id l.clause)) }
{
    // Tells that the lines so far reach a state.
    let _vars = rec.state().vars();
    match in_memory(clause_of(alloc, rec.state(), tokens.as_slice()))? {
        None => Ok(None),
        Some(clause) => {
            let line = state_clause(rec, tokens, clause)?;
            Ok(Some(line))
        }
    }
}

// Adds the line of tokens that make this clause.
fn state_clause<R: Recorder>(
    rec: &mut R,
    tokens: Items<PolToken>,
    clause: Constraint,
) -> Result<ClauseLine, RecordFault>
    requires ready { IsReady (R.seen rec.old) }
    requires makes { (s : StateValue) → IsReached (R.seen rec.old) s
        → MakesClause s tokens clause }
    ensures recorded { IsRecorded (R.seen rec.old) (R.seen rec.new) result }
    ensures line { IfOk result (λ l.
        AddsClauseLine (R.seen rec.old) (R.seen rec.new) tokens l.id l.clause) }
{
    pol_may_be_added();
    // Tells that the lines so far reach a state.
    let _vars = rec.state().vars();
    let id = record(rec, Line::Pol { tokens })?;
    // And that they still do.
    let _state = rec.state();
    Ok(ClauseLine { id, clause })
}
