// Constraints that tokens make of the live lines.
ghost use Rattle.std.specs.Prelude.{IfOk, MatchOption};
ghost use Rattle.sum_outputs.specs.Laws.{AreTokensOf};
ghost use Rattle.linear_lines.specs.Stating.{MakesClause, MakesNoClause, MakesNone};

use crate::spelling::are_spelled;
use cutting_planes::{PolFault, PolToken, evaluate, one_value};
use pb_lin::Constraint;
use proof_rules::ProofState;
use scut_base::NoMemory;
use std::alloc::Global;

// The clause that the tokens make of the live lines, if they make one. Costs their evaluation.
pub(crate) fn clause_of(
    alloc: Global,
    state: &ProofState,
    tokens: &[PolToken],
) -> Result<Option<Constraint>, NoMemory>
    ensures { IfOk result (λ made. MatchOption made
        (MakesNoClause state.now tokens.now) (MakesClause state.now tokens.now)) }
{
    one_value();
    match made_of(alloc, state, tokens)? {
        Some(made) if made.is_clause() => Ok(Some(made)),
        _ => Ok(None),
    }
}

// The constraint that the tokens make of the live lines, if they make one. Costs their evaluation.
pub(crate) fn made_of(
    alloc: Global,
    state: &ProofState,
    tokens: &[PolToken],
) -> Result<Option<Constraint>, NoMemory>
    ensures { IfOk result (λ made. MatchOption made
        (MakesNone state.now tokens.now) (AreTokensOf state.now tokens.now)) }
{
    one_value();
    if tokens.is_empty() || !are_spelled(tokens, state.vars()) {
        return Ok(None);
    }
    match evaluate(alloc, tokens, state.live(), None, None) {
        Ok(made) => Ok(Some(made)),
        Err(PolFault::NoMemory) => Err(NoMemory),
        Err(_) => Ok(None),
    }
}
