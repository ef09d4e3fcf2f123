// Derivations by propagation and by cutting planes over the live constraints.
ghost use Rattle.std.specs.Prelude.{◌≡◌, ◌≤◌, length, IfOk, IfSome, option_copied};
ghost use Rattle.pb_lin.specs.Constraint.{IsNormal, UpTo, negation, size};
ghost use Rattle.hint_rup.specs.Negation.{IsNegation, negation_in};
ghost use Rattle.proof_laws.specs.Refusal.{IsHintsFault, IsRupFault, IsTokensFault, size_fault};
ghost use Rattle.proof_rules.specs.Verdict.{IsVerdict, IsEvaluated};

use crate::StepFault;
use crate::reached::Reached;
use cutting_planes::{PolFault, PolToken, evaluate};
use hint_rup::{Hint, Negated, RupFault, replay};
use pb_lin::{Constraint, LinFault};
use proof_laws::Why;
use scut_base::Partial;
use std::alloc::Global;

// The constraint follows by propagation along the hints. Costs these and its own terms; the negation of a clause takes no
// memory.
pub(crate) fn judge_rup(
    alloc: Global,
    reached: &Reached,
    scratch: &mut Partial,
    goal: &Constraint,
    hints: &[Hint],
) -> Result<(), StepFault>
    requires variables { reached.now.vars ≤ length scratch.old }
    requires goal { UpTo reached.now.vars goal.now }
    ensures verdict { IsVerdict (IsRupFault reached.now goal.now hints.now) result }
    ensures length { length scratch.new ≡ length scratch.old }
{
    if goal.is_clause() {
        let negated = Negated::OfClause(goal);
        // Tells that it isn't too large.
        read_negated(negated);
        return judge_hints(reached, scratch, negated, None, hints, Why::RupOpen);
    }
    let negated = negation_of(alloc, goal)?;
    let negated = Negated::Made(&negated);
    judge_hints(reached, scratch, negated, None, hints, Why::RupOpen)
}

// The hints lead to a conflict, or else are refused for the reason that is given. The scratch may have
// room for more variables than the state's, which changes nothing.
pub(crate) fn judge_hints(
    reached: &Reached,
    scratch: &mut Partial,
    negated: Negated<'_>,
    denied: Option<&Constraint>,
    hints: &[Hint],
    otherwise: Why,
) -> Result<(), StepFault>
    requires variables { reached.now.vars ≤ length scratch.old }
    requires negation { IsNegation negated }
    requires negated { UpTo reached.now.vars (negation_in negated) }
    requires denied { IfSome (option_copied denied) (UpTo reached.now.vars) }
    ensures verdict { IsVerdict
        (IsHintsFault reached.now (negation_in negated.entry) (option_copied denied.entry)
        hints.now otherwise)
        result }
    ensures length { length scratch.new ≡ length scratch.old }
{
    read_negated(negated);
    read_denied(denied);
    match replay(scratch, negated, denied, hints, &reached.live) {
        Ok(()) => Ok(()),
        Err(RupFault::NoSuchId(id)) => Err(StepFault::Refused(Why::NoSuchId(id))),
        Err(RupFault::Open) => Err(StepFault::Refused(otherwise)),
    }
}

// The negation is in normal form.
fn read_negated(negated: Negated<'_>)
    requires { IsNegation negated }
    ensures { IsNormal (negation_in negated.entry).terms (negation_in negated.entry).degree }
{
    match negated {
        Negated::Made(line) => {
            let _normal = line.len();
        }
        Negated::OfClause(clause) => {
            // Tells also that they are few.
            let _normal = clause.literals();
        }
    }
}

// What is denied is in normal form, as each constraint is that is read.
fn read_denied(denied: Option<&Constraint>)
    ensures { IfSome (option_copied denied.entry) (λ c. IsNormal c.terms c.degree) }
{
    if let Some(denied) = denied {
        let _normal = denied.len();
    }
}

// The tokens make a contradiction, or else are refused: for the reason that is given where they
// make another constraint. Costs their evaluation.
pub(crate) fn judge_tokens(
    alloc: Global,
    reached: &Reached,
    negated: &Constraint,
    denied: &Constraint,
    tokens: &[PolToken],
    otherwise: Why,
) -> Result<(), StepFault>
    ensures { IsVerdict
        (IsTokensFault reached.now negated.now denied.now tokens.now otherwise) result }
{
    let made = evaluated(alloc, reached, Some(negated), Some(denied), tokens)?;
    if made.total() < made.degree() {
        Ok(())
    } else {
        Err(StepFault::Refused(otherwise))
    }
}

// The constraint that the tokens make.
pub(crate) fn evaluated(
    alloc: Global,
    reached: &Reached,
    negated: Option<&Constraint>,
    denied: Option<&Constraint>,
    tokens: &[PolToken],
) -> Result<Constraint, StepFault>
    ensures { IsEvaluated (record {
      lines = reached.now.live;
      negated = option_copied negated.entry;
      denied = option_copied denied.entry;
    }) tokens.now result }
{
    match evaluate(alloc, tokens, &reached.live, negated, denied) {
        Ok(made) => Ok(made),
        Err(PolFault::NoSuchId(id)) => Err(StepFault::Refused(Why::NoSuchId(id))),
        Err(PolFault::Stack) => Err(StepFault::Refused(Why::Stack)),
        Err(PolFault::BadFactor) => Err(StepFault::Refused(Why::BadFactor)),
        Err(PolFault::Overflow) => Err(StepFault::Refused(Why::Overflow)),
        Err(PolFault::NoMemory) => Err(StepFault::NoMemory),
    }
}

// The negation, where it isn't too large.
pub(crate) fn negation_of(alloc: Global, c: &Constraint) -> Result<Constraint, StepFault>
    ensures value { IfOk result (λ n. n ≡ negation c.now) }
    ensures verdict { IsVerdict (λ f. f ≡ size_fault (size (negation c.now))) result }
{
    match c.negated(alloc) {
        Ok(negated) => Ok(negated),
        Err(LinFault::Overflow) => Err(StepFault::Refused(Why::Overflow)),
        Err(LinFault::NoMemory) => Err(StepFault::NoMemory),
    }
}
