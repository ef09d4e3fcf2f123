// What tokens do to a stack.
ghost use Rattle.std.specs.Prelude.{ℕ, ◌<◌, ◌≤◌, ◌↔◌, IsTrue, length, option_copied, slice_index_or};
ghost use Rattle.pb_lin.specs.Given.{Given, given_of};
ghost use Rattle.cutting_planes.specs.Applied.{IsApplied, IsPushedIfNamed};
ghost use Rattle.cutting_planes.specs.Runs.{IsBegun, IsRunApplied, IsWeakening};

use crate::additions::add_run;
use crate::operand::Operand;
use crate::scale::{divided, saturated};
use crate::stack::ConstraintStack;
use crate::weaken::weakened_all;
use crate::wide::WideConstraint;
use crate::{PolFault, PolToken};
use pb_lin::{Constraint, Lines};
use scut_base::Lit;
use std::alloc::Global;

// Applies the first token, or as many as weaken or add at the head, and gives their number.
pub(crate) fn apply_first<'a>(
    alloc: Global,
    stack: &mut ConstraintStack<'a>,
    tokens: &[PolToken],
    lines: &'a Lines,
    negated: Option<&'a Constraint>,
    denied: Option<&'a Constraint>,
) -> Result<usize, PolFault>
    requires { 0 < length tokens.now }
    ensures { IsBegun (given_of lines.now negated.entry denied.entry)
        tokens.now stack.old stack.new result }
{
    let run = weakening_run(tokens);
    if run > 0 {
        weaken(alloc, stack, &tokens[..run])?;
        return Ok(run);
    }
    let added = add_run(alloc, stack, tokens, lines, negated, denied)?;
    if added > 0 {
        return Ok(added);
    }
    apply(alloc, stack, tokens[0], lines, negated, denied)?;
    Ok(1)
}

// How many tokens at the head weaken.
fn weakening_run(tokens: &[PolToken]) -> usize
    ensures bound { result ≤ length tokens.now }
    ensures weakening { (k : ℕ) (d : PolToken) → k < result
        → IsWeakening (slice_index_or tokens.now k d) }
{
    let mut run = 0;
    while run < tokens.len() && is_weakening(tokens[run]) {
        run += 1;
    }
    run
}

fn is_weakening(token: PolToken) -> bool
    ensures { IsTrue result ↔ IsWeakening token }
{
    matches!(token, PolToken::Weaken(_))
}

// What a token makes of the stack.
fn apply<'a>(
    alloc: Global,
    stack: &mut ConstraintStack<'a>,
    token: PolToken,
    lines: &'a Lines,
    negated: Option<&'a Constraint>,
    denied: Option<&'a Constraint>,
) -> Result<(), PolFault>
    ensures { IsApplied (given_of lines.now negated.entry denied.entry)
        token stack.old stack.new result }
{
    match token {
        PolToken::Id(id) => push_named(stack, lines.get(id), id),
        PolToken::Axiom(lit) => push_axiom(alloc, stack, lit),
        PolToken::Negated => push_named(stack, negated, 0),
        PolToken::Denied => push_named(stack, denied, 0),
        PolToken::Add => add(alloc, stack),
        PolToken::Mul(factor) => multiply(alloc, stack, factor),
        PolToken::Div(divisor) => divide(alloc, stack, divisor),
        PolToken::Saturate => saturate(alloc, stack),
        PolToken::Weaken(_) => weaken(alloc, stack, &[token]),
    }
}

// Pushes a constraint by reference, where it is there.
fn push_named<'a>(
    stack: &mut ConstraintStack<'a>,
    c: Option<&'a Constraint>,
    id: u64,
) -> Result<(), PolFault>
    ensures { IsPushedIfNamed (option_copied c.entry) id stack.old stack.new result }
{
    match c {
        Some(c) => {
            stack.push(Operand::lent(c))?;
            Ok(())
        }
        None => Err(PolFault::NoSuchId(id)),
    }
}

fn push_axiom(alloc: Global, stack: &mut ConstraintStack, lit: Lit) -> Result<(), PolFault>
    ensures { (given : Given) → IsApplied given (PolToken.Axiom lit) stack.old stack.new result }
{
    stack.push(Operand::made(WideConstraint::literal_axiom(alloc, lit)?))?;
    Ok(())
}

fn add(alloc: Global, stack: &mut ConstraintStack) -> Result<(), PolFault>
    ensures { (given : Given) → IsApplied given PolToken.Add stack.old stack.new result }
{
    let q = stack.pop().ok_or(PolFault::Stack)?;
    let p = stack.pop().ok_or(PolFault::Stack)?;
    stack.push(p.plus(alloc, q)?)?;
    Ok(())
}

fn multiply(alloc: Global, stack: &mut ConstraintStack, factor: i128) -> Result<(), PolFault>
    ensures { (given : Given) → IsApplied given (PolToken.Mul factor) stack.old stack.new result }
{
    let c = stack.pop().ok_or(PolFault::Stack)?;
    stack.push(c.times(alloc, factor)?)?;
    Ok(())
}

fn divide(alloc: Global, stack: &mut ConstraintStack, divisor: i128) -> Result<(), PolFault>
    ensures { (given : Given) → IsApplied given (PolToken.Div divisor) stack.old stack.new result }
{
    let c = stack.pop().ok_or(PolFault::Stack)?;
    stack.push(Operand::made(divided(c.into_wide(alloc)?, divisor)?))?;
    Ok(())
}

fn saturate(alloc: Global, stack: &mut ConstraintStack) -> Result<(), PolFault>
    ensures { (given : Given) → IsApplied given PolToken.Saturate stack.old stack.new result }
{
    let c = stack.pop().ok_or(PolFault::Stack)?;
    stack.push(Operand::made(saturated(c.into_wide(alloc)?)))?;
    Ok(())
}

// Weakens the topmost by each of these tokens.
fn weaken(alloc: Global, stack: &mut ConstraintStack, run: &[PolToken]) -> Result<(), PolFault>
    ensures { IsRunApplied run.now stack.old stack.new result }
{
    let c = stack.pop().ok_or(PolFault::Stack)?;
    stack.push(Operand::made(weakened_all(c.into_wide(alloc)?, run)))?;
    Ok(())
}
