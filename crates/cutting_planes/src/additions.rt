// Additions at the head of the tokens, made together.
ghost use Rattle.std.specs.Prelude.{◌≡◌, ◌+◌, ◌*◌, ◌<◌, ◌≤◌, ◌^◌, ◌↔◌, IsTrue, IfOk, IfSome, length};
ghost use Rattle.pb_lin.specs.Constraint.{size};
ghost use Rattle.pb_lin.specs.Given.{given_of};
ghost use Rattle.cutting_planes.specs.Additions.{IsAddend, IsAddition, IsSummed, Pushes};
ghost use Rattle.cutting_planes.specs.Runs.{LeadsTo};

use crate::PolToken;
use crate::limits::{GATHERED_TERMS, LEAST_ADDITIONS, LEAST_RATIO};
use crate::operand::Operand;
use crate::running_sum::RunningSum;
use crate::scale::is_product_small;
use crate::stack::ConstraintStack;
use pb_lin::{Constraint, Lines, SIZE_LIMIT};
use scut_base::{Lit, NoMemory};
use std::alloc::Global;

// What the first tokens add to the topmost, how often, and how many tokens they are.
#[derive(Clone, Copy, Debug)]
struct Addend<'a> {
    constraint: &'a Constraint,
    factor: u128,
    tokens: usize,
}

// Makes additions at the head of the tokens together, and gives how many tokens these are: 0 where they
// are few, or a line of theirs isn't short beside the topmost, or the first can't be made.
pub(crate) fn add_run<'a>(
    alloc: Global,
    stack: &mut ConstraintStack<'a>,
    tokens: &[PolToken],
    lines: &'a Lines,
    negated: Option<&'a Constraint>,
    denied: Option<&'a Constraint>,
) -> Result<usize, NoMemory>
    ensures bound { IfOk result (λ n. n ≤ length tokens.now) }
    ensures none { IfOk result (λ n. n ≡ 0 → stack.new ≡ stack.old) }
    ensures leads { IfOk result (λ n. LeadsTo (given_of lines.now negated.entry denied.entry)
        tokens.now stack.old n stack.new) }
{
    let longest = stack.top_len() / LEAST_RATIO;
    if !are_many(tokens, longest, lines, negated, denied) {
        return Ok(0);
    }
    let Some(top) = stack.pop() else {
        return Ok(0);
    };
    match run_sum(alloc, &top, tokens, longest, lines, negated, denied)? {
        Some((sum, added)) => {
            stack.push(Operand::made(sum.into_wide()))?;
            Ok(added)
        }
        None => {
            stack.push(top)?;
            Ok(0)
        }
    }
}

// The sum that the additions at the head of the tokens make of the topmost, and how many tokens were
// applied; or none where the first can't be made.
fn run_sum(
    alloc: Global,
    top: &Operand,
    tokens: &[PolToken],
    longest: usize,
    lines: &Lines,
    negated: Option<&Constraint>,
    denied: Option<&Constraint>,
) -> Result<Option<(RunningSum, usize)>, NoMemory>
    ensures { IfOk result (λ found. IfSome found
        (λ r. IsSummed (given_of lines.now negated.entry denied.entry) tokens.now top.now r.0 r.1)) }
{
    let mut literals = top.to_literals(alloc)?;
    let room = GATHERED_TERMS.max(top.len());
    let end = gather(&mut literals, room, tokens, longest, lines, negated, denied)?;
    literals.sort_unstable();
    match RunningSum::of(alloc, top, &literals)? {
        Some(start) => Ok(summed(start, tokens, end, longest, lines, negated, denied)),
        None => Ok(None),
    }
}

// Gathers the literals of what the first tokens add, as long as they aren't more than there is room
// for, and gives how many tokens these are.
fn gather(
    literals: &mut Vec<Lit>,
    room: usize,
    tokens: &[PolToken],
    longest: usize,
    lines: &Lines,
    negated: Option<&Constraint>,
    denied: Option<&Constraint>,
) -> Result<usize, NoMemory>
    ensures { IfOk result (λ end. end ≤ length tokens.now) }
{
    let (mut end, mut left) = (0, room);
    while let Some(next) = next_addend(&tokens[end..], longest, lines, negated, denied) {
        let more = next.constraint.literals();
        if more.len() > left {
            break;
        }
        literals.extend_from_slice(more)?;
        left -= more.len();
        end += next.tokens;
    }
    Ok(end)
}

// What the first tokens up to a place add to a sum, and how many tokens were applied; or none where the
// first can't be, or a variable has no slot. The first addition that fails is left to report it.
fn summed(
    start: RunningSum,
    tokens: &[PolToken],
    end: usize,
    longest: usize,
    lines: &Lines,
    negated: Option<&Constraint>,
    denied: Option<&Constraint>,
) -> Option<(RunningSum, usize)>
    ensures { IfSome result
        (λ r. IsSummed (given_of lines.now negated.entry denied.entry) tokens.now start r.0 r.1) }
{
    let (mut sum, mut at) = (start, 0);
    while at < end {
        let Some(next) = next_addend(&tokens[at..], longest, lines, negated, denied) else {
            break;
        };
        if !fits(&sum, &next) {
            break;
        }
        sum = sum.plus(&Operand::lent(next.constraint), next.factor)?;
        at += next.tokens;
    }
    if at == 0 {
        return None;
    }
    Some((sum, at))
}

// Whether the sum isn't too large before terms cancel.
fn fits(sum: &RunningSum, next: &Addend) -> bool
    ensures { IsTrue result
        ↔ (size sum.now + size next.now.constraint.now * next.now.factor ≤ 2 ^ 100) }
{
    let size = next.constraint.size();
    is_product_small(size, next.factor) && size * next.factor <= SIZE_LIMIT - sum.size()
}

// Whether enough additions of lines with at most so many terms stand at the head of the tokens.
fn are_many(
    tokens: &[PolToken],
    longest: usize,
    lines: &Lines,
    negated: Option<&Constraint>,
    denied: Option<&Constraint>,
) -> bool {
    if longest == 0 || tokens.len() < 2 * LEAST_ADDITIONS {
        return false;
    }
    let mut at = 0;
    for _ in 0..LEAST_ADDITIONS {
        let Some(next) = next_addend(&tokens[at..], longest, lines, negated, denied) else {
            return false;
        };
        at += next.tokens;
    }
    true
}

// What the first tokens add to the topmost, where they push a constraint that is there and has at most
// so many terms, multiply it by a factor from 1 on or don't, and add.
fn next_addend<'a>(
    tokens: &[PolToken],
    longest: usize,
    lines: &'a Lines,
    negated: Option<&'a Constraint>,
    denied: Option<&'a Constraint>,
) -> Option<Addend<'a>>
    ensures addend { IfSome result (λ x. IsAddend (given_of lines.now negated.entry denied.entry)
        tokens.now x.constraint.now x.factor x.tokens) }
    ensures some { IfSome result (λ x. 0 < x.tokens) }
    ensures bound { IfSome result (λ x. x.tokens ≤ length tokens.now) }
{
    let (factor, applied) = times_added(tokens)?;
    let constraint = pushed(tokens[0], lines, negated, denied)?;
    if constraint.len() > longest {
        return None;
    }
    Some(Addend {
        constraint,
        factor,
        tokens: applied,
    })
}

// How often the first tokens add what the first of them pushes, and how many they are.
fn times_added(tokens: &[PolToken]) -> Option<(u128, usize)>
    ensures adds { IfSome result (λ r. IsAddition tokens.now r.0 r.1) }
    ensures some { IfSome result (λ r. 0 < r.1) }
    ensures bound { IfSome result (λ r. r.1 ≤ length tokens.now) }
{
    match tokens {
        [_, PolToken::Add, ..] => Some((1, 2)),
        [_, PolToken::Mul(factor), PolToken::Add, ..] if *factor >= 1 => {
            Some((factor.unsigned_abs(), 3))
        }
        _ => None,
    }
}

// The constraint that a token pushes, where it names one that is there.
fn pushed<'a>(
    token: PolToken,
    lines: &'a Lines,
    negated: Option<&'a Constraint>,
    denied: Option<&'a Constraint>,
) -> Option<&'a Constraint>
    ensures { IfSome result
        (λ c. Pushes (given_of lines.now negated.entry denied.entry) token c.now) }
{
    match token {
        PolToken::Id(id) => lines.get(id),
        PolToken::Negated => negated,
        PolToken::Denied => denied,
        _ => None,
    }
}
