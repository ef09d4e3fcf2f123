// About how many lines a row's totalizer takes.
ghost use Rattle.std.specs.Prelude.{◌≡◌, ◌<◌, ◌^◌, IfSome};
ghost use Rattle.pb_lin.specs.Constraint.{total};

use crate::limits::{
    LEAST_COUNT, MOST_LINES, MOST_LINES_A_ROW, MOST_LINES_OF_ONE, MOST_SUM, MOST_TERMS,
};
use pb_lin::Constraint;
use scut_base::Lit;

// The room for the totalizers of so many rows, in lines.
pub(crate) fn room_for(rows: usize) -> u64 {
    (rows as u64)
        .saturating_mul(MOST_LINES_A_ROW)
        .max(MOST_LINES)
}

// Whether a row asks for more than one of its literals, or for some of unlike weights.
pub(crate) fn may_count(row: &Constraint) -> bool {
    !row.is_clause() && row.len() >= 2 && row.len() <= MOST_TERMS && row.degree() > 0
}

// The number `k`, where a totalizer of "at least `k`" says more than the row's literals do by themselves, is small, and there
// is room for it; the room is taken then.
pub(crate) fn taken_room(terms: &[(Lit, u64)], k: u128, room: &mut u64) -> Option<i64>
    ensures { IfSome result (λ n. total terms.now < 2 ^ 63) }
{
    let sum = total_of(terms)?;
    let least = i64::try_from(k).ok()?;
    let lines = estimate(terms.len() as u64, sum, least.unsigned_abs());
    if least < LEAST_COUNT || sum > MOST_SUM || lines > MOST_LINES_OF_ONE || lines > *room {
        return None;
    }
    *room -= lines;
    Some(least)
}

// The sum of the weights, where it is below 2^64.
fn total_of(terms: &[(Lit, u64)]) -> Option<u64>
    ensures { IfSome result (λ n. n ≡ total terms.now) }
{
    let mut sum = 0u64;
    for term in terms {
        sum = sum.checked_add(term.1)?;
    }
    Some(sum)
}

// The pairs of outputs of two children, node by node, as if all weights were alike.
fn estimate(count: u64, sum: u64, k: u64) -> u64 {
    let mut lines = 0u64;
    for level in 0..32u32 {
        let width = 1u64 << level;
        if width >= count {
            return lines;
        }
        let reached = width.saturating_mul(sum / count + 1);
        let outputs = reached.min(k).min(1u64 << width.min(32));
        let pairs = outputs.saturating_mul(outputs);
        let nodes = count / width / 2 + 1;
        lines = lines.saturating_add(pairs.saturating_mul(nodes));
    }
    lines
}
