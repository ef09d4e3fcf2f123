// The parts of a box in which some objective is less than at a vector.
ghost use Rattle.std.specs.Prelude.{◌≡◌, ◌<◌, ◌^◌, ◌≤ℤ◌, ◌-ℤ◌, length, pos, slice_index_or, slice_set, IfOk, MatchOption, OnOk};
ghost use Rattle.front_set.specs.Vector.{IsBelow, is_below};
ghost use Rattle.relaxations.specs.Parts.{AddsBox, AddsParts, first_around, not_within};

use front_set::CostVec;
use scut_base::{Items, NoMemory};
use std::alloc::Global;

// Whether the costs are at most the limits, number by number.
pub(crate) fn is_below(costs: &CostVec, limits: &CostVec) -> bool
    ensures { result ≡ is_below costs.now limits.now }
{
    costs.len() == limits.len() && costs.weakly_dominates(limits)
}

// Adds a box, unless it is within another, and drops those that are within it.
pub(crate) fn add_box(boxes: &mut Vec<CostVec>, limits: CostVec) -> Result<(), NoMemory>
    ensures { OnOk result (AddsBox boxes.old.items boxes.new.items limits) }
{
    if let Some(_around) = place_around(boxes, &limits) {
        return Ok(());
    }
    drop_within(boxes, &limits);
    boxes.push(limits)?;
    Ok(())
}

// The place of the first box that this one is within.
fn place_around(boxes: &[CostVec], limits: &CostVec) -> Option<usize>
    ensures { result ≡ first_around boxes.now limits.now }
{
    boxes.iter().position(|other| is_below(limits, other))
}

// Drops the boxes that are within this one.
fn drop_within(boxes: &mut Vec<CostVec>, limits: &CostVec)
    ensures { boxes.new.items ≡ not_within limits.now boxes.old.items }
{
    boxes.retain(|other| !is_below(other, limits));
}

// Adds the parts of a box in which an objective is less than at these costs.
pub(crate) fn add_parts(
    alloc: Global,
    boxes: &mut Vec<CostVec>,
    limits: &CostVec,
    costs: &CostVec,
) -> Result<(), NoMemory>
    requires { IsBelow costs.now limits.now }
    ensures { OnOk result
        (AddsParts boxes.old.items boxes.new.items limits.now costs.now (length limits.now)) }
{
    for objective in 0..limits.len() {
        if let Some(most) = one_less(costs, objective) {
            let part = with_limit(alloc, limits, objective, most)?;
            add_box(boxes, part)?;
        }
    }
    Ok(())
}

// One less than the number of an objective; none where nothing is.
fn one_less(costs: &CostVec, objective: usize) -> Option<i64>
    requires { objective < length costs.now }
    ensures { MatchOption result
        (slice_index_or costs.now objective (pos 0) ≤ℤ (pos 0 -ℤ pos (2 ^ 63)))
        (λ most. most ≡ slice_index_or costs.now objective (pos 0) -ℤ pos 1) }
{
    costs.as_slice()[objective].checked_sub(1)
}

// The limits with another one for an objective.
fn with_limit(
    alloc: Global,
    limits: &CostVec,
    objective: usize,
    most: i64,
) -> Result<CostVec, NoMemory>
    requires { objective < length limits.now }
    ensures { IfOk result (λ part. part ≡ slice_set limits.now objective most) }
{
    let mut values = Vec::from_slice(alloc, limits.as_slice())?;
    values[objective] = most;
    Ok(CostVec::from_items(Items::from_vec(values)))
}
