// Lines that may be added later.
use crate::combining::Sources;
use crate::live_lines::LiveLines;
use cutting_planes::{PolFault, PolToken, evaluate};
use pb_lin::{Constraint, LinFault, Lines};
use scut_base::{Duplicate, Items, NoMemory};
use std::alloc::Global;

// The id by which the first of the lines that may be added later is named; those after it follow. No live line has it.
pub(crate) const FIRST_PENDING: u64 = 1 << 62;

// The constraint that tokens make of live lines, of those that may be added later and of a given one, if they make one. Costs
// copies of the lines that they name, and the evaluation.
pub(crate) fn pending_constraint(
    alloc: Global,
    live: &LiveLines<'_>,
    pending: &[Constraint],
    tokens: &[PolToken],
    negated: Option<&Constraint>,
) -> Result<Option<Constraint>, NoMemory> {
    let sources = Sources {
        live: live.lines,
        pending,
    };
    let mut lines = Lines::new(alloc);
    let mut own = Items::with_capacity(alloc, tokens.len())?;
    for token in tokens {
        match token {
            PolToken::Id(id) => match add_copy(alloc, &mut lines, sources.get(*id))? {
                Some(copy) => own.push(PolToken::Id(copy))?,
                None => return Ok(None),
            },
            other => own.push(*other)?,
        }
    }
    match evaluate(alloc, own.as_slice(), &lines, negated, None) {
        Ok(made) => Ok(Some(made)),
        Err(PolFault::NoMemory) => Err(NoMemory),
        Err(_) => Ok(None),
    }
}

// Whether tokens make a contradiction of such lines and of a cut's negation.
pub(crate) fn is_contradicted(
    alloc: Global,
    live: &LiveLines<'_>,
    pending: &[Constraint],
    tokens: &[PolToken],
    cut: &Constraint,
) -> Result<bool, NoMemory> {
    let negated = match cut.negated(alloc) {
        Ok(negated) => negated,
        Err(LinFault::NoMemory) => return Err(NoMemory),
        Err(_) => return Ok(false),
    };
    let made = pending_constraint(alloc, live, pending, tokens, Some(&negated))?;
    Ok(made.is_some_and(|made| made.total() < made.degree()))
}

// Adds a copy of a line, and answers its id there.
fn add_copy(
    alloc: Global,
    lines: &mut Lines,
    line: Option<&Constraint>,
) -> Result<Option<u64>, NoMemory> {
    let Some(line) = line else {
        return Ok(None);
    };
    let id = (lines.len() as u64).saturating_add(1);
    lines.put(id, line.copy(alloc)?)?;
    Ok(Some(id))
}
