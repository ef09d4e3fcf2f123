// Leaves of a search: clauses by which a partial assignment can't be completed (DECISIONS, tree-lines).
use crate::combining::{Combination, Sources, value_of};
use crate::factors::{Factor, Multiplier, rounded, scale_of};
use crate::limits::DENOMINATORS;
use crate::live_lines::LiveLines;
use crate::trial::Trial;
use cutting_planes::PolToken;
use pb_lin::Constraint;
use scut_base::{Items, Lit, NoMemory, Partial};
use std::alloc::Global;

// A clause, and how lines contradict its negation.
#[derive(Debug, Drop)]
pub(crate) struct Leaf {
    // The literals, in rising order of variables.
    pub(crate) lits: Items<Lit>,
    // What makes a contradiction of the lines and the negation.
    pub(crate) tokens: Items<PolToken>,
}

// A clause that is false under the partial assignment, by a sum of live lines and of those that may be added later: the
// multipliers are rounded to whole numbers, by one denominator after another, until the sum can't be reached where the
// assignment holds. Literals that aren't needed are left out, those of small coefficients first. `None` where no denominator
// serves. Nothing is promised of the tokens: the line that is made of them is judged when it is added.
//
// Costs some passes over the variables, and for each denominator one over the lines' terms, in floats.
pub(crate) fn infeasible_leaf(
    alloc: Global,
    live: &LiveLines<'_>,
    pending: &[Constraint],
    multipliers: &[Multiplier],
    fixed: &Partial,
) -> Result<Option<Leaf>, NoMemory> {
    let sources = Sources {
        live: live.lines,
        pending,
    };
    let mut sum = Combination::over(alloc, &sources, live.vars, multipliers)?;
    let mut trial = Trial::over(alloc, &sources, multipliers, sum.named.as_slice(), fixed)?;
    for denominator in DENOMINATORS {
        for is_relative in [false, true] {
            let scale = scale_of(multipliers, denominator, is_relative);
            if trial.is_short(multipliers, scale) == Some(false) {
                continue;
            }
            let factors = rounded(alloc, multipliers, scale)?;
            if let Some(shortfall) = sum.shortfall_of(&sources, factors.as_slice(), fixed) {
                let leaf = leaf_of(alloc, factors.as_slice(), &sum, fixed, shortfall)?;
                return Ok(Some(leaf));
            }
        }
    }
    Ok(None)
}

// The leaf of a sum that stays so much below what it has to be.
fn leaf_of(
    alloc: Global,
    factors: &[Factor],
    sum: &Combination,
    fixed: &Partial,
    shortfall: i128,
) -> Result<Leaf, NoMemory> {
    let needed = needed_terms(alloc, sum, fixed)?;
    let kept = needed
        .get(lifted_terms(needed.as_slice(), shortfall)..)
        .unwrap_or(&[]);
    Ok(Leaf {
        lits: literals_of(alloc, sum, kept)?,
        tokens: contradiction(alloc, factors, kept)?,
    })
}

// The variables, with the sizes of their coefficients, whose values keep the sum from being more: they rise by
// size.
fn needed_terms(
    alloc: Global,
    sum: &Combination,
    fixed: &Partial,
) -> Result<Vec<(u128, u64)>, NoMemory> {
    let mut needed = Vec::new(alloc);
    for var in sum.named.iter() {
        let coefficient = sum.coefficient(*var);
        let is_needed = match value_of(fixed, *var) {
            Some(true) => coefficient < 0,
            Some(false) => coefficient > 0,
            None => false,
        };
        if is_needed {
            needed.push((coefficient.unsigned_abs(), *var))?;
        }
    }
    needed.sort_unstable_by_key(|term| term.0);
    Ok(needed)
}

// How many of the least terms the sum stays short without.
fn lifted_terms(needed: &[(u128, u64)], shortfall: i128) -> usize {
    let mut left = shortfall;
    let mut lifted = 0usize;
    for term in needed {
        match i128::try_from(term.0) {
            Ok(size) if size < left => {
                left = left.saturating_sub(size);
                lifted = lifted.saturating_add(1);
            }
            _ => return lifted,
        }
    }
    lifted
}

// The literals of these terms, in rising order of variables.
fn literals_of(
    alloc: Global,
    sum: &Combination,
    kept: &[(u128, u64)],
) -> Result<Items<Lit>, NoMemory> {
    let mut lits = Vec::with_capacity(alloc, kept.len())?;
    for (_, var) in kept {
        if 0 < *var && *var < 1 << 63 {
            lits.push(Lit::new(*var, sum.coefficient(*var) < 0))?;
        }
    }
    lits.sort_unstable();
    Ok(Items::from_vec(lits))
}

// The tokens `ID f * .. + ! m * +`: lines by factors, and the clause's negation as often as the largest of its coefficients in
// their sum, so that all of its literals cancel.
fn contradiction(
    alloc: Global,
    factors: &[Factor],
    kept: &[(u128, u64)],
) -> Result<Items<PolToken>, NoMemory> {
    let mut tokens = Items::new(alloc);
    add_lines(&mut tokens, factors)?;
    if let Some((largest, _)) = kept.last() {
        let largest = i128::try_from(*largest).unwrap_or(i128::MAX);
        tokens.push(PolToken::Denied)?;
        add_factor(&mut tokens, largest)?;
        tokens.push(PolToken::Add)?;
    }
    Ok(tokens)
}

// The lines times their factors, summed by halves: a term is then copied as often as the halves are halved, not once for each
// line that comes after its own.
fn add_lines(tokens: &mut Items<PolToken>, factors: &[Factor]) -> Result<(), NoMemory> {
    let mut open = 0u32;
    for (before, factor) in factors.iter().enumerate() {
        tokens.push(PolToken::Id(factor.line))?;
        add_factor(tokens, i128::from(factor.factor))?;
        open = open.saturating_add(1);
        for _ in 0..before.trailing_ones() {
            tokens.push(PolToken::Add)?;
            open = open.saturating_sub(1);
        }
    }
    for _ in 1..open {
        tokens.push(PolToken::Add)?;
    }
    Ok(())
}

// Multiplies what is topmost, unless by 1.
fn add_factor(tokens: &mut Items<PolToken>, factor: i128) -> Result<(), NoMemory> {
    if factor > 1 {
        tokens.push(PolToken::Mul(factor))?;
    }
    Ok(())
}
