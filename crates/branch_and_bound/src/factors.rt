// Whole numbers in place of multipliers.
use scut_base::{Items, NoMemory};
use std::alloc::Global;
use std::num::{nearest_u64_to_f64, saturating_f64_to_u64};

// A line, with the multiplier by which a linear program takes it; lines whose multiplier isn't above 0 are left out.
#[derive(Clone, Copy, Debug)]
pub(crate) struct Multiplier {
    // The id of the line.
    pub(crate) line: u64,
    pub(crate) value: f64,
}

// A line with a factor from 1 on.
#[derive(Clone, Copy, Debug)]
pub(crate) struct Factor {
    pub(crate) line: u64,
    pub(crate) factor: u64,
}

// The multipliers scaled and rounded, without those that come to 0.
pub(crate) fn rounded(
    alloc: Global,
    multipliers: &[Multiplier],
    scale: f64,
) -> Result<Items<Factor>, NoMemory> {
    let mut factors = Items::new(alloc);
    for multiplier in multipliers {
        let factor = factor_of(multiplier, scale);
        if factor > 0 {
            factors.push(Factor {
                line: multiplier.line,
                factor,
            })?;
        }
    }
    Ok(factors)
}

// The multiplier scaled and rounded.
pub(crate) fn factor_of(multiplier: &Multiplier, scale: f64) -> u64 {
    saturating_f64_to_u64((multiplier.value * scale).round())
}

// A denominator as a scale: as it is, or so that the largest multiplier comes to it.
pub(crate) fn scale_of(multipliers: &[Multiplier], denominator: u64, is_relative: bool) -> f64 {
    let scale = nearest_u64_to_f64(denominator);
    if is_relative {
        return scale / largest(multipliers);
    }
    scale
}

// The largest multiplier, or 0.
fn largest(multipliers: &[Multiplier]) -> f64 {
    let mut largest: f64 = 0.0;
    for multiplier in multipliers {
        largest = largest.max(multiplier.value);
    }
    largest
}
