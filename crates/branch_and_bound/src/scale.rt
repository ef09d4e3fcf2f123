// By what multipliers are scaled before they are rounded to whole factors.
use crate::factors::Multiplier;
use crate::limits::{LEAST_FIRST_FACTOR, TRIED_BELOW};
use crate::relaxation::float_of;
use cutting_planes::PolToken;

// The largest factor of the last leaf: those of the next are about as large, and each smaller one that is tried in vain costs a
// pass over the lines.
#[derive(Clone, Copy, Debug)]
pub(crate) struct Scale {
    largest: f64,
}

impl Scale {
    pub(crate) fn new() -> Scale {
        Scale { largest: 1.0 }
    }

    // Scales multipliers so that what is tried first is a part of the last leaf's largest factor; leaves them where that was
    // small.
    pub(crate) fn begin(&self, lines: &mut [Multiplier]) {
        let first = self.largest / TRIED_BELOW;
        let largest = largest_of(lines);
        if first >= LEAST_FIRST_FACTOR && largest > 0.0 {
            for line in lines.iter_mut() {
                line.value *= first / largest;
            }
        }
    }

    // Notes the factors of a leaf's lines, which come before its clause's negation.
    pub(crate) fn note(&mut self, tokens: &[PolToken]) {
        self.largest = 1.0;
        for token in tokens {
            match token {
                PolToken::Mul(factor) => {
                    self.largest = self.largest.max(float_of(factor.unsigned_abs()));
                }
                PolToken::Denied => return,
                _ => {}
            }
        }
    }
}

fn largest_of(lines: &[Multiplier]) -> f64 {
    let mut largest: f64 = 0.0;
    for line in lines {
        largest = largest.max(line.value);
    }
    largest
}
