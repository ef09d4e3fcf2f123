// Variables: one for each column, and after these one for the activity of each row.

use crate::Range;
use crate::limits::{FEASIBLE, FEASIBLE_PART, POINT};

// Where a variable stands: in the basis, by its place, or at an end of its range.
#[derive(Clone, Copy, Debug)]
pub(crate) enum Standing {
    Basic(usize),
    AtLower,
    AtUpper,
}

#[derive(Clone, Copy, Debug)]
pub(crate) struct Variable {
    pub(crate) range: Range,
    // How far outside of the range it may be.
    pub(crate) tolerance: f64,
    // With what perturbs it; 0 for a row's.
    pub(crate) cost: f64,
    pub(crate) reduced_cost: f64,
    // The steepest-edge weight, from when it was in the basis last.
    pub(crate) weight: f64,
    pub(crate) standing: Standing,
}

impl Variable {
    // A column's, at its lower end.
    pub(crate) fn of_column() -> Variable {
        Variable {
            range: Range {
                lower: 0.0,
                upper: 1.0,
            },
            tolerance: FEASIBLE,
            cost: 0.0,
            reduced_cost: 0.0,
            weight: 1.0,
            standing: Standing::AtLower,
        }
    }

    // A row's that is multiplied by this scale, in the basis at this place.
    pub(crate) fn of_row(range: Range, scale: f64, place: usize) -> Variable {
        Variable {
            range: scaled(range, scale),
            tolerance: (FEASIBLE * scale).max(FEASIBLE_PART).min(FEASIBLE),
            cost: 0.0,
            reduced_cost: 0.0,
            weight: 1.0,
            standing: Standing::Basic(place),
        }
    }

    pub(crate) fn is_basic(&self) -> bool {
        matches!(self.standing, Standing::Basic(_))
    }

    // The place in the basis.
    pub(crate) fn place(&self) -> Option<usize> {
        match self.standing {
            Standing::Basic(place) => Some(place),
            _ => None,
        }
    }

    pub(crate) fn is_at_upper(&self) -> bool {
        matches!(self.standing, Standing::AtUpper)
    }

    // The end at which it stands outside of the basis.
    pub(crate) fn end(&self) -> f64 {
        if self.is_at_upper() {
            self.range.upper
        } else {
            self.range.lower
        }
    }

    pub(crate) fn width(&self) -> f64 {
        self.range.upper - self.range.lower
    }

    pub(crate) fn is_fixed(&self) -> bool {
        self.width() < POINT
    }

    // Puts it at an end, unless it's in the basis.
    pub(crate) fn put_at(&mut self, is_at_upper: bool) {
        if !self.is_basic() {
            self.standing = end_of(is_at_upper);
        }
    }
}

pub(crate) fn end_of(is_at_upper: bool) -> Standing {
    if is_at_upper {
        Standing::AtUpper
    } else {
        Standing::AtLower
    }
}

pub(crate) fn scaled(range: Range, scale: f64) -> Range {
    Range {
        lower: range.lower * scale,
        upper: range.upper * scale,
    }
}
