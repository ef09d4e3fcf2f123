// Propagation that follows hints.
ghost use Rattle.std.specs.Prelude.{◌≡◌, ℕ, List, None, length, replicate, All, IfSome, IsOk, MatchOption};
ghost use Rattle.pb_lin.specs.Constraint.{ConstraintValue, UpTo};
ghost use Rattle.pb_lin.specs.Given.{IsRefuted, IsWithin, given_with};
ghost use Rattle.hint_rup.specs.Hints.{HintsUpTo, IsReplayed, line_of, id_of};
ghost use Rattle.hint_rup.specs.Negation.{IsNegation, negation_in};
ghost use Rattle.hint_rup.specs.Propagation.{Conflicts, PropagatesSome};

use crate::negated::{propagate_first, propagate_negated};
use crate::propagation::propagate;
use crate::{Hint, Negated, RupFault};
use pb_lin::{Constraint, Lines};
use scut_base::Partial;

/// Whether the hinted lines conflict: propagates `negated` from no truth value on, and then each hint's
/// line in order, until a line has a negative slack. To propagate a line is to make every open literal
/// true whose coefficient exceeds the slack. This is reverse unit propagation (Goldberg and Novikov
/// 2003) on pseudo-Boolean constraints, as VeriPB does it (Gocht and Nordström 2021).
///
/// `scratch` is overwritten. `NoSuchId` where a hint before the conflict names no line, with 0 for
/// `Denied` where it isn't given; `Open` where all hints are used and no conflict came. Takes no memory.
/// Costs what was set in `scratch`, whatever its length is, and one or two passes over `negated` and
/// each line up to the conflict.
pub fn replay(
    scratch: &mut Partial,
    negated: Negated<'_>,
    denied: Option<&Constraint>,
    hints: &[Hint],
    lines: &Lines,
) -> Result<(), RupFault>
    requires negation { IsNegation negated }
    requires negated { UpTo (length scratch.old) (negation_in negated) }
    requires hinted { HintsUpTo (length scratch.old)
        (given_with lines.now (negation_in negated) denied) hints.now }
    ensures answer { IsReplayed (length scratch.old) (negation_in negated.entry)
        (given_with lines.now (negation_in negated.entry) denied.entry) hints.now result }
    ensures length { length scratch.new ≡ length scratch.old }
    ensures implied { IsOk result
        → IsRefuted (given_with lines.now (negation_in negated.entry) denied.entry) }
{
    scratch.clear();
    if propagate_first(scratch, negated) {
        return Ok(());
    }
    for hint in hints {
        match propagate_hint(scratch, *hint, negated, denied, lines) {
            Some(true) => return Ok(()),
            Some(false) => {}
            None => return Err(RupFault::NoSuchId(id_of(*hint))),
        }
    }
    Err(RupFault::Open)
}

/// Law: whether constraints conflict doesn't depend on how many variables are open at first, where these
/// are all of theirs.
pub fn conflicts_at_any_length()
    ensures { (m n : ℕ) (cs : List ConstraintValue) → All (IsWithin m) cs → All (IsWithin n) cs
        → Conflicts (replicate m None) cs → Conflicts (replicate n None) cs }
{}

// Propagates the line that a hint names, and answers whether it is in conflict; `None` where the hint names no line.
fn propagate_hint(
    scratch: &mut Partial,
    hint: Hint,
    negated: Negated<'_>,
    denied: Option<&Constraint>,
    lines: &Lines,
) -> Option<bool>
    requires negation { IsNegation negated }
    requires hinted { IfSome (line_of (given_with lines.now (negation_in negated) denied) hint)
        (UpTo (length scratch.old)) }
    ensures propagates { MatchOption result
        (line_of (given_with lines.now (negation_in negated.entry) denied.entry) hint ≡ None)
        (PropagatesSome scratch.old scratch.new
        (line_of (given_with lines.now (negation_in negated.entry) denied.entry) hint)) }
    ensures length { length scratch.new ≡ length scratch.old }
{
    let line = match hint {
        Hint::Negated => return Some(propagate_negated(scratch, negated)),
        Hint::Id(id) => lines.get(id)?,
        Hint::Denied => denied?,
    };
    Some(propagate(scratch, line))
}

// The id of a hint, or 0.
fn id_of(hint: Hint) -> u64
    ensures { result ≡ id_of hint }
{
    match hint {
        Hint::Id(id) => id,
        Hint::Negated | Hint::Denied => 0,
    }
}
