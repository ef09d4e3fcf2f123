// The core that a clause makes.
ghost use Rattle.std.specs.Prelude.{◌≡◌, map, All, Contains, IfOk, IfSome, IsTrue};
ghost use Rattle.pb_lin.specs.Constraint.{opposite};

use crate::Core;
use scut_base::{Items, Lit, NoMemory};
use std::alloc::Global;

/// The assumptions of which a clause says that they can't all be true: the opposites of its literals, where all of them are
/// assumed. The clause is the line of this id.
pub fn core_of(
    alloc: Global,
    id: u64,
    clause: &[Lit],
    assumed: &[Lit],
) -> Result<Option<Core>, NoMemory>
    ensures id { IfOk result (λ core. IfSome core (λ k. k.id ≡ id)) }
    ensures opposites { IfOk result (λ core. IfSome core (λ k. k.lits ≡ map opposite clause.now)) }
    ensures among { IfOk result (λ core. IfSome core (λ k. All (Contains assumed.now) k.lits)) }
{
    let lits = opposites(alloc, clause)?;
    if are_among(lits.as_slice(), assumed) {
        Ok(Some(Core { lits, id }))
    } else {
        Ok(None)
    }
}

// Whether each of the literals is assumed.
fn are_among(lits: &[Lit], assumed: &[Lit]) -> bool
    ensures { IsTrue result → All (Contains assumed.now) lits.now }
{
    for lit in lits {
        if !assumed.contains(lit) {
            return false;
        }
    }
    true
}

// The opposite of each literal.
fn opposites(alloc: Global, lits: &[Lit]) -> Result<Items<Lit>, NoMemory>
    ensures { IfOk result (λ others. others ≡ map opposite lits.now) }
{
    let mut others = Items::with_capacity(alloc, lits.len())?;
    for lit in lits {
        others.push(lit.not())?;
    }
    Ok(others)
}
